// `register_work` on an opening that is refused: a program of its own, since a program is run on one input.
#![tactic(auto)]

use programs::ending::status;
use std::process::ExitCode;

fn main(rt: HostRuntime) -> ExitCode {
    status(programs::working::register_work(&rt))
}
