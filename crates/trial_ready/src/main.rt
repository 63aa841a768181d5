// `register_work --ready` on a day book of which some filings stay open: a program of its own, since a program is run on one input.
#![tactic(auto)]

use programs::ending::status;
use std::process::ExitCode;

fn main(rt: HostRuntime) -> ExitCode {
    status(programs::working::register_work(&rt))
}
