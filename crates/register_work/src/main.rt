// Works through a file of filings: see `programs::working`.
#![tactic(auto)]

use programs::ending::status;
use std::process::ExitCode;

fn main(rt: HostRuntime) -> ExitCode {
    status(programs::working::register_work(&rt))
}
