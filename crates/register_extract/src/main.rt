// Prints the extract of a parcel: see `programs::extract`.
#![tactic(auto)]

use programs::ending::status;
use std::process::ExitCode;

fn main(rt: HostRuntime) -> ExitCode {
    status(programs::extract::register_extract(&rt))
}
