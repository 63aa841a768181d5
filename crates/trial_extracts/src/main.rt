// Extracts of the worked example's other parcels: see `programs::extract`.
#![tactic(auto)]

use programs::extract::extract_of_file;
use std::fs;

const FILES: [&str; 5] = [
    "summer_0.bin",
    "summer_1.bin",
    "summer_14.bin",
    "summer_20.bin",
    "summer_16.bin",
];

fn main(rt: HostRuntime) -> anyhow::Result<()> {
    for name in &FILES {
        let bytes = fs::read(&rt, *name)?;
        extract_of_file(&rt, bytes.as_slice())?;
    }
    Ok(())
}
