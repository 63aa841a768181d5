// The command line: what was asked for, and the bytes to work on.
use anyhow::{anyhow, bail};
use std::io::Read;
use std::{env, fs};

// The words behind the program's name.
#[derive(Drop)]
pub(crate) enum Command {
    Help,
    Version,
    Run(Job),
}

#[derive(Drop)]
pub(crate) struct Job {
    // whether the program's own flag was given
    pub flagged: bool,
    // the file to read; standard input where none is named
    pub file: Option<String>,
}

// What a program's words ask for, in any order; its usage is the error where they make no sense.
pub(crate) fn asked(rt: &HostRuntime, flag: Option<&str>, usage: &str) -> anyhow::Result<Command> {
    let mut flagged = false;
    let mut file = None;
    for word in env::args(rt)?.skip(1) {
        match word.as_str() {
            "--help" => return Ok(Command::Help),
            "--version" => return Ok(Command::Version),
            own if Some(own) == flag && !flagged => flagged = true,
            other if other.starts_with("-") || file.is_some() => bail!("{usage}"),
            _ => file = Some(word),
        }
    }
    Ok(Command::Run(Job { flagged, file }))
}

// The bytes of the file that was named, or of standard input.
pub(crate) fn input(rt: &HostRuntime, file: Option<String>) -> anyhow::Result<Vec<u8>> {
    let Some(name) = file else {
        let mut bytes = Vec::new(rt.alloc());
        rt.stdin().read_to_end(&mut bytes)?;
        return Ok(bytes);
    };
    fs::read(rt, name.as_str()).map_err(|error| anyhow!("cannot read {name}: {error}"))
}
