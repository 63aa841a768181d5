// What the programs share: their words are read, their input is worked on, and an error is told with the program's name.
use crate::command::{Command, Job, asked, input};

#[derive(Clone, Copy)]
pub(crate) struct Program<'a> {
    pub name: &'a str,
    // the flag of its own, if it has one
    pub flag: Option<&'a str>,
    pub usage: &'a str,
    pub help: &'a str,
}

impl Program<'_> {
    // The work is for the bytes of the input, and for whether the program's own flag was given.
    pub(crate) fn run<F: FnOnce(&HostRuntime, &[u8], bool) -> anyhow::Result<()>>(
        self,
        rt: &HostRuntime,
        work: F,
    ) -> anyhow::Result<()>
        requires { F.IsAlwaysCallable work }
    {
        let result = self.answer(rt, work);
        if let Err(error) = &result {
            let _ = eprintln!(rt; "{}: {error}", self.name);
        }
        result
    }

    fn answer<F: FnOnce(&HostRuntime, &[u8], bool) -> anyhow::Result<()>>(
        self,
        rt: &HostRuntime,
        work: F,
    ) -> anyhow::Result<()>
        requires { F.IsAlwaysCallable work }
    {
        match asked(rt, self.flag, self.usage)? {
            Command::Help => println!(rt; "{}", self.help)?,
            Command::Version => println!(rt; "{} 1", self.name)?,
            Command::Run(Job { flagged, file }) => {
                let bytes = input(rt, file)?;
                work(rt, bytes.as_slice(), flagged)?;
            }
        }
        Ok(())
    }
}
