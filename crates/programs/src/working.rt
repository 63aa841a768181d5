// Works through a file of filings and prints what happened, a line for each.
use crate::office::{Office, file_all, print, tell_unworked, work_all};
use crate::program::Program;
use daybook::file::DayBook;
use std::alloc::Global;
use std::io;
use std::io::Write;
use work::registry::Registry;

const USAGE: &str = "usage: register_work [--ready] [FILE]   (--help says more)";

const HELP: &str = "usage: register_work [--ready] [FILE]

Reads a day book from FILE, or from standard input where no FILE is named: the parcels, the filings, and the order in which
to work them. Opens the register, takes the filings in and works them, and prints a line for each filing that is turned away
and for each number of the order:

    filing refused 5 at 10     turned away: the number of the refusal and the place
    3 entered
    9 rejected 2               the number of the reason
    1 waits for 0              0 is open and touches a page that 1 touches
    17 refused 8 at 0          not there (8) or done before (9)

An opening that is refused is told of by 'opening refused 2 at 12', and nothing more is done.

    --ready      prints, last, the open filings that may be worked now: 'ready 4 7' or 'ready none'
    --version    prints the version";

// As `ready 4 7`, or `ready none`.
fn tell_ready<W: Write>(registry: &Registry, out: &mut W) -> io::Result<()> {
    let Some(first) = registry.next_ready(0) else {
        return writeln!(out, "ready none");
    };
    write!(out, "ready")?;
    for number in (first..registry.filed).filter(|&number| registry.ask(number).is_ok()) {
        write!(out, " {number}")?;
    }
    writeln!(out)
}

// Opens, files all, and works the order. What `DayBook::read` took can be refused only for want of room.
fn work_book<W: Write>(
    heap: Global,
    book: DayBook,
    ready: bool,
    out: &mut W,
) -> anyhow::Result<()> {
    let mut office = Office::for_book(heap, book)?;
    let mut registry = office.registry();
    if let Err(refusal) = registry.open(book.opening) {
        return tell_unworked(refusal.into(), out);
    }
    file_all(&mut registry, book, out)?;
    work_all(&mut registry, book, out)?;
    if ready {
        tell_ready(&registry, out)?;
    }
    Ok(())
}

fn work_file(rt: &HostRuntime, bytes: &[u8], ready: bool) -> anyhow::Result<()> {
    let heap = rt.alloc();
    print(rt, DayBook::read(bytes), |book, out| {
        work_book(heap, book, ready, out)
    })
}

pub fn register_work(rt: &HostRuntime) -> anyhow::Result<()> {
    let program = Program {
        name: "register_work",
        flag: Some("--ready"),
        usage: USAGE,
        help: HELP,
    };
    program.run(rt, work_file)
}
