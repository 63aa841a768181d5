// Works through a file of filings and prints the extract of a parcel.
use crate::office::{Office, file_all, print, tell_unworked, work_all};
use crate::program::Program;
use daybook::error::{FileError, Malformed, Missing};
use daybook::file::DayBook;
use extracts::error::ExtractError;
use extracts::extract::Extract;
use std::alloc::Global;
use std::io;
use std::io::Write;
use work::registry::Registry;

const USAGE: &str = "usage: register_extract [FILE]   (--help says more)";

const HELP: &str = "usage: register_extract [FILE]

Reads a day book from FILE, or from standard input where no FILE is named, with a parcel behind the order of work. Opens the
register, takes the filings in and works them, and prints the extract of that parcel: its page as it stands, its entries in
their rank, and the open filings that touch it:

    parcel 15 owner 5 area 60 live      or closed; or 'parcel 20 not there' where nothing was made under that number
    1 holder 7 charge 2000              or '1 holder 7 kept' for a rank that is kept
    open 16 17                          or 'open none': then the page is final

'extract refused 11 at 0' says that no parcel can have this number, 'opening refused 2 at 12' that the opening is refused.

    --version    prints the version";

// The extract of a parcel, or that its number is refused.
fn draw<W: Write>(
    registry: &Registry,
    heap: Global,
    parcel: u16,
    out: &mut W,
) -> anyhow::Result<()> {
    match Extract::of(registry, heap, parcel) {
        Ok(extract) => writeln!(out, "{extract}")?,
        Err(error @ ExtractError::Refused(_)) => writeln!(out, "extract {error}")?,
        Err(error) => return Err(error.into()),
    }
    Ok(())
}

// Nothing is told of the filings: just the extract is printed.
fn extract_of_book<W: Write>(
    heap: Global,
    book: DayBook,
    parcel: u16,
    out: &mut W,
) -> anyhow::Result<()> {
    let mut office = Office::for_book(heap, book)?;
    let mut registry = office.registry();
    if let Err(refusal) = registry.open(book.opening) {
        return tell_unworked(refusal.into(), out);
    }
    let mut untold = io::sink();
    file_all(&mut registry, book, &mut untold)?;
    work_all(&mut registry, book, &mut untold)?;
    draw(&registry, heap, parcel, out)
}

// A file whose order is followed by a parcel.
fn read(bytes: &[u8]) -> Result<(DayBook<'_>, u16), FileError> {
    let both = DayBook::read(bytes)?.with_parcel().ok_or(Malformed {
        lacks: Missing::Parcel,
        at: bytes.len(),
    })?;
    Ok(both)
}

// Prints the extract that a file asks for.
pub fn extract_of_file(rt: &HostRuntime, bytes: &[u8]) -> anyhow::Result<()> {
    let heap = rt.alloc();
    print(rt, read(bytes), |(book, parcel), out| {
        extract_of_book(heap, book, parcel, out)
    })
}

pub fn register_extract(rt: &HostRuntime) -> anyhow::Result<()> {
    let program = Program {
        name: "register_extract",
        flag: None,
        usage: USAGE,
        help: HELP,
    };
    program.run(rt, |rt, bytes, _| extract_of_file(rt, bytes))
}
