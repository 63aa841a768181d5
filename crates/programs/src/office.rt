// A registry in memory from the heap, and a day book put through it.
use crate::line::Line;
use daybook::error::FileError;
use daybook::file::DayBook;
use filings::slots::SLOT_BYTES;
use filings::taking::MOST_FILINGS;
use pages::words::PAGE_WORDS;
use std::alloc::{AllocError, Global};
use std::io;
use std::io::{BufWriter, Stdout, Write};
use work::registry::Registry;

// The memory of a registry.
#[derive(Drop)]
pub(crate) struct Office {
    pages: Vec<u64>,
    filings: Vec<u8>,
    marks: Vec<u8>,
}

impl Office {
    // Room for the parcels and filings of a day book, and for the pages that those filings may make.
    pub(crate) fn for_book(heap: Global, book: DayBook) -> Result<Office, AllocError> {
        let filings = book.filings().take(usize::from(MOST_FILINGS)).count();
        let pages = usize::from(book.opening.parcels) + 2 * filings;
        Ok(Office {
            pages: vec![in heap; 0u64; PAGE_WORDS * pages]?,
            filings: vec![in heap; 0u8; SLOT_BYTES * filings]?,
            marks: vec![in heap; 0u8; filings]?,
        })
    }

    pub(crate) fn registry(&mut self) -> Registry<'_> {
        Registry::over(
            self.pages.as_mut_slice(),
            self.filings.as_mut_slice(),
            self.marks.as_mut_slice(),
        )
    }
}

// Takes the filings in, one after another, and tells of each that is turned away.
pub(crate) fn file_all<W: Write>(
    registry: &mut Registry,
    book: DayBook,
    out: &mut W,
) -> io::Result<()> {
    for filing in book.filings() {
        if let Err(refusal) = registry.file(filing) {
            writeln!(out, "filing refused {refusal}")?;
        }
    }
    Ok(())
}

// Works the numbers of the order, one after another, and tells what came of each.
pub(crate) fn work_all<W: Write>(
    registry: &mut Registry,
    book: DayBook,
    out: &mut W,
) -> io::Result<()> {
    for number in book.numbers() {
        let answer = registry.work(number);
        let line = Line { number, answer };
        writeln!(out, "{line}")?;
    }
    Ok(())
}

// Prints what comes of a file that was read, or tells why it is not worked.
pub(crate) fn print<T: Drop, F: FnOnce(T, &mut BufWriter<Stdout>) -> anyhow::Result<()>>(
    rt: &HostRuntime,
    read: Result<T, FileError>,
    answer: F,
) -> anyhow::Result<()>
    requires { F.IsAlwaysCallable answer }
{
    let mut out = BufWriter::new(rt.alloc(), rt.stdout())?;
    match read {
        Ok(book) => answer(book, &mut out)?,
        Err(error) => tell_unworked(error, &mut out)?,
    }
    out.flush()?;
    Ok(())
}

// Tells why a file is not worked: of a refused opening as of any other answer, of a malformed file as of an error.
pub(crate) fn tell_unworked<W: Write>(error: FileError, out: &mut W) -> anyhow::Result<()> {
    match error {
        FileError::Refused(_) => writeln!(out, "{error}")?,
        FileError::Malformed(_) => return Err(error.into()),
    }
    Ok(())
}
