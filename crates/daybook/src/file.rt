// A file: the number of parcels in two bytes, 8 bytes a page, the filings, each after a byte of its length,
// a byte 0, and the order of work, two bytes a number.
ghost use Rattle.std.specs.Prelude.{◌≡◌, ◌<◌, ◌≤◌, length, IfOk};
ghost use Rattle.std.specs.Result.{result_map_both};
ghost use Rattle.std.specs.Option.{option_map as mapped_some};
ghost use Rattle.daybook.specs.File.{bytes_and_parcel, bytes_of, end_from, filings_left, first_filing, last_taken, numbers_left, parts, reading, two_parts};

use crate::error::{FileError, Malformed, Missing};
use crate::rows::{Filings, Numbers};
use pages::opening::Opening;

#[derive(Clone, Copy)]
pub struct DayBook<'a> {
    pub opening: Opening<'a>,
    // each filing after a byte of its length
    pub filings: &'a [u8],
    // two bytes a number
    pub order: &'a [u8],
}

// Where the byte 0 after the filings stands.
fn filings_end(bytes: &[u8], start: usize) -> Result<usize, Malformed>
    ensures value { result ≡ end_from (length bytes.now) bytes.now start }
    ensures within { IfOk result (λ end. (start ≤ end) × (end < length bytes.now)) }
{
    let mut rest = bytes.get(start..).unwrap_or(&[]);
    while let Some((&length, behind)) = rest.split_first() {
        let at = bytes.len() - rest.len();
        if length == 0 {
            return Ok(at);
        }
        rest = behind.get(usize::from(length)..).ok_or(Malformed {
            lacks: Missing::Filing,
            at,
        })?;
    }
    Err(Malformed {
        lacks: Missing::End,
        at: bytes.len(),
    })
}

impl<'a> DayBook<'a> {
    // A file taken apart, or why it is not worked. The opening is looked at before the rest.
    pub fn read(bytes: &'a [u8]) -> Result<DayBook<'a>, FileError>
        ensures { result_map_both parts (λ e. e) result ≡ reading bytes.now }
    {
        let (&parcels, rest) = bytes.split_first_chunk::<2>().ok_or(Malformed {
            lacks: Missing::Parcels,
            at: bytes.len(),
        })?;
        let parcels = u16::from_le_bytes(parcels);
        let wide = 8 * usize::from(parcels);
        let pages = rest.get(..wide).unwrap_or(rest);
        let opening = Opening { parcels, pages };
        opening.check()?;
        let start = 2 + wide;
        let end = filings_end(bytes, start)?;
        let order = &bytes[end + 1..];
        if order.len() % 2 == 1 {
            return Err(Malformed {
                lacks: Missing::Number,
                at: bytes.len() - 1,
            }
            .into());
        }
        Ok(DayBook {
            opening,
            filings: &bytes[start..end],
            order,
        })
    }

    // The filings, each without the byte of its length.
    pub fn filings(&self) -> Filings<'a>
        ensures { filings_left result ≡ (parts self.now).filings }
    {
        Filings { rest: self.filings }
    }

    // The numbers of the order.
    pub fn numbers(&self) -> Numbers<'a>
        ensures { numbers_left result ≡ (parts self.now).order }
    {
        Numbers { rest: self.order }
    }

    // The day book of a file for an extract, and the parcel that stands behind its order; none where it has no number there.
    pub fn with_parcel(self) -> Option<(DayBook<'a>, u16)>
        ensures { mapped_some bytes_and_parcel result ≡ last_taken (bytes_of self.entry) }
    {
        let (order, &parcel) = self.order.split_last_chunk::<2>()?;
        let book = DayBook { order, ..self };
        Some((book, u16::from_le_bytes(parcel)))
    }
}

// The first filing of a row in which each stands after a byte of its length, and the rest of the row.
#[tactic(auto, using(crate::proofs::Cuts::as_first))]
pub fn next_filing(filings: &[u8]) -> Option<(&[u8], &[u8])>
    ensures { mapped_some two_parts result ≡ first_filing filings.now }
{
    let (&length, behind) = filings.split_first()?;
    Some(behind.split_at(usize::from(length).min(behind.len())))
}
