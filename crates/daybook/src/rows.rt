// What lies in a row of bytes, one after another: filings, each after a byte of its length, or numbers of two bytes.
ghost use Rattle.std.specs.Iterator.{YieldsFirst, YieldsFirstRef, item_count};
ghost use Rattle.daybook.specs.File.{filings_left, numbers_left};

use crate::file::next_filing;

// A last filing that is cut off is as much of it as there is.
#[derive(Clone, Debug, Drop)]
pub struct Filings<'a> {
    pub(crate) rest: &'a [u8],
}

// Half a number at the end is left out.
#[derive(Clone, Debug, Drop)]
pub struct Numbers<'a> {
    pub(crate) rest: &'a [u8],
}

impl<'a> Iterator for Filings<'a> {
    type Item = &'a [u8];

    ghost next_gives = { YieldsFirstRef filings_left };

    ghost remaining = { item_count filings_left };

    #[tactic(auto, using(crate::proofs::Cuts::first_row))]
    fn next(&mut self) -> Option<&'a [u8]> {
        let (filing, rest) = next_filing(self.rest)?;
        self.rest = rest;
        Some(filing)
    }
}

impl Iterator for Numbers<'_> {
    type Item = u16;

    ghost next_gives = { YieldsFirst numbers_left };

    ghost remaining = { item_count numbers_left };

    fn next(&mut self) -> Option<u16> {
        let (&number, rest) = self.rest.split_first_chunk::<2>()?;
        self.rest = rest;
        Some(u16::from_le_bytes(number))
    }
}
