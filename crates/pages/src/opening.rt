// What an opening has to be: 1 to 1,024 parcels, 8 bytes of page for each, and areas of 1 to 1,000,000,000.
ghost use Rattle.std.specs.Prelude.{◌≡◌, ◌≤◌};
ghost use Rattle.entries.specs.Sheet.{sheet};
ghost use Rattle.pages.specs.Register.{page_at, room};
ghost use Rattle.pages.specs.Opening.{fits, owner_in, area_in, checked, opened_page, opened_words, opening as opened, register_opened, words_opened};

use crate::bytes::four_at;
use crate::refusal::{Lent, Refusal};
use crate::register::{pages_room, write_page};
use entries::page::Page;

pub const MOST_PARCELS: u16 = 1024;

pub const MOST_AREA: u32 = 1_000_000_000;

#[derive(Clone, Copy)]
pub struct Opening<'a> {
    pub parcels: u16,
    // for each parcel its owner in four bytes and its area in four
    pub pages: &'a [u8],
}

impl<'a> Opening<'a> {
    fn owner_and_area(self, parcel: u16) -> (u32, u32)
        ensures { result ≡ (owner_in self.entry.pages.now parcel, area_in self.entry.pages.now parcel) }
    {
        let start = 8 * u32::from(parcel);
        (four_at(self.pages, start), four_at(self.pages, start + 4))
    }

    fn area_fits(self, parcel: u16) -> bool
        ensures { result ≡ fits (area_in self.entry.pages.now parcel) }
    {
        let (_, area) = self.owner_and_area(parcel);
        (1..=MOST_AREA).contains(&area)
    }

    // The checks of an opening, in the order of their numbers: 1, 2, 3.
    pub fn check(self) -> Result<(), Refusal>
        ensures { result ≡ checked self.entry.parcels self.entry.pages.now }
    {
        if !(1..=MOST_PARCELS).contains(&self.parcels) {
            return Err(Refusal::Parcels);
        }
        if self.pages.len() != 8 * usize::from(self.parcels) {
            return Err(Refusal::Pages(self.pages.len()));
        }
        let unfit = (0..self.parcels).find(|&parcel| !self.area_fits(parcel));
        unfit.map_or(Ok(()), |parcel| Err(Refusal::Area(parcel)))
    }

    // The page that a number is given: past the parcels there is no land yet.
    fn page(self, parcel: usize) -> Page
        ensures { sheet result ≡ opened_page self.entry.parcels self.entry.pages.now parcel }
    {
        if parcel >= usize::from(self.parcels) {
            return Page::vacant(false, 0, 0);
        }
        let (owner, area) = self.owner_and_area(parcel as u16);
        Page::vacant(true, owner, u64::from(area))
    }
}

// Lent words may hold anything, so every page that there is room for is written, each under its number.
fn write_opening(words: &mut [u64], opening: Opening)
    requires { opening.parcels ≤ room words.old }
    ensures words { words.new ≡ opened_words opening.entry.parcels opening.entry.pages.now words.old (room words.old) }
    ensures register { page_at words.new ≡ opened_page opening.entry.parcels opening.entry.pages.now }
{
    for parcel in 0..pages_room(words) {
        write_page(words, parcel, opening.page(parcel));
    }
}

// Opens the register in lent words, or refuses and leaves them as they are.
pub fn open_pages(words: &mut [u64], opening: Opening) -> Result<(), Refusal>
    ensures answer { result ≡ opened opening.entry.parcels opening.entry.pages.now words.old }
    ensures words { words.new ≡ words_opened result opening.entry.parcels opening.entry.pages.now words.old }
    ensures register { page_at words.new ≡ register_opened result opening.entry.parcels opening.entry.pages.now (page_at words.old) }
{
    if pages_room(words) < usize::from(opening.parcels) {
        return Err(Refusal::Short(Lent::Pages));
    }
    opening.check()?;
    write_opening(words, opening);
    Ok(())
}
