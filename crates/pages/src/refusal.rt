// Why a request is turned away. What is turned away has changed nothing.
ghost use Rattle.std.specs.Prelude.{◌≡◌, Some};
ghost use Rattle.pages.specs.Refusal.{number_of, place_of, refusal_text};

use std::error::Error;
use std::fmt;

// The three parts of lent memory, by their numbers.
#[derive(Clone, Copy, PartialEq, Eq, Debug)]
pub enum Lent {
    Pages = 0,
    Filings = 1,
    Marks = 2,
}

// The numbered reasons, in the order of their numbers.
#[derive(Clone, Copy, PartialEq, Eq, Debug)]
pub enum Refusal {
    // an opening with no parcel, or with more than 1,024
    Parcels,
    // an opening of so many bytes of pages, which are not those of as many pages as parcels
    Pages(usize),
    // an opening in which this parcel has no area, or more than 1,000,000,000
    Area(u16),
    // a filing of no kind
    Kind,
    // a filing of this length, which is not that of its kind
    Length(usize),
    // a filing with an amount or an area, at this byte, that is too large
    Amount(usize),
    // a filing when as many have come in as there may be
    Full,
    // work on a filing that is not there
    NotThere,
    // work on a filing that is done
    Done,
    // work on a filing while this earlier one is open and touches a page of it
    Waits(u16),
    // an extract of a number that no parcel can have
    NoParcel,
    // this part of the lent memory is too short
    Short(Lent),
}

impl Refusal {
    // Some cases carry a value, so the number is no discriminant.
    pub fn number(self) -> u8
        ensures { result ≡ number_of self }
    {
        match self {
            Refusal::Parcels => 1,
            Refusal::Pages(_) => 2,
            Refusal::Area(_) => 3,
            Refusal::Kind => 4,
            Refusal::Length(_) => 5,
            Refusal::Amount(_) => 6,
            Refusal::Full => 7,
            Refusal::NotThere => 8,
            Refusal::Done => 9,
            Refusal::Waits(_) => 10,
            Refusal::NoParcel => 11,
            Refusal::Short(_) => 12,
        }
    }

    pub fn place(self) -> usize
        ensures { result ≡ place_of self }
    {
        match self {
            Refusal::Pages(bytes) => bytes,
            Refusal::Area(parcel) => usize::from(parcel),
            Refusal::Length(length) => length,
            Refusal::Amount(byte) => byte,
            Refusal::Waits(filing) => usize::from(filing),
            Refusal::Short(part) => part as usize,
            Refusal::Parcels | Refusal::Kind | Refusal::Full => 0,
            Refusal::NotThere | Refusal::Done | Refusal::NoParcel => 0,
        }
    }
}

impl fmt::Display for Refusal {
    ghost output = { λ r. Some (refusal_text r) };

    fn fmt<W: fmt::Write>(&self, f: &mut fmt::Formatter<W>) -> fmt::Result {
        let number = self.number();
        let place = self.place();
        write!(f, "{number} at {place}")
    }
}

impl Error for Refusal {}
