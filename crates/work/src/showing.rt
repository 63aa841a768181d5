// What a registry shows: its filings, which of them are open, and its pages.
ghost use Rattle.std.specs.Prelude.{◌≡◌, ◌<◌, OnSome};
ghost use Rattle.std.specs.List.{slice_get};
ghost use Rattle.std.specs.Option.{option_map};
ghost use Rattle.orders.specs.Desk.{open_at};
ghost use Rattle.entries.specs.Sheet.{sheet};
ghost use Rattle.work.specs.State.{numbered, state_of};

use crate::mark::mark_of;
use crate::registry::Registry;
use entries::page::Page;
use filings::filed::Filed;
use filings::filing::Filing;
use filings::slots::filing_at;
use pages::register::read_page;

impl Registry<'_> {
    // The filing that came in under a number.
    #[tactic(auto, using(crate::proofs::Listing::filed_nth, crate::proofs::Listing::filed_past))]
    pub fn filing(&self, number: u16) -> Option<Filing>
        ensures { result ≡ slice_get (state_of self.now).desk.filed number }
    {
        if number >= self.filed {
            return None;
        }
        filing_at(self.memory.filings, usize::from(number))
    }

    // The same, with its number and the parcels of the opening.
    #[tactic(auto, using(crate::proofs::Listing::filed_below))]
    pub fn filed_under(&self, number: u16) -> Option<Filed>
        ensures value { result ≡ option_map (numbered self.now.parcels number) (slice_get (state_of self.now).desk.filed number) }
        ensures below { OnSome result (number < self.now.filed) }
    {
        let filing = self.filing(number)?;
        Some(Filed {
            parcels: self.parcels,
            number,
            filing,
        })
    }

    // Whether a filing came in under a number and is neither entered nor rejected.
    #[tactic(auto, using(crate::proofs::Listing::open_there, crate::proofs::Listing::open_past))]
    pub fn is_open(&self, number: u16) -> bool
        ensures { result ≡ open_at (state_of self.now).desk number }
    {
        number < self.filed && mark_of(self.memory.marks[usize::from(number)]).is_none()
    }

    // The page of a parcel as it stands.
    pub fn page(&self, parcel: u16) -> Page
        ensures { sheet result ≡ (state_of self.now).desk.register parcel }
    {
        read_page(self.memory.pages, usize::from(parcel))
    }
}
