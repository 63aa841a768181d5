// What becomes of a parcel, and so of its page as a whole; its entries stay as they are.
ghost use Rattle.entries.specs.Rank.{closed_sheet, made_sheet, owned_sheet, vacant_sheet};
ghost use Rattle.entries.specs.Sheet.{sheet};
ghost use Rattle.std.specs.Prelude.{◌≡◌};

use crate::entry::BLANK;
use crate::page::{MOST_ENTRIES, Page};

impl Page {
    pub fn vacant(live: bool, owner: u32, area: u64) -> Page
        ensures { sheet result ≡ vacant_sheet live owner area }
    {
        Page {
            live,
            owner,
            area,
            count: 0,
            entries: [BLANK; MOST_ENTRIES],
        }
    }

    pub fn with_owner(mut self, owner: u32) -> Page
        ensures { sheet result ≡ owned_sheet (sheet self) owner }
    {
        self.owner = owner;
        self
    }

    pub fn closed(mut self) -> Page
        ensures { sheet result ≡ closed_sheet (sheet self) }
    {
        self.live = false;
        self
    }

    // The page of a parcel that is made of this one's land: the entries go along in their rank.
    pub fn made_of(mut self, owner: u32, area: u64) -> Page
        ensures { sheet result ≡ made_sheet (sheet self) owner area }
    {
        self.live = true;
        self.area = area;
        self.with_owner(owner)
    }
}
