// What an act on one entry makes of a page: by value, and the page is handed back.
ghost use Rattle.entries.specs.Rank.{appended_sheet, filled_sheet, postponed_sheet, released_sheet};
ghost use Rattle.entries.specs.Sheet.{sheet};
ghost use Rattle.std.specs.Option.{option_map};
ghost use Rattle.std.specs.Prelude.{◌≡◌};

use crate::entry::{Entry, EntryName};
use crate::page::{MOST_ENTRIES, Page};

impl Page {
    // A new entry ranks behind all that stand; none where 32 stand.
    pub fn append(mut self, entry: Entry) -> Option<Page>
        ensures { option_map sheet result ≡ appended_sheet (sheet self) entry }
    {
        if self.count == MOST_ENTRIES {
            return None;
        }
        self.entries[self.count] = entry;
        self.count += 1;
        Some(self)
    }

    // A charge takes the rank that was kept for it; none where this holder has no such reservation.
    #[tactic(auto, using(crate::proofs::Steps::acts_at))]
    pub fn fill(mut self, name: EntryName, amount: u64) -> Option<Page>
        ensures { option_map sheet result ≡ filled_sheet (sheet self) name.number name.holder amount }
    {
        let place = self.find_reserved(name)?;
        self.entries[place] = Entry::charge(name, amount);
        Some(self)
    }

    // The later entries move up.
    #[tactic(auto, using(crate::proofs::Steps::acts_at))]
    pub fn release(mut self, name: EntryName) -> Option<Page>
        ensures { option_map sheet result ≡ released_sheet (sheet self) name.number name.holder }
    {
        let place = self.find(name)?;
        let count = self.count;
        self.entries[place..count].rotate_left(1);
        self.count = count - 1;
        Some(self)
    }

    // The entry changes places with the one after it; the last stays where it is.
    #[tactic(auto, using(crate::proofs::Steps::acts_at))]
    pub fn postpone(mut self, name: EntryName) -> Option<Page>
        ensures { option_map sheet result ≡ postponed_sheet (sheet self) name.number name.holder }
    {
        let place = self.find(name)?;
        if place + 1 == self.count {
            return Some(self);
        }
        self.entries.swap(place, place + 1);
        Some(self)
    }
}
