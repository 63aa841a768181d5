// The memory that a registry is lent: pages, filings and marks, read and written together.
ghost use Rattle.std.specs.Prelude.{◌≡◌, ℕ, ◌+◌, ◌*◌, ◌<◌, ◌≤◌, true, length, is_some, Ok, OnOk, slice_index, slice_set};
ghost use Rattle.std.specs.List.{slice_get};
ghost use Rattle.orders.specs.Desk.{is_open};
ghost use Rattle.pages.specs.Register.{page_at, room};
ghost use Rattle.filings.specs.Touches.{first_made};
ghost use Rattle.entering.specs.Entering.{act, entered, outcome, words_after};
ghost use Rattle.filings.specs.Keeping.{kept_at, kept_in, put_kept, put_slot, slot_of, slots_in};
ghost use Rattle.pages.specs.Opening.{checked, opening as opened, register_opened, words_opened};
ghost use Rattle.work.specs.Listed.{filed_in, marks_in};
ghost use Rattle.work.specs.Marks.{mark_byte, mark_of};

use crate::mark::mark_byte;
use entering::enter::enter;
use entering::outcome::Outcome;
use filings::filed::Filed;
use filings::slots::put_slot;
use pages::opening::{Opening, open_pages};
use pages::refusal::Refusal;

#[derive(Drop)]
pub struct Memory<'a> {
    pub pages: &'a mut [u64],
    pub filings: &'a mut [u8],
    pub marks: &'a mut [u8],
}

impl Memory<'_> {
    // Enters a filing and marks what came of it.
    #[tactic(auto, using(crate::proofs::Working::enough))]
    pub(crate) fn enter(&mut self, filed: Filed) -> Result<Outcome, Refusal>
        requires { (filed.number < length self.old.marks.now) × (first_made filed.parcels filed.number + 2 ≤ room self.old.pages.now) }
        ensures answer { result ≡ Ok (outcome filed.parcels filed.number filed.filing (page_at self.old.pages.now)) }
        ensures pages { self.new.pages.now ≡ words_after (act (first_made filed.parcels filed.number) filed.number filed.filing (page_at self.old.pages.now)) self.old.pages.now }
        ensures register { page_at self.new.pages.now ≡ entered filed.parcels filed.number filed.filing (page_at self.old.pages.now) }
        ensures filings { self.new.filings.now ≡ self.old.filings.now }
        ensures marks { self.new.marks.now ≡ slice_set self.old.marks.now filed.number (mark_byte (outcome filed.parcels filed.number filed.filing (page_at self.old.pages.now))) }
        ensures room { room self.new.pages.now ≡ room self.old.pages.now }
    {
        let outcome = enter(self.pages, filed)?;
        self.marks[usize::from(filed.number)] = mark_byte(outcome);
        Ok(outcome)
    }

    // Writes every page that there is room for, or refuses and writes nothing.
    pub(crate) fn open(&mut self, opening: Opening) -> Result<(), Refusal>
        ensures answer { result ≡ opened opening.entry.parcels opening.entry.pages.now self.old.pages.now }
        ensures pages { self.new.pages.now ≡ words_opened result opening.entry.parcels opening.entry.pages.now self.old.pages.now }
        ensures register { page_at self.new.pages.now ≡ register_opened result opening.entry.parcels opening.entry.pages.now (page_at self.old.pages.now) }
        ensures filings { self.new.filings.now ≡ self.old.filings.now }
        ensures marks { self.new.marks.now ≡ self.old.marks.now }
        ensures room { OnOk result (opening.entry.parcels ≤ room self.new.pages.now) }
        ensures checked { OnOk result (checked opening.entry.parcels opening.entry.pages.now ≡ Ok tt) }
        ensures same_room { room self.new.pages.now ≡ room self.old.pages.now }
    {
        open_pages(self.pages, opening)
    }

    // Keeps the bytes of a filing under its number, open.
    pub(crate) fn keep(&mut self, number: u16, bytes: &[u8])
        requires { number < length self.old.marks.now }
        ensures pages { self.new.pages.now ≡ self.old.pages.now }
        ensures filings { self.new.filings.now ≡ put_slot self.old.filings.now number (slot_of bytes.now) }
        ensures kept { kept_at self.new.filings.now ≡ put_kept (slots_in self.old.filings.now) number (kept_in (slot_of bytes.now)) (kept_at self.old.filings.now) }
        ensures marks { self.new.marks.now ≡ slice_set self.old.marks.now number 0 }
    {
        put_slot(self.filings, usize::from(number), bytes);
        self.marks[usize::from(number)] = 0;
    }
}
