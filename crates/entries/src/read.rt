// What a page says. The first of several entries of one number and holder is the one that is meant.
ghost use Rattle.entries.specs.Order.{alike};
ghost use Rattle.entries.specs.Rank.{is, is_reserved};
ghost use Rattle.entries.specs.Sheet.{sheet};
ghost use Rattle.std.specs.List.{slice_get};
ghost use Rattle.std.specs.Prelude.{◌≡◌, ◌<◌, length, position, IfSome};

use crate::entry::{Entry, EntryName};
use crate::page::Page;

impl Page {
    pub fn live(&self) -> bool
        ensures { result ≡ (sheet self.now).live }
    {
        self.live
    }

    pub fn owner(&self) -> u32
        ensures { result ≡ (sheet self.now).owner }
    {
        self.owner
    }

    pub fn area(&self) -> u64
        ensures { result ≡ (sheet self.now).area }
    {
        self.area
    }

    // The entries that stand, best rank first.
    pub fn standing(&self) -> &[Entry]
        ensures { result.now ≡ (sheet self.now).entries }
    {
        &self.entries[..self.count]
    }

    pub fn count(&self) -> usize
        ensures { result ≡ length (sheet self.now).entries }
    {
        self.standing().len()
    }

    pub fn entry(&self, i: usize) -> Option<Entry>
        ensures { result ≡ slice_get (sheet self.now).entries i }
    {
        self.standing().get(i).copied()
    }

    // The place of the first entry of this number and holder, from 0 on.
    pub fn find(&self, name: EntryName) -> Option<usize>
        ensures value { result ≡ position (is name.number name.holder) (sheet self.now).entries }
        ensures within { IfSome result (λ k. k < self.now.count) }
    {
        self.standing().iter().position(|entry| entry.is(name))
    }

    // The same, among the reservations.
    pub(crate) fn find_reserved(&self, name: EntryName) -> Option<usize>
        ensures value { result ≡ position (is_reserved name.number name.holder) (sheet self.now).entries }
        ensures within { IfSome result (λ k. k < self.now.count) }
    {
        self.standing()
            .iter()
            .position(|entry| entry.is_reserved(name))
    }

    // Whether number, holder, kind, amount and rank of every entry are the same.
    #[tactic(auto, using(crate::proofs::Alike::pointwise_alike))]
    pub fn same_entries(&self, other: &Page) -> bool
        ensures { result ≡ alike (sheet self.now).entries (sheet other.now).entries }
    {
        self.standing() == other.standing()
    }
}
