// An entry on a parcel's page: the number of the filing that made it, who holds it, and what it claims.
ghost use Rattle.std.specs.Prelude.{◌≡◌};
ghost use Rattle.entries.specs.Rank.{charge, is, is_reserved, reservation};

#[derive(Clone, Copy, PartialEq, Eq, Debug)]
pub enum Claim {
    // so many cents
    Charge(u64),
    // a rank that is kept for a later charge
    Reserved,
}

// What an entry goes by: its number and its holder, never one alone.
#[derive(Clone, Copy, PartialEq, Eq, Debug)]
pub struct EntryName {
    pub number: u16,
    pub holder: u32,
}

#[derive(Clone, Copy, PartialEq, Eq, Debug)]
pub struct Entry {
    pub number: u16,
    pub holder: u32,
    pub claim: Claim,
}

// What the places of a page behind its entries are made of; nothing reads it.
pub const BLANK: Entry = Entry {
    number: 0,
    holder: 0,
    claim: Claim::Reserved,
};

impl Entry {
    pub fn charge(name: EntryName, amount: u64) -> Entry
        ensures { result ≡ charge name.number name.holder amount }
    {
        let EntryName { number, holder } = name;
        let claim = Claim::Charge(amount);
        Entry {
            number,
            holder,
            claim,
        }
    }

    pub fn reservation(name: EntryName) -> Entry
        ensures { result ≡ reservation name.number name.holder }
    {
        let EntryName { number, holder } = name;
        let claim = Claim::Reserved;
        Entry {
            number,
            holder,
            claim,
        }
    }

    pub(crate) fn is(self, name: EntryName) -> bool
        ensures { result ≡ is name.number name.holder self }
    {
        self.number == name.number && self.holder == name.holder
    }

    pub(crate) fn is_reserved(self, name: EntryName) -> bool
        ensures { result ≡ is_reserved name.number name.holder self }
    {
        self.is(name) && self.claim == Claim::Reserved
    }
}
