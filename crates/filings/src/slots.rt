// Filings in lent bytes: a slot to each, with its bytes as they came in, then zeroes.
ghost use Rattle.std.specs.Prelude.{◌≡◌, None, MatchOption};
ghost use Rattle.filings.specs.Keeping.{kept_at, kept_in, put_kept, put_slot, slot_of, slots_in};

use crate::filing::Filing;
use crate::read::kind_of;

pub const SLOT_BYTES: usize = 24;

pub fn slots_room(slots: &[u8]) -> usize
    ensures { result ≡ slots_in slots.now }
{
    slots.len() / SLOT_BYTES
}

// Whatever the slot holds: what is no filing is none.
#[tactic(auto, unfolding(crate::specs::Keeping::kept_in))]
fn filing_kept(slot: &[u8; SLOT_BYTES]) -> Option<Filing>
    ensures { result ≡ kept_in slot.now }
{
    let kind = kind_of(slot)?;
    Filing::read(&slot[..kind.length()]).ok()
}

#[tactic(auto, using(crate::proofs::Keeping::found_at))]
fn slot_at(slots: &[u8], number: usize) -> Option<&[u8; SLOT_BYTES]>
    ensures { MatchOption result (kept_at slots.now number ≡ None) (λ slot. kept_at slots.now number ≡ kept_in slot.now) }
{
    slots.as_chunks::<SLOT_BYTES>().0.get(number)
}

// The filing under a number, and none past the end of the memory.
pub fn filing_at(slots: &[u8], number: usize) -> Option<Filing>
    ensures { result ≡ kept_at slots.now number }
{
    slot_at(slots, number).and_then(filing_kept)
}

#[tactic(auto, using(crate::proofs::Keeping::padded_is))]
fn padded(bytes: &[u8]) -> [u8; SLOT_BYTES]
    ensures { result ≡ slot_of bytes.now }
{
    let mut slot = [0; SLOT_BYTES];
    let long = bytes.len().min(SLOT_BYTES);
    slot[..long].copy_from_slice(&bytes[..long]);
    slot
}

#[tactic(auto, using(crate::proofs::Keeping::put_there, crate::proofs::Keeping::put_past, crate::proofs::Keeping::kept_all))]
fn write_slot(slots: &mut [u8], number: usize, slot: &[u8; SLOT_BYTES])
    ensures memory { slots.new ≡ put_slot slots.old number slot.now }
    ensures kept { kept_at slots.new ≡ put_kept (slots_in slots.old) number (kept_in slot.now) (kept_at slots.old) }
{
    if number < slots_room(slots) {
        let start = SLOT_BYTES * number;
        slots[start..start + SLOT_BYTES].copy_from_slice(slot);
    }
}

// Just that slot is written, and a filing is then kept there; past the end nothing is written.
pub fn put_slot(slots: &mut [u8], number: usize, bytes: &[u8])
    ensures memory { slots.new ≡ put_slot slots.old number (slot_of bytes.now) }
    ensures kept { kept_at slots.new ≡ put_kept (slots_in slots.old) number (kept_in (slot_of bytes.now)) (kept_at slots.old) }
{
    write_slot(slots, number, &padded(bytes));
}
