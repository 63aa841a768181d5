// A filing comes in: memory first, then its bytes, then how many there are; what is refused leaves all as it was.
ghost use Rattle.std.specs.Prelude.{◌≡◌, IfOk};
ghost use Rattle.filings.specs.Keeping.{Admitted, admitted, kept_after, kept_at, memory_after, taking};
ghost use Rattle.filings.specs.Reading.{reading};

use crate::filing::Filing;
use crate::slots::{put_slot, slots_room};
use pages::refusal::{Lent, Refusal};

pub const MOST_FILINGS: u16 = 16_384;

// The filing in these bytes, where so many came in before it; its slot will keep just that.
pub fn admit(count: u16, bytes: &[u8]) -> Result<Filing, Refusal>
    ensures answer { result ≡ admitted count (reading bytes.now) }
    ensures slot { IfOk result (Admitted count bytes.now) }
{
    let filing = Filing::read(bytes)?;
    if count >= MOST_FILINGS {
        return Err(Refusal::Full);
    }
    Ok(filing)
}

// The filing is kept under the number `count`, or nothing is changed. Room is wanted only where there may be such a filing.
pub fn take_in(slots: &mut [u8], count: u16, bytes: &[u8]) -> Result<Filing, Refusal>
    ensures answer { result ≡ taking slots.old count bytes.now }
    ensures memory { slots.new ≡ memory_after result slots.old count bytes.now }
    ensures kept { kept_at slots.new ≡ kept_after result count (kept_at slots.old) }
{
    if count < MOST_FILINGS && usize::from(count) >= slots_room(slots) {
        return Err(Refusal::Short(Lent::Filings));
    }
    let filing = admit(count, bytes)?;
    put_slot(slots, usize::from(count), bytes);
    Ok(filing)
}
