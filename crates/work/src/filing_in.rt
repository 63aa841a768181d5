// Whether the next filing may come in: memory first, then its bytes, then how many there are.
ghost use Rattle.std.specs.Prelude.{◌≡◌, IfOk, IfErr, Err};
ghost use Rattle.work.specs.Calls.{lacks_room, taking_in, wants_room, Admits};
ghost use Rattle.work.specs.Promises.{Files};
ghost use Rattle.work.specs.State.{image_of};

use crate::registry::Registry;
use filings::filing::Filing;
use filings::slots::slots_room;
use filings::taking::{MOST_FILINGS, admit};
use pages::refusal::{Lent, Refusal};
use pages::register::pages_room;

impl Registry<'_> {
    // Room for the pages that the next filing may make, for its slot and for its mark.
    fn check_room(&self) -> Result<(), Refusal>
        ensures { result ≡ lacks_room (image_of self.now) }
    {
        let number = usize::from(self.filed);
        if pages_room(self.memory.pages) < usize::from(self.parcels) + 2 * number + 2 {
            return Err(Refusal::Short(Lent::Pages));
        }
        if slots_room(self.memory.filings) <= number {
            return Err(Refusal::Short(Lent::Filings));
        }
        if self.memory.marks.len() <= number {
            return Err(Refusal::Short(Lent::Marks));
        }
        Ok(())
    }

    // A filing too many is not refused for want of room.
    fn room_for_next(&self) -> Result<(), Refusal>
        ensures { result ≡ wants_room (image_of self.now) }
    {
        if self.filed >= MOST_FILINGS {
            return Ok(());
        }
        self.check_room()
    }

    #[tactic(auto, using(crate::proofs::Admits::admits, crate::proofs::Admits::taken_in, crate::proofs::Promises::not_filed))]
    pub(crate) fn admit_next(&self, bytes: &[u8]) -> Result<Filing, Refusal>
        ensures answer { result ≡ taking_in (image_of self.now) bytes.now }
        ensures admits { IfOk result (Admits (image_of self.now) bytes.now) }
        ensures refuses { IfErr result (λ e. Files (Err e) bytes.now (image_of self.now) (image_of self.now)) }
    {
        self.room_for_next()?;
        admit(self.filed, bytes)
    }
}
