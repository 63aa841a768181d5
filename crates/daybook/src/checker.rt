// A checker of somebody else's order of work.
ghost use Rattle.std.specs.Prelude.{Some};
ghost use Rattle.work.specs.State.{image_of};
ghost use Rattle.daybook.specs.Checker.{Checks, misplaced_text};

use pages::refusal::Refusal;
use std::error::Error;
use std::fmt;
use work::registry::Registry;

// Where a list is not allowed: at its number of this place, counted from 0, for this reason.
#[derive(Clone, Copy, PartialEq, Eq, Debug)]
pub struct Misplaced {
    pub place: usize,
    pub refusal: Refusal,
}

impl fmt::Display for Misplaced {
    ghost output = { λ m. Some (misplaced_text m) };

    fn fmt<W: fmt::Write>(&self, f: &mut fmt::Formatter<W>) -> fmt::Result {
        let Misplaced { place, refusal } = self;
        write!(f, "number {place} of the order: refused {refusal}")
    }
}

impl Error for Misplaced {}

// Whether each number of a list may be worked in turn; what comes before the first that may not is worked.
pub fn check_order(registry: &mut Registry, order: &[u16]) -> Result<(), Misplaced>
    ensures { Checks result order.now (image_of registry.old) (image_of registry.new) }
{
    for (place, &number) in order.iter().enumerate() {
        registry
            .work(number)
            .map_err(|refusal| Misplaced { place, refusal })?;
    }
    Ok(())
}
