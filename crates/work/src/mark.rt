// The mark of a filing, in a byte: 0 while it is open, 1 once it is entered, and one more than its reason once it is rejected.
// Functions, and no `From`: neither a byte nor an outcome is a type of this crate.
ghost use Rattle.std.specs.Prelude.{◌≡◌};
ghost use Rattle.work.specs.Marks.{mark_byte, mark_of};

use entering::outcome::{Outcome, Rejection};

pub(crate) fn mark_byte(outcome: Outcome) -> u8
    ensures { result ≡ mark_byte outcome }
{
    match outcome {
        Outcome::Entered => 1,
        Outcome::Rejected(rejection) => 1 + rejection.number(),
    }
}

// What came of a filing, and none while it is open.
pub(crate) fn mark_of(byte: u8) -> Option<Outcome>
    ensures { result ≡ mark_of byte }
{
    match byte {
        0 => None,
        1 => Some(Outcome::Entered),
        _ => {
            let reason = Rejection::try_from(byte - 1);
            Some(Outcome::Rejected(reason.unwrap_or(Rejection::Full)))
        }
    }
}
