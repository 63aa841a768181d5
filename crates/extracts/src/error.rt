// Why there is no extract: its number is refused, or there is no memory for it.
ghost use Rattle.std.specs.Prelude.{◌≡◌, Some};
ghost use Rattle.extracts.specs.Error.{error_text};
ghost use Rattle.extracts.specs.declared.error.ExtractError.TheVariants.{NoMemory, Refused};

use pages::refusal::Refusal;
use std::alloc::{AllocError, AllocFailed};
use std::error::Error;
use std::fmt;

#[derive(Clone, Copy, PartialEq, Eq, Debug)]
pub enum ExtractError {
    Refused(Refusal),
    NoMemory,
}

impl From<Refusal> for ExtractError {
    ghost from_gives = { λ refusal r. r ≡ Refused refusal };

    fn from(refusal: Refusal) -> ExtractError {
        ExtractError::Refused(refusal)
    }
}

impl<T: Drop> From<AllocFailed<T>> for ExtractError {
    ghost from_gives = { λ _ r. r ≡ NoMemory };

    fn from(_back: AllocFailed<T>) -> ExtractError {
        Self::NoMemory
    }
}

impl From<AllocError> for ExtractError {
    ghost from_gives = { λ _ r. r ≡ NoMemory };

    fn from(_error: AllocError) -> ExtractError {
        ExtractError::NoMemory
    }
}

impl fmt::Display for ExtractError {
    ghost output = { λ e. Some (error_text e) };

    fn fmt<W: fmt::Write>(&self, f: &mut fmt::Formatter<W>) -> fmt::Result {
        match self {
            ExtractError::Refused(refusal) => write!(f, "refused {refusal}"),
            ExtractError::NoMemory => write!(f, "no memory for the extract"),
        }
    }
}

impl Error for ExtractError {}
