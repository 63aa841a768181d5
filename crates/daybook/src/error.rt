// Why a file is not worked: its opening is refused by a number of the register, or it has not the shape of a file.
ghost use Rattle.std.specs.Prelude.{◌≡◌, Some};
ghost use Rattle.daybook.specs.Error.{missing_text, malformed_text, file_error_text};
ghost use Rattle.daybook.specs.declared.error.FileError.TheVariants.{Refused, Malformed as misshapen};

use pages::refusal::Refusal;
use std::error::Error;
use std::fmt;

// What a malformed file lacks.
#[derive(Clone, Copy, PartialEq, Eq, Debug)]
pub enum Missing {
    // the two bytes that say how many parcels there are
    Parcels,
    // the byte 0 after the filings
    End,
    // the rest of a filing that is cut off
    Filing,
    // the second byte of the last number of the order
    Number,
    // the parcel of which an extract is wanted
    Parcel,
}

#[derive(Clone, Copy, PartialEq, Eq, Debug)]
pub struct Malformed {
    pub lacks: Missing,
    pub at: usize,
}

#[derive(Clone, Copy, PartialEq, Eq, Debug)]
pub enum FileError {
    Refused(Refusal),
    Malformed(Malformed),
}

impl From<Refusal> for FileError {
    ghost from_gives = { λ x y. y ≡ Refused x };

    fn from(refusal: Refusal) -> FileError {
        FileError::Refused(refusal)
    }
}

impl From<Malformed> for FileError {
    ghost from_gives = { λ x y. y ≡ misshapen x };

    fn from(malformed: Malformed) -> FileError {
        FileError::Malformed(malformed)
    }
}

impl Missing {
    pub fn text(self) -> &'static str
        ensures { result.now ≡ missing_text self }
    {
        match self {
            Missing::Parcels => "the number of parcels is cut off",
            Missing::End => "no byte 0 after the filings",
            Missing::Filing => "a filing is cut off",
            Missing::Number => "half a number in the order of work",
            Missing::Parcel => "no parcel behind the order of work",
        }
    }
}

impl fmt::Display for Missing {
    ghost output = { λ m. Some (missing_text m) };

    fn fmt<W: fmt::Write>(&self, f: &mut fmt::Formatter<W>) -> fmt::Result {
        f.write_str(self.text())
    }
}

impl fmt::Display for Malformed {
    ghost output = { λ m. Some (malformed_text m) };

    fn fmt<W: fmt::Write>(&self, f: &mut fmt::Formatter<W>) -> fmt::Result {
        let Malformed { lacks, at } = self;
        write!(f, "{lacks} at byte {at}")
    }
}

impl fmt::Display for FileError {
    ghost output = { λ e. Some (file_error_text e) };

    fn fmt<W: fmt::Write>(&self, f: &mut fmt::Formatter<W>) -> fmt::Result {
        match self {
            FileError::Refused(refusal) => write!(f, "opening refused {refusal}"),
            FileError::Malformed(malformed) => write!(f, "malformed file: {malformed}"),
        }
    }
}

impl Error for Missing {}

impl Error for Malformed {}

impl Error for FileError {}
