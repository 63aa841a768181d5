// What comes of a filing that was taken: it is entered, or rejected with the first reason that holds, and then changes nothing.
ghost use Rattle.std.specs.Prelude.{◌≡◌, ok_or};
ghost use Rattle.entering.specs.Outcome.{reason_numbered, reason_of, verdict};

use pages::unknown::UnknownNumber;

#[derive(Clone, Copy, PartialEq, Eq, Debug)]
pub enum Rejection {
    // a parcel that it names is not there or not live
    NotLive = 1,
    // a parcel's owner is not the one who signs as owner
    NotOwner = 2,
    // there is no entry of that number and holder; for a filling, none that is a reservation
    NoEntry = 3,
    // a subdivision of nothing, or of no less than all
    Area = 4,
    // a merger of a parcel with itself
    Itself = 5,
    // a merger of parcels whose entries are not the same
    Unlike = 6,
    // a 33rd entry
    Full = 7,
}

// No `Result`: a rejection is what came of a filing, and is kept and told like an entry.
#[derive(Clone, Copy, PartialEq, Eq, Debug)]
pub enum Outcome {
    Entered,
    Rejected(Rejection),
}

impl Rejection {
    pub fn number(self) -> u8
        ensures { result ≡ reason_of self }
    {
        self as u8
    }
}

impl TryFrom<u8> for Rejection {
    type Error = UnknownNumber;

    ghost try_from_gives = { λ n r. r ≡ ok_or (reason_numbered n) (record { 0 = n }) };

    fn try_from(number: u8) -> Result<Rejection, UnknownNumber> {
        match number {
            1 => Ok(Rejection::NotLive),
            2 => Ok(Rejection::NotOwner),
            3 => Ok(Rejection::NoEntry),
            4 => Ok(Rejection::Area),
            5 => Ok(Rejection::Itself),
            6 => Ok(Rejection::Unlike),
            7 => Ok(Rejection::Full),
            _ => Err(UnknownNumber(number)),
        }
    }
}

impl From<Result<(), Rejection>> for Outcome {
    ghost from_gives = { λ entered outcome. outcome ≡ verdict entered };

    fn from(entered: Result<(), Rejection>) -> Outcome {
        match entered {
            Ok(()) => Outcome::Entered,
            Err(rejection) => Outcome::Rejected(rejection),
        }
    }
}
