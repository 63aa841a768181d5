// The kinds of filings: the number of each, and how many bytes it has.
ghost use Rattle.std.specs.Prelude.{◌≡◌, ok_or};
ghost use Rattle.filings.specs.Kind.{kind_numbered, length_of};

use pages::unknown::UnknownNumber;

#[derive(Clone, Copy, PartialEq, Eq, Debug)]
pub enum Kind {
    Transfer = 1,
    Charge = 2,
    Reserve = 3,
    Fill = 4,
    Release = 5,
    Postpone = 6,
    Subdivide = 7,
    Merge = 8,
}

impl TryFrom<u8> for Kind {
    type Error = UnknownNumber;

    ghost try_from_gives = { λ n r. r ≡ ok_or (kind_numbered n) (record { 0 = n }) };

    fn try_from(number: u8) -> Result<Kind, UnknownNumber> {
        match number {
            1 => Ok(Kind::Transfer),
            2 => Ok(Kind::Charge),
            3 => Ok(Kind::Reserve),
            4 => Ok(Kind::Fill),
            5 => Ok(Kind::Release),
            6 => Ok(Kind::Postpone),
            7 => Ok(Kind::Subdivide),
            8 => Ok(Kind::Merge),
            _ => Err(UnknownNumber(number)),
        }
    }
}

impl Kind {
    pub fn length(self) -> usize
        ensures { result ≡ length_of self }
    {
        match self {
            Kind::Transfer | Kind::Reserve | Kind::Subdivide => 11,
            Kind::Charge => 19,
            Kind::Fill => 21,
            Kind::Release | Kind::Postpone | Kind::Merge => 9,
        }
    }
}
