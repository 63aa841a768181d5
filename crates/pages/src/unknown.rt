// A number that nothing has, where a number of a kind or of a reason was wanted.
ghost use Rattle.std.specs.Prelude.{Some};
ghost use Rattle.pages.specs.Unknown.{unknown_text};

use std::error::Error;
use std::fmt;

#[derive(Clone, Copy, PartialEq, Eq, Debug)]
pub struct UnknownNumber(pub u8);

impl fmt::Display for UnknownNumber {
    ghost output = { λ e. Some (unknown_text e) };

    fn fmt<W: fmt::Write>(&self, f: &mut fmt::Formatter<W>) -> fmt::Result {
        write!(f, "nothing has the number {}", self.0)
    }
}

impl Error for UnknownNumber {}
