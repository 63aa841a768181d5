// The line that tells what came of a number of the order.
ghost use Rattle.std.specs.Prelude.{Some};
ghost use Rattle.programs.specs.Line.{line_text};

use entering::outcome::Outcome;
use pages::refusal::Refusal;
use std::fmt;

#[derive(Clone, Copy)]
pub(crate) struct Line {
    pub number: u16,
    pub answer: Result<Outcome, Refusal>,
}

impl fmt::Display for Line {
    ghost output = { λ l. Some (line_text l) };

    fn fmt<W: fmt::Write>(&self, f: &mut fmt::Formatter<W>) -> fmt::Result {
        let number = self.number;
        match self.answer {
            Ok(Outcome::Entered) => write!(f, "{number} entered"),
            Ok(Outcome::Rejected(rejection)) => {
                let reason = rejection.number();
                write!(f, "{number} rejected {reason}")
            }
            Err(Refusal::Waits(earlier)) => write!(f, "{number} waits for {earlier}"),
            Err(refusal) => write!(f, "{number} refused {refusal}"),
        }
    }
}
