// The registry's calls: it is opened, takes filings in, and works them by the rule.
ghost use Rattle.std.specs.Prelude.{◌≡◌, [], IfOk};
ghost use Rattle.orders.specs.Desk.{logged};
ghost use Rattle.pages.specs.Opening.{opening as opened};
ghost use Rattle.pages.specs.Register.{page_at};
ghost use Rattle.steps.specs.Acting.{acts};
ghost use Rattle.work.specs.Asking.{answer_to};
ghost use Rattle.work.specs.Calls.{answered, image_filed, image_opened, image_over, image_worked, number_given, state_filed, state_opened, state_worked, taking_in};
ghost use Rattle.work.specs.Promises.{From, Onward, Promised};
ghost use Rattle.work.specs.State.{image_of, state_of};

use crate::memory::Memory;
use crate::registry::Registry;
use entering::outcome::Outcome;
use pages::opening::Opening;
use pages::refusal::Refusal;

impl<'a> Registry<'a> {
    // A registry over lent memory, whatever that holds: no parcels, and nothing filed.
    pub fn over(pages: &'a mut [u64], filings: &'a mut [u8], marks: &'a mut [u8]) -> Registry<'a>
        ensures { image_of result ≡ image_over pages.old filings.old marks.old }
    {
        Registry {
            memory: Memory {
                pages,
                filings,
                marks,
            },
            parcels: 0,
            filed: 0,
        }
    }
}

impl Registry<'_> {
    // Opens the register with its parcels; what was filed before is forgotten.
    pub fn open(&mut self, opening: Opening) -> Result<(), Refusal>
        ensures answer { result ≡ opened opening.entry.parcels opening.entry.pages.now self.old.memory.pages.now }
        ensures image { image_of self.new ≡ image_opened result opening.entry.parcels opening.entry.pages.now (image_of self.old) }
        ensures state { state_of self.new ≡ state_opened result opening.entry.parcels opening.entry.pages.now (state_of self.old) }
        ensures reached { IfOk result (λ _. From opening.entry.pages.now [] (state_of self.new)) }
        ensures promised { IfOk result (λ _. Promised opening.entry.pages.now [] (state_of self.new)) }
    {
        self.memory.open(opening)?;
        self.begin(opening.parcels);
        Ok(())
    }

    // Takes a filing in under the next number, open, or refuses it.
    pub fn file(&mut self, bytes: &[u8]) -> Result<u16, Refusal>
        ensures answer { result ≡ number_given (image_of self.old) (taking_in (image_of self.old) bytes.now) }
        ensures image { image_of self.new ≡ image_filed (taking_in (image_of self.old) bytes.now) bytes.now (image_of self.old) }
        ensures state { state_of self.new ≡ state_filed (taking_in (image_of self.old) bytes.now) (state_of self.old) }
        ensures onward { Onward (state_of self.old) (state_of self.new) (λ ys. ys) }
    {
        let filing = self.admit_next(bytes)?;
        Ok(self.take(filing, bytes))
    }

    // Works a filing, if it is there, still open, and no earlier open one shares a page with it.
    pub fn work(&mut self, number: u16) -> Result<Outcome, Refusal>
        ensures answer { result ≡ answered self.old.parcels number (page_at self.old.memory.pages.now) (answer_to (image_of self.old) number) }
        ensures image { image_of self.new ≡ image_worked number (answer_to (image_of self.old) number) (image_of self.old) }
        ensures state { state_of self.new ≡ state_worked number (state_of self.old) }
        ensures onward { Onward (state_of self.old) (state_of self.new) (logged (acts self.old.parcels) (answer_to (image_of self.old) number) number) }
    {
        let filed = self.admit_to_work(number)?;
        self.enter(filed)
    }
}
