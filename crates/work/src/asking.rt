// The answer to a clerk who asks to work a number.
ghost use Rattle.std.specs.Prelude.{◌≡◌, ◌-◌, ◌<◌, IfOk};
ghost use Rattle.orders.specs.Desk.{is_ready, ready_from};
ghost use Rattle.steps.specs.Acting.{acts};
ghost use Rattle.work.specs.Asking.{answer_to, told};
ghost use Rattle.work.specs.State.{desk_in, image_of};

use crate::registry::Registry;
use filings::filed::Filed;
use pages::refusal::Refusal;

impl Registry<'_> {
    // The filing of a number, if it is there, still open, and no earlier open one shares a page with it.
    #[tactic(auto, unfolding(orders::specs::Desk::asked))]
    pub fn ask(&self, number: u16) -> Result<Filed, Refusal>
        ensures answer { result ≡ told self.now.parcels number (answer_to (image_of self.now) number) }
        ensures below { IfOk result (λ filed. (filed.number ≡ number) × (filed.number < self.now.filed)) }
    {
        let Some(filed) = self.filed_under(number) else {
            return Err(Refusal::NotThere);
        };
        if !self.is_open(number) {
            return Err(Refusal::Done);
        }
        if let Some(earlier) = self.in_way(filed) {
            return Err(Refusal::Waits(earlier));
        }
        Ok(filed)
    }

    #[tactic(auto, using(crate::proofs::Ways::told_ready))]
    fn may_work(&self, number: u16) -> bool
        ensures { result ≡ is_ready (acts self.now.parcels) (answer_to (image_of self.now) number) }
    {
        self.ask(number).is_ok()
    }

    // The smallest open filing from a number on that may be worked now, if there is one.
    pub fn next_ready(&self, from: u16) -> Option<u16>
        ensures { result ≡ ready_from (acts self.now.parcels) (desk_in (image_of self.now)) from (self.now.filed - from) }
    {
        (from..self.filed).find(|&number| self.may_work(number))
    }
}
