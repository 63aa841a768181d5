// What the calls do once it is known that they may.
ghost use Rattle.std.specs.Prelude.{◌≡◌, ℕ, ◌<◌, ◌≤◌, List, IfErr, IfOk, Ok, Err};
ghost use Rattle.orders.specs.Desk.{asked, ready};
ghost use Rattle.pages.specs.Opening.{checked, opened_page};
ghost use Rattle.pages.specs.Register.{page_at, room};
ghost use Rattle.steps.specs.Acting.{acts};
ghost use Rattle.work.specs.Calls.{Admits, answered, taking_in};
ghost use Rattle.work.specs.Promises.{Begins, Files, Works};
ghost use Rattle.work.specs.Asking.{answer_to, told};
ghost use Rattle.work.specs.State.{desk_in, image_of};

use crate::registry::Registry;
use entering::outcome::Outcome;
use filings::filed::Filed;
use filings::filing::Filing;
use pages::refusal::Refusal;

impl Registry<'_> {
    // The pages are there; nothing is filed yet.
    pub(crate) fn begin(&mut self, parcels: u16)
        requires { parcels ≤ room self.old.memory.pages.now }
        ensures { Begins parcels (image_of self.old) (image_of self.new) }
    {
        self.parcels = parcels;
        self.filed = 0;
    }

    #[tactic(auto, using(crate::proofs::Admits::all_kept))]
    pub(crate) fn take(&mut self, filing: Filing, bytes: &[u8]) -> u16
        requires { (Ok filing ≡ taking_in (image_of self.old) bytes.now) × (Admits (image_of self.old) bytes.now filing) }
        ensures { Files (Ok result) bytes.now (image_of self.old) (image_of self.new) }
    {
        let number = self.filed;
        self.memory.keep(number, bytes);
        self.filed = number + 1;
        number
    }

    // What `ask` answers, with what `work` makes of a refusal: nothing is changed.
    #[tactic(auto, using(crate::proofs::Promises::not_worked))]
    pub(crate) fn admit_to_work(&self, number: u16) -> Result<Filed, Refusal>
        ensures answer { result ≡ told self.now.parcels number (answer_to (image_of self.now) number) }
        ensures below { IfOk result (λ filed. (filed.number ≡ number) × (filed.number < self.now.filed)) }
        ensures refuses { IfErr result (λ e. Works (Err e) number (image_of self.now) (image_of self.now)) }
    {
        self.ask(number)
    }

    #[tactic(auto, using(crate::proofs::Working::told_of))]
    pub(crate) fn enter(&mut self, filed: Filed) -> Result<Outcome, Refusal>
        requires { (Ok filed ≡ told self.old.parcels filed.number (answer_to (image_of self.old) filed.number)) × (filed.number < self.old.filed) }
        ensures { Works result filed.number (image_of self.old) (image_of self.new) }
    {
        self.memory.enter(filed)
    }
}
