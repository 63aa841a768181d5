// An extract: the page of a parcel, and the numbers of the open filings that touch it, rising.
ghost use Rattle.std.specs.Prelude.{◌≡◌, true, IfOk, Ok};
ghost use Rattle.work.specs.State.{state_of};
ghost use Rattle.extracts.specs.Drawing.{Extracts, content, extract_of};
ghost use Rattle.extracts.specs.Existing.{may_exist};

use crate::error::ExtractError;
use crate::existing::may_exist;
use crate::open::all_open;
use entries::page::Page;
use pages::refusal::Refusal;
use std::alloc::{AllocError, Global};
use work::registry::Registry;

#[derive(Drop)]
pub struct Extract {
    pub parcel: u16,
    pub page: Page,
    pub open: Vec<u16>,
}

impl Extract {
    // The page of a parcel as it stands and all that is open on it.
    #[tactic(auto, using(work::proofs::Listing::filed_length))]
    fn drawn(registry: &Registry<'_>, heap: Global, parcel: u16) -> Result<Extract, AllocError>
        requires { may_exist (state_of registry.now) parcel ≡ true }
        ensures { IfOk result (λ x. Ok (content x) ≡ extract_of (state_of registry.now) parcel) }
    {
        let page = registry.page(parcel);
        let open = all_open(registry, heap, parcel)?;
        Ok(Extract { parcel, page, open })
    }

    // The same, or a refusal where no parcel can have this number.
    pub fn of(registry: &Registry<'_>, heap: Global, parcel: u16) -> Result<Extract, ExtractError>
        ensures { Extracts (state_of registry.now) parcel result }
    {
        if !may_exist(registry, parcel) {
            return Err(Refusal::NoParcel.into());
        }
        Ok(Extract::drawn(registry, heap, parcel)?)
    }
}
