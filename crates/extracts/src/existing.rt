// Which numbers a parcel can have: those of the opening, and those that filings may give to what they make.
ghost use Rattle.std.specs.Prelude.{◌≡◌, ◌≤◌};
ghost use Rattle.work.specs.State.{state_of};
ghost use Rattle.extracts.specs.Existing.{made_by, may_exist};

use work::registry::Registry;

// The numbers that a filing may give are two behind those of the filing before it, so only one filing can be meant.
#[tactic(auto, using(crate::proofs::Making::made_is))]
fn may_be_made(registry: &Registry<'_>, parcel: u16) -> bool
    requires { registry.now.parcels ≤ parcel }
    ensures { result ≡ made_by registry.now.parcels 0 (state_of registry.now).desk.filed parcel }
{
    let number = (parcel - registry.parcels) / 2;
    registry
        .filed_under(number)
        .is_some_and(|filed| filed.may_make(parcel))
}

// Whether the opening or a filing that came in, whatever became of it, could have given a parcel this number.
pub fn may_exist(registry: &Registry<'_>, parcel: u16) -> bool
    ensures { result ≡ may_exist (state_of registry.now) parcel }
{
    parcel < registry.parcels || may_be_made(registry, parcel)
}
