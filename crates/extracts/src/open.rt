// The open filings that touch a page.
ghost use Rattle.std.specs.Prelude.{◌≡◌, IfOk};
ghost use Rattle.work.specs.State.{state_of};
ghost use Rattle.extracts.specs.Open.{open_below, open_there};

use std::alloc::{AllocError, Global};
use work::registry::Registry;

// Whether a filing is open and touches the page, whatever will become of it.
fn open_there(registry: &Registry<'_>, parcel: u16, number: u16) -> bool
    ensures { result ≡ open_there (state_of registry.now) parcel number }
{
    registry.is_open(number)
        && registry
            .filed_under(number)
            .is_some_and(|filed| filed.touches().has(u32::from(parcel)))
}

// The numbers of all that are, rising.
pub(crate) fn all_open(
    registry: &Registry<'_>,
    heap: Global,
    parcel: u16,
) -> Result<Vec<u16>, AllocError>
    ensures { IfOk result (λ v. v.items ≡ open_below (state_of registry.now) parcel registry.now.filed) }
{
    (0..registry.filed)
        .filter(|&number| open_there(registry, parcel, number))
        .collect(heap)
}
