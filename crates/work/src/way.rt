// What is in the way of a filing: an open one with a smaller number that shares a page with it.
ghost use Rattle.std.specs.Prelude.{◌≡◌};
ghost use Rattle.orders.specs.Desk.{in_way, way_from};
ghost use Rattle.steps.specs.Acting.{acts};
ghost use Rattle.work.specs.State.{desk_in, image_of};

use crate::registry::Registry;
use filings::filed::Filed;

impl Registry<'_> {
    // Whether the filing `earlier` is open and shares a page with this one.
    fn blocks(&self, earlier: u16, filed: Filed) -> bool
        requires { filed.parcels ≡ self.now.parcels }
        ensures { result ≡ in_way (acts filed.parcels) (desk_in (image_of self.now)) filed.number filed.filing earlier }
    {
        self.is_open(earlier)
            && self
                .filed_under(earlier)
                .is_some_and(|other| other.touches().shares(filed.touches()))
    }

    // The smallest number in the way of a filing, if there is one.
    pub(crate) fn in_way(&self, filed: Filed) -> Option<u16>
        requires { filed.parcels ≡ self.now.parcels }
        ensures { result ≡ way_from (acts filed.parcels) (desk_in (image_of self.now)) filed.number filed.filing 0 filed.number }
    {
        (0..filed.number).find(|&earlier| self.blocks(earlier, filed))
    }
}
