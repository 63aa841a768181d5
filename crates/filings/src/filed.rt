// A filing under its number: which parcels it may make, and which pages it touches.
ghost use Rattle.std.specs.Prelude.{◌≡◌, true};
ghost use Rattle.filings.specs.Touches.{all_below, first_made, may_make, member, named, pages_of, touched_by};

use crate::filing::Filing;
use crate::touched::Touched;

// A filing that came in: its number, in a register that was opened with so many parcels.
#[derive(Clone, Copy, PartialEq, Eq, Debug)]
pub struct Filed {
    pub parcels: u16,
    pub number: u16,
    pub filing: Filing,
}

impl Filed {
    // The first number of a parcel that it may make; the other is the next.
    pub fn first_made(self) -> u32
        ensures { result ≡ first_made self.parcels self.number }
    {
        u32::from(self.parcels) + 2 * u32::from(self.number)
    }

    // Whether it may make the parcel of this number.
    pub fn may_make(self, parcel: u16) -> bool
        ensures { result ≡ member parcel (may_make (first_made self.parcels self.number) self.filing) }
    {
        let first = self.first_made();
        let parcel = u32::from(parcel);
        match self.filing {
            Filing::Subdivide { .. } => parcel == first || parcel == first + 1,
            Filing::Merge { .. } => parcel == first,
            _ => false,
        }
    }

    // The pages of the parcels that it names, whether there are such or not, and of those that it may make.
    #[tactic(auto, unfolding(crate::specs::Touches::touched_by))]
    pub fn touches(self) -> Touched
        ensures pages { pages_of result ≡ touched_by self.parcels self.number self.filing }
        ensures fits { all_below 65536 (named self.filing) ≡ true }
    {
        let first = self.first_made();
        match self.filing {
            Filing::Transfer { parcel, .. }
            | Filing::Charge { parcel, .. }
            | Filing::Reserve { parcel, .. }
            | Filing::Fill { parcel, .. }
            | Filing::Release { parcel, .. }
            | Filing::Postpone { parcel, .. } => Touched::One(u32::from(parcel)),
            Filing::Subdivide { parcel, .. } => {
                Touched::Three(u32::from(parcel), first, first + 1)
            }
            Filing::Merge { parcel, other, .. } => {
                Touched::Three(u32::from(parcel), u32::from(other), first)
            }
        }
    }
}
