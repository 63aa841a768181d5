// The pages that a filing touches, entered or rejected: one, or three where land is divided or joined; so no list is wanted.
ghost use Rattle.std.specs.Prelude.{◌≡◌};
ghost use Rattle.filings.specs.Touches.{member, pages_of, shares};

#[derive(Clone, Copy, PartialEq, Eq, Debug)]
pub enum Touched {
    One(u32),
    Three(u32, u32, u32),
}

impl Touched {
    pub fn has(self, page: u32) -> bool
        ensures { result ≡ member page (pages_of self) }
    {
        match self {
            Touched::One(p) => p == page,
            Touched::Three(p, q, r) => [p, q, r].contains(&page),
        }
    }

    // Whether some page is touched by both.
    pub fn shares(self, other: Touched) -> bool
        ensures { result ≡ shares (pages_of self) (pages_of other) }
    {
        match self {
            Touched::One(p) => other.has(p),
            Touched::Three(p, q, r) => other.has(p) || other.has(q) || other.has(r),
        }
    }
}
