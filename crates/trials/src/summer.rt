// A summer's filings, entered one by one: two parcels of owner 5, of 100 and 50 square metres.
use entering::enter::enter;
use entering::outcome::{Outcome, Rejection};
use entries::page::Page;
use filings::filed::Filed;
use filings::filing::Filing;
use pages::opening::{Opening, open_pages};
use pages::refusal::Refusal;
use pages::register::read_page;
use std::test::*;

const OPENING: Opening<'static> = Opening {
    parcels: 2,
    pages: &[5, 0, 0, 0, 100, 0, 0, 0, 5, 0, 0, 0, 50, 0, 0, 0],
};

const SUBDIVIDE: Filing = Filing::Subdivide {
    parcel: 0,
    owner: 5,
    area: 40,
};

const TRANSFER: Filing = Filing::Transfer {
    parcel: 14,
    owner: 5,
    to: 6,
};

fn charge(parcel: u16, holder: u32, amount: u64) -> Filing {
    let owner = 5;
    Filing::Charge {
        parcel,
        owner,
        holder,
        amount,
    }
}

fn transfer(parcel: u16, owner: u32, to: u32) -> Filing {
    Filing::Transfer { parcel, owner, to }
}

fn merger(parcel: u16, other: u16, owner: u32) -> Filing {
    Filing::Merge {
        parcel,
        other,
        owner,
    }
}

// Each filing, and what comes of it.
fn summer() -> [(Filing, Outcome); 13] {
    let reserve = Filing::Reserve {
        parcel: 0,
        owner: 5,
        holder: 7,
    };
    let fill = Filing::Fill {
        parcel: 0,
        owner: 5,
        holder: 7,
        number: 1,
        amount: 2000,
    };
    let postpone = Filing::Postpone {
        parcel: 0,
        holder: 9,
        number: 0,
    };
    let release = Filing::Release {
        parcel: 15,
        holder: 8,
        number: 2,
    };
    [
        (charge(0, 9, 1000), Outcome::Entered),
        (reserve, Outcome::Entered),
        (charge(0, 8, 500), Outcome::Entered),
        (transfer(1, 5, 6), Outcome::Entered),
        (fill, Outcome::Entered),
        (postpone, Outcome::Entered),
        (SUBDIVIDE, Outcome::Entered),
        (TRANSFER, Outcome::Entered),
        (release, Outcome::Entered),
        (merger(14, 15, 5), Outcome::Rejected(Rejection::NotOwner)),
        (charge(0, 4, 1), Outcome::Rejected(Rejection::NotLive)),
        (merger(15, 15, 5), Outcome::Rejected(Rejection::Itself)),
        (merger(14, 1, 6), Outcome::Rejected(Rejection::Unlike)),
    ]
}

fn entered(words: &mut [u64], number: u16, filing: Filing) -> Result<Outcome, Refusal> {
    let parcels = 2;
    enter(
        words,
        Filed {
            parcels,
            number,
            filing,
        },
    )
}

// A page by its owner, its area and the numbers of its entries, at most four, as digits of one number.
fn in_short(page: &Page) -> (bool, u32, u64, usize) {
    let digits = page
        .standing()
        .iter()
        .take(4)
        .fold(0usize, |digits, entry| {
            digits
                .wrapping_mul(10)
                .wrapping_add(usize::from(entry.number) + 1)
        });
    (page.live(), page.owner(), page.area(), digits)
}

#[test]
fn a_summers_filings(rt: HostRuntime) -> Result<(), Fail> {
    let mut words = vec![in rt.alloc(); 7u64; 132 * 28]?;
    assert!(rt; open_pages(words.as_mut_slice(), OPENING).is_ok());
    for (number, (filing, outcome)) in (0..).zip(summer()) {
        assert_eq!(rt; entered(words.as_mut_slice(), number, filing), Ok(outcome));
    }
    assert_eq!(rt;
        in_short(&read_page(words.as_slice(), 0)),
        (false, 5, 100, 213)
    );
    assert_eq!(rt; in_short(&read_page(words.as_slice(), 1)), (true, 6, 50, 0));
    assert_eq!(rt;
        in_short(&read_page(words.as_slice(), 14)),
        (true, 6, 40, 213)
    );
    assert_eq!(rt;
        in_short(&read_page(words.as_slice(), 15)),
        (true, 5, 60, 21)
    );
    assert_eq!(rt;
        in_short(&read_page(words.as_slice(), 20)),
        (false, 0, 0, 0)
    );
    Ok(())
}

#[test]
fn memory_for_what_a_filing_may_make(rt: HostRuntime) -> Result<(), Fail> {
    let mut words = vec![in rt.alloc(); 7u64; 132 * 16]?;
    assert!(rt; open_pages(words.as_mut_slice(), OPENING).is_ok());
    assert!(rt;
        entered(words.as_mut_slice(), 6, SUBDIVIDE).is_ok(),
        "parcels 14 and 15"
    );
    let Err(refusal) = entered(words.as_mut_slice(), 7, TRANSFER) else {
        return Err(Fail::new("no room for 16 and 17"));
    };
    assert_eq!(rt; (refusal.number(), refusal.place()), (12, 0));
    Ok(())
}
