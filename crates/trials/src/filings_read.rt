// Filings of each kind at each edge of their length and amount, what is read of them, and what they touch.
ghost use Rattle.std.specs.Prelude.{◌≤◌};

use filings::filed::Filed;
use filings::filing::Filing;
use filings::slots::filing_at;
use filings::taking::take_in;
use filings::touched::Touched;
use std::test::*;

// The number and the place of a refusal, or 0 where the bytes are a filing.
fn refused(bytes: &[u8]) -> (u8, usize) {
    match Filing::read(bytes) {
        Ok(_) => (0, 0),
        Err(refusal) => (refusal.number(), refusal.place()),
    }
}

// What is said of a filing of a kind with so many bytes, at most 24.
fn with_length(kind: u8, length: usize) -> (u8, usize) {
    let mut bytes = [0u8; 24];
    bytes[0] = kind;
    refused(&bytes[0..length.min(24)])
}

#[test]
fn a_filing_has_the_length_of_its_kind(rt: HostRuntime) -> Result<(), Fail> {
    for (kind, length) in [
        (1, 11),
        (2, 19),
        (3, 11),
        (4, 21),
        (5, 9),
        (6, 9),
        (7, 11),
        (8, 9),
    ] {
        assert_eq!(rt; with_length(kind, length), (0, 0));
        assert_eq!(rt;
            with_length(kind, length.wrapping_sub(1)),
            (5, length.wrapping_sub(1))
        );
        assert_eq!(rt;
            with_length(kind, length.wrapping_add(1)),
            (5, length.wrapping_add(1))
        );
        assert_eq!(rt; with_length(kind, 1), (5, 1));
    }
    Ok(())
}

#[test]
fn kinds_are_1_to_8(rt: HostRuntime) -> Result<(), Fail> {
    assert_eq!(rt; refused(&[]), (4, 0));
    assert_eq!(rt; refused(&[0; 11]), (4, 0));
    assert_eq!(rt; refused(&[9; 11]), (4, 0));
    assert_eq!(rt; refused(&[255]), (4, 0));
    Ok(())
}

// A filing with a number in eight bytes at an offset.
fn with_amount(kind: u8, at: usize, amount: u64) -> [u8; 24]
    requires { at ≤ 16 }
{
    let mut bytes = [0u8; 24];
    bytes[0] = kind;
    bytes[at..at + 8].copy_from_slice(&amount.to_le_bytes());
    bytes
}

#[test]
fn amounts_and_areas_have_a_limit(rt: HostRuntime) -> Result<(), Fail> {
    let most = 1_000_000_000_000_000;
    assert_eq!(rt; refused(&with_amount(2, 11, most)[0..19]), (0, 0));
    assert_eq!(rt; refused(&with_amount(2, 11, most + 1)[0..19]), (6, 11));
    assert_eq!(rt; refused(&with_amount(4, 13, most)[0..21]), (0, 0));
    assert_eq!(rt; refused(&with_amount(4, 13, most + 1)[0..21]), (6, 13));
    assert_eq!(rt; refused(&with_amount(7, 7, 1_000_000_000)[0..11]), (0, 0));
    assert_eq!(rt; refused(&with_amount(7, 7, 1_000_000_001)[0..11]), (6, 7));
    assert_eq!(rt;
        refused(&with_amount(4, 13, u64::MAX)[0..20]),
        (5, 20),
        "the length comes first"
    );
    Ok(())
}

#[test]
fn fields_are_read_in_their_order(rt: HostRuntime) -> Result<(), Fail> {
    let fill = [
        4, 1, 2, 3, 0, 0, 0, 4, 0, 0, 1, 5, 0, 6, 0, 0, 0, 0, 0, 0, 0,
    ];
    let Ok(
        Filing::Fill {
            parcel,
            owner,
            holder,
            number,
            amount,
        },
    ) = Filing::read(&fill)
    else {
        return Err(Fail::new("no filling"));
    };
    assert_eq!(rt; parcel, 513);
    assert_eq!(rt; owner, 3);
    assert_eq!(rt; holder, 16_777_220);
    assert_eq!(rt; number, 5);
    assert_eq!(rt; amount, 6);
    let Ok(
        Filing::Merge {
            parcel,
            other,
            owner,
        },
    ) = Filing::read(&[8, 1, 0, 2, 0, 3, 0, 0, 0])
    else {
        return Err(Fail::new("no merger"));
    };
    assert_eq!(rt; parcel, 1);
    assert_eq!(rt; other, 2);
    assert_eq!(rt; owner, 3);
    Ok(())
}

#[test]
fn what_is_taken_in_is_read_back(rt: HostRuntime) -> Result<(), Fail> {
    let mut slots = vec![in rt.alloc(); 7u8; 24 * 2 + 23]?;
    let release = [5, 1, 0, 2, 0, 0, 0, 3, 0];
    assert!(rt; take_in(slots.as_mut_slice(), 1, &release).is_ok());
    let Some(
        Filing::Release {
            parcel,
            holder,
            number,
        },
    ) = filing_at(slots.as_slice(), 1)
    else {
        return Err(Fail::new("not kept"));
    };
    assert!(rt; parcel == 1 && holder == 2 && number == 3);
    assert!(rt; slots.len() == 71);
    assert_eq!(rt; slots[23], 7);
    assert_eq!(rt; slots[33], 0);
    assert_eq!(rt; slots[48], 7);
    assert!(rt; filing_at(slots.as_slice(), 2).is_none(), "a part slot");
    let Err(short) = take_in(slots.as_mut_slice(), 2, &[]) else {
        return Err(Fail::new("no slot"));
    };
    assert_eq!(rt;
        (short.number(), short.place()),
        (12, 1),
        "memory before the bytes"
    );
    let Err(full) = take_in(slots.as_mut_slice(), 16_384, &release) else {
        return Err(Fail::new("a 16,385th"));
    };
    assert_eq!(rt; (full.number(), full.place()), (7, 0));
    let Err(kind) = take_in(slots.as_mut_slice(), 16_384, &[]) else {
        return Err(Fail::new("no kind"));
    };
    assert_eq!(rt; kind.number(), 4, "the kind before how many there are");
    Ok(())
}

// Filing 6 of a register that was opened with two parcels.
fn numbered_6(filing: Filing) -> Filed {
    Filed {
        parcels: 2,
        number: 6,
        filing,
    }
}

#[test]
fn parcels_that_may_be_made_are_touched(rt: HostRuntime) -> Result<(), Fail> {
    let subdivide = Filing::Subdivide {
        parcel: 0,
        owner: 5,
        area: 40,
    };
    let touched = numbered_6(subdivide).touches();
    assert!(rt; touched.has(0) && touched.has(14) && touched.has(15));
    assert!(rt; !touched.has(13) && !touched.has(16));
    let merge = Filing::Merge {
        parcel: 65535,
        other: 3,
        owner: 5,
    };
    let joined = numbered_6(merge).touches();
    assert!(rt; joined.has(65535) && joined.has(3) && joined.has(14) && !joined.has(15));
    assert!(rt; touched.shares(joined) && joined.shares(touched));
    assert!(rt; !touched.shares(Touched::One(3)));
    Ok(())
}
