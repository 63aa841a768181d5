// Extracts of the summer's two parcels and of what was made of them, before, amid and after the work.
use extracts::error::ExtractError;
use extracts::extract::Extract;
use pages::opening::Opening;
use std::alloc::{AllocError, Global};
use std::process::Abort;
use std::test::*;
use work::registry::Registry;

const OPENING: Opening<'static> = Opening {
    parcels: 2,
    pages: &[5, 0, 0, 0, 100, 0, 0, 0, 5, 0, 0, 0, 50, 0, 0, 0],
};

const SUMMER: [&[u8]; 13] = [
    &[2, 0, 0, 5, 0, 0, 0, 9, 0, 0, 0, 232, 3, 0, 0, 0, 0, 0, 0],
    &[3, 0, 0, 5, 0, 0, 0, 7, 0, 0, 0],
    &[2, 0, 0, 5, 0, 0, 0, 8, 0, 0, 0, 244, 1, 0, 0, 0, 0, 0, 0],
    &[1, 1, 0, 5, 0, 0, 0, 6, 0, 0, 0],
    b"\x04\0\0\x05\0\0\0\x07\0\0\0\x01\0\xd0\x07\0\0\0\0\0\0",
    &[6, 0, 0, 9, 0, 0, 0, 0, 0],
    &[7, 0, 0, 5, 0, 0, 0, 40, 0, 0, 0],
    &[1, 14, 0, 5, 0, 0, 0, 6, 0, 0, 0],
    &[5, 15, 0, 8, 0, 0, 0, 2, 0],
    &[8, 14, 0, 15, 0, 5, 0, 0, 0],
    &[2, 0, 0, 5, 0, 0, 0, 4, 0, 0, 0, 1, 0, 0, 0, 0, 0, 0, 0],
    &[8, 15, 0, 15, 0, 5, 0, 0, 0],
    &[8, 14, 0, 1, 0, 6, 0, 0, 0],
];

const RANKED: &str = "parcel 0 owner 5 area 100 live
0 holder 9 charge 1000
1 holder 7 kept
2 holder 8 charge 500
open 4 5 6 10";

const CLOSED: &str = "parcel 0 owner 5 area 100 closed
1 holder 7 charge 2000
0 holder 9 charge 1000
2 holder 8 charge 500
open 10";

const MADE: &str = "parcel 15 owner 5 area 60 live
1 holder 7 charge 2000
0 holder 9 charge 1000
open none";

fn says(
    heap: Global,
    registry: &Registry<'_>,
    parcel: u16,
    text: &str,
) -> Result<bool, AllocError> {
    match Extract::of(registry, heap, parcel) {
        Ok(extract) => {
            let shown = format!(in heap; "{extract}")?;
            Ok(shown.as_str() == text)
        }
        Err(_) => Ok(false),
    }
}

fn is_refused(heap: Global, registry: &Registry<'_>, parcel: u16) -> bool {
    match Extract::of(registry, heap, parcel) {
        Err(ExtractError::Refused(refusal)) => refusal.number() == 11 && refusal.place() == 0,
        _ => false,
    }
}

fn filed(registry: &mut Registry<'_>) -> bool {
    if registry.open(OPENING).is_err() {
        return false;
    }
    for filing in SUMMER {
        if registry.file(filing).is_err() {
            return false;
        }
    }
    true
}

fn worked(registry: &mut Registry<'_>, from: u16, to: u16) -> bool {
    for number in from..to {
        if registry.work(number).is_err() {
            return false;
        }
    }
    true
}

fn drawn(rt: &impl Abort, heap: Global, registry: &mut Registry<'_>) -> Result<(), Fail> {
    assert!(rt; filed(registry));
    assert!(rt;
        says(
            heap,
            registry,
            1,
            "parcel 1 owner 5 area 50 live\nopen 3 12"
        )?
    );
    assert!(rt; says(heap, registry, 14, "parcel 14 not there\nopen 6 7 9 12")?);
    assert!(rt; worked(registry, 0, 4));
    assert!(rt; says(heap, registry, 0, RANKED)?);
    assert!(rt; worked(registry, 4, 7));
    assert!(rt; says(heap, registry, 0, CLOSED)?);
    assert!(rt; worked(registry, 7, 13));
    assert!(rt; says(heap, registry, 15, MADE)?);
    assert!(rt;
        says(heap, registry, 20, "parcel 20 not there\nopen none")?,
        "a rejected merger's"
    );
    assert!(rt; is_refused(heap, registry, 16), "a transfer makes none");
    assert!(rt; is_refused(heap, registry, 21), "a merger makes one");
    assert!(rt; is_refused(heap, registry, 28), "no filing 13");
    Ok(())
}

#[test]
fn extracts_of_a_summer(rt: HostRuntime) -> Result<(), Fail> {
    let mut words = vec![in rt.alloc(); 7u64; 132 * 28]?;
    let mut slots = vec![in rt.alloc(); 7u8; 24 * 13]?;
    let mut marks = vec![in rt.alloc(); 7u8; 13]?;
    let mut registry = Registry::over(
        words.as_mut_slice(),
        slots.as_mut_slice(),
        marks.as_mut_slice(),
    );
    drawn(&rt, rt.alloc(), &mut registry)
}
