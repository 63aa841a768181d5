// The registry at its edges: who waits for whom, what is refused, what may be worked next, memory that is too short.
use entering::outcome::Outcome;
use pages::opening::Opening;
use pages::refusal::{Lent, Refusal};
use std::process::Abort;
use std::test::*;
use work::registry::Registry;

const OPENING: Opening<'static> = Opening {
    parcels: 2,
    pages: &[5, 0, 0, 0, 100, 0, 0, 0, 5, 0, 0, 0, 50, 0, 0, 0],
};

// the owner 5 hands a parcel to 6
const FIRST_HANDED: [u8; 11] = [1, 0, 0, 5, 0, 0, 0, 6, 0, 0, 0];

const SECOND_HANDED: [u8; 11] = [1, 1, 0, 5, 0, 0, 0, 6, 0, 0, 0];

// Calls whose answers alone are looked at.
fn file(registry: &mut Registry, bytes: &[u8]) -> Result<u16, Refusal> {
    registry.file(bytes)
}

fn work(registry: &mut Registry, number: u16) -> Result<Outcome, Refusal> {
    registry.work(number)
}

fn next_ready(registry: &Registry, from: u16) -> Option<u16> {
    registry.next_ready(from)
}

fn all_filed(rt: &impl Abort, registry: &mut Registry) -> Result<(), Fail> {
    assert!(rt; registry.open(OPENING).is_ok());
    assert_eq!(rt; work(registry, 0), Err(Refusal::NotThere));
    assert_eq!(rt; file(registry, &FIRST_HANDED), Ok(0));
    assert_eq!(rt; file(registry, &FIRST_HANDED), Ok(1));
    assert_eq!(rt; file(registry, &SECOND_HANDED), Ok(2));
    Ok(())
}

// Filings 0 and 1 share a page, and 2 is apart.
fn worked_in_turn(rt: &impl Abort, registry: &mut Registry) -> Result<(), Fail> {
    assert_eq!(rt; work(registry, 1), Err(Refusal::Waits(0)));
    assert_eq!(rt; next_ready(registry, 1), Some(2));
    assert_eq!(rt; work(registry, 2), Ok(Outcome::Entered));
    assert_eq!(rt; work(registry, 2), Err(Refusal::Done));
    assert_eq!(rt; work(registry, 0), Ok(Outcome::Entered));
    assert_eq!(rt; next_ready(registry, 0), Some(1));
    Ok(())
}

#[test]
fn who_shares_a_page_waits(rt: HostRuntime) -> Result<(), Fail> {
    let mut pages = vec![in rt.alloc(); 7u64; 132 * 8]?;
    let mut filings = vec![in rt.alloc(); 7u8; 24 * 4]?;
    let mut marks = vec![in rt.alloc(); 7u8; 4]?;
    let mut registry = Registry::over(
        pages.as_mut_slice(),
        filings.as_mut_slice(),
        marks.as_mut_slice(),
    );
    all_filed(&rt, &mut registry)?;
    // pages for two parcels, and two for each of three filings
    assert_eq!(rt;
        file(&mut registry, &SECOND_HANDED),
        Err(Refusal::Short(Lent::Pages))
    );
    worked_in_turn(&rt, &mut registry)
}
