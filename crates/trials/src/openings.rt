// Openings at the edges of each check: the number of parcels, the bytes of their pages, the areas.
use pages::opening::Opening;
use pages::refusal::Refusal;
use std::alloc::{AllocError, Global};
use std::test::*;

// So many pages, each of owner 5 and the same area.
fn pages(heap: Global, parcels: u16, area: u32) -> Result<Vec<u8>, AllocError> {
    let mut bytes = Vec::new(heap);
    for _ in 0..parcels {
        bytes.extend_from_slice(&5u32.to_le_bytes())?;
        bytes.extend_from_slice(&area.to_le_bytes())?;
    }
    Ok(bytes)
}

fn check_opening(parcels: u16, pages: &[u8]) -> Result<(), Refusal> {
    Opening { parcels, pages }.check()
}

#[test]
fn from_1_to_1024_parcels(rt: HostRuntime) -> Result<(), Fail> {
    let one = pages(rt.alloc(), 1, 100)?;
    let most = pages(rt.alloc(), 1024, 100)?;
    let more = pages(rt.alloc(), 1025, 100)?;
    assert_eq!(rt; check_opening(0, &[]), Err(Refusal::Parcels));
    assert_eq!(rt; check_opening(1, one.as_slice()), Ok(()));
    assert_eq!(rt; check_opening(1024, most.as_slice()), Ok(()));
    assert_eq!(rt; check_opening(1025, more.as_slice()), Err(Refusal::Parcels));
    assert_eq!(rt; check_opening(65535, &[]), Err(Refusal::Parcels));
    Ok(())
}

#[test]
fn as_many_pages_as_parcels(rt: HostRuntime) -> Result<(), Fail> {
    let bytes = pages(rt.alloc(), 3, 100)?;
    assert_eq!(rt; check_opening(3, bytes.as_slice()), Ok(()));
    assert_eq!(rt; check_opening(2, bytes.as_slice()), Err(Refusal::Pages(24)));
    assert_eq!(rt; check_opening(4, bytes.as_slice()), Err(Refusal::Pages(24)));
    assert_eq!(rt;
        check_opening(1, &[5, 0, 0, 0, 100, 0, 0]),
        Err(Refusal::Pages(7))
    );
    assert_eq!(rt;
        check_opening(1, &[5, 0, 0, 0, 100, 0, 0, 0, 0]),
        Err(Refusal::Pages(9))
    );
    assert_eq!(rt; check_opening(1, &[]), Err(Refusal::Pages(0)));
    Ok(())
}

#[test]
fn areas_from_1_to_a_thousand_million(rt: HostRuntime) -> Result<(), Fail> {
    let smallest = pages(rt.alloc(), 2, 1)?;
    let largest = pages(rt.alloc(), 2, 1_000_000_000)?;
    let larger = pages(rt.alloc(), 2, 1_000_000_001)?;
    let none = pages(rt.alloc(), 2, 0)?;
    assert_eq!(rt; check_opening(2, smallest.as_slice()), Ok(()));
    assert_eq!(rt; check_opening(2, largest.as_slice()), Ok(()));
    assert_eq!(rt; check_opening(2, larger.as_slice()), Err(Refusal::Area(0)));
    assert_eq!(rt; check_opening(2, none.as_slice()), Err(Refusal::Area(0)));
    let second = [5, 0, 0, 0, 1, 0, 0, 0, 1, 0, 0, 0, 0, 0, 0, 0];
    assert_eq!(rt; check_opening(2, &second), Err(Refusal::Area(1)));
    Ok(())
}
