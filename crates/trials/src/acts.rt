// Changes of rank on pages with 0, 1, 31 and 32 entries, at the first, a middle and the last entry.
use entries::entry::{Claim, Entry, EntryName};
use entries::page::Page;
use std::test::*;

// A page with so many entries, numbered from 0, held by 7 and 8 in turn; those of 7 are reservations.
fn page_of(count: u16) -> Page {
    let mut page = Page::vacant(true, 5, 100);
    for number in 0..count {
        let entry = if number % 2 == 0 {
            Entry::reservation(named(number, 7))
        } else {
            Entry::charge(named(number, 8), 1000)
        };
        page = page.append(entry).unwrap_or(page);
    }
    page
}

fn found(page: Option<Page>) -> Result<Page, Fail> {
    page.ok_or_else(|| Fail::new("refused"))
}

fn named(number: u16, holder: u32) -> EntryName {
    EntryName { number, holder }
}

// The number of the entry at a place, or 99 where there is none.
fn number_at(page: &Page, place: usize) -> u16 {
    page.entry(place).map_or(99, |entry| entry.number)
}

#[test]
fn at_most_32_entries(rt: HostRuntime) -> Result<(), Fail> {
    let entry = Entry::charge(named(40, 9), 0);
    assert_eq!(rt; page_of(0).count(), 0);
    let one = found(page_of(0).append(entry))?;
    assert_eq!(rt; one.count(), 1);
    assert_eq!(rt; number_at(&one, 0), 40);
    let last = found(page_of(31).append(entry))?;
    assert_eq!(rt; last.count(), 32);
    assert_eq!(rt; number_at(&last, 31), 40);
    assert_eq!(rt; number_at(&last, 30), 30);
    assert!(rt; page_of(32).append(entry).is_none(), "a 33rd");
    Ok(())
}

#[test]
fn a_reservation_is_filled_where_it_stands(rt: HostRuntime) -> Result<(), Fail> {
    let page = found(page_of(5).fill(named(2, 7), 500))?;
    assert_eq!(rt; page.count(), 5);
    let filled = page.entry(2).ok_or("gone")?;
    assert_eq!(rt; filled.number, 2);
    assert_eq!(rt; filled.holder, 7);
    assert!(rt; filled.claim == Claim::Charge(500));
    assert!(rt; page_of(5).fill(named(0, 7), 1).is_some(), "the first");
    assert!(rt; page_of(5).fill(named(4, 7), 1).is_some(), "the last");
    assert!(rt; page_of(5).fill(named(1, 8), 1).is_none(), "a charge");
    assert!(rt; page_of(5).fill(named(2, 8), 1).is_none(), "another holder");
    assert!(rt; page.fill(named(2, 7), 1).is_none(), "a second time");
    assert!(rt; page_of(0).fill(named(0, 7), 1).is_none(), "no entries");
    Ok(())
}

#[test]
fn later_entries_move_up_at_a_release(rt: HostRuntime) -> Result<(), Fail> {
    let first = found(page_of(32).release(named(0, 7)))?;
    assert_eq!(rt; first.count(), 31);
    assert_eq!(rt; number_at(&first, 0), 1);
    assert_eq!(rt; number_at(&first, 30), 31);
    assert_eq!(rt; number_at(&first, 31), 99);
    let middle = found(page_of(3).release(named(1, 8)))?;
    assert_eq!(rt; number_at(&middle, 0), 0);
    assert_eq!(rt; number_at(&middle, 1), 2);
    let last = found(page_of(31).release(named(30, 7)))?;
    assert_eq!(rt; last.count(), 30);
    assert_eq!(rt; number_at(&last, 29), 29);
    assert!(rt; found(page_of(1).release(named(0, 7)))?.count() == 0);
    assert!(rt; page_of(3).release(named(1, 7)).is_none(), "another holder");
    Ok(())
}

#[test]
fn a_postponement_passes_one_entry(rt: HostRuntime) -> Result<(), Fail> {
    let first = found(page_of(3).postpone(named(0, 7)))?;
    assert_eq!(rt; number_at(&first, 0), 1);
    assert_eq!(rt; number_at(&first, 1), 0);
    assert_eq!(rt; number_at(&first, 2), 2);
    let last = found(page_of(32).postpone(named(31, 8)))?;
    assert_eq!(rt; number_at(&last, 31), 31);
    assert_eq!(rt; number_at(&last, 30), 30);
    let only = found(page_of(1).postpone(named(0, 7)))?;
    assert_eq!(rt; number_at(&only, 0), 0);
    assert!(rt;
        page_of(3).postpone(named(1, 7)).is_none(),
        "another holder"
    );
    Ok(())
}

#[test]
fn entries_are_found_by_number_and_holder(rt: HostRuntime) -> Result<(), Fail> {
    let page = page_of(32);
    assert!(rt; page.find(named(0, 7)) == Some(0));
    assert!(rt;
        page.find(named(30, 7)) == Some(30),
        "the second of one holder"
    );
    assert!(rt; page.find(named(31, 8)) == Some(31));
    assert!(rt; page.find(named(31, 7)).is_none());
    assert!(rt; page.find(named(32, 7)).is_none());
    assert!(rt; page_of(0).find(named(0, 7)).is_none());
    Ok(())
}

#[test]
fn pages_are_compared_in_all_their_entries(rt: HostRuntime) -> Result<(), Fail> {
    assert!(rt; page_of(32).same_entries(&page_of(32)));
    assert!(rt; !page_of(31).same_entries(&page_of(32)));
    assert!(rt;
        page_of(0).same_entries(&Page::vacant(false, 6, 1)),
        "only entries count"
    );
    let filled = found(page_of(5).fill(named(2, 7), 500))?;
    assert!(rt; !filled.same_entries(&page_of(5)), "kind");
    let more = found(page_of(5).fill(named(2, 7), 501))?;
    assert!(rt; !filled.same_entries(&more), "amount");
    let turned = found(page_of(5).postpone(named(2, 7)))?;
    assert!(rt; !turned.same_entries(&page_of(5)), "rank");
    Ok(())
}
