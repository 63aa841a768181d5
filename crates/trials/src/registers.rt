// Pages in lent words: written and read back, next to each other and past the end, and openings in memory that is too short.
use entries::entry::{Entry, EntryName};
use entries::page::Page;
use pages::opening::{Opening, open_pages};
use pages::refusal::{Lent, Refusal};
use pages::register::{read_page, write_page};
use std::test::*;

const TWO: [u8; 16] = [5, 0, 0, 0, 100, 0, 0, 0, 6, 0, 0, 0, 0, 202, 154, 59];

fn opened(words: &mut [u64], parcels: u16, pages: &[u8]) -> Result<(), Refusal> {
    open_pages(words, Opening { parcels, pages })
}

#[test]
fn what_is_written_is_read_back(rt: HostRuntime) -> Result<(), Fail> {
    let mut words = vec![in rt.alloc(); 7u64; 132 * 3]?;
    let name = EntryName {
        number: 65535,
        holder: 4_294_967_295,
    };
    let entry = Entry::charge(name, 1_000_000_000_000_000);
    let Some(page) = Page::vacant(true, 5, 60).append(entry) else {
        return Err(Fail::new("no room"));
    };
    write_page(words.as_mut_slice(), 1, page);
    let back = read_page(words.as_slice(), 1);
    assert!(rt; back.live());
    assert_eq!(rt; back.owner(), 5);
    assert_eq!(rt; back.area(), 60);
    assert!(rt; back.same_entries(&page));
    assert!(rt; words.len() == 396);
    assert_eq!(rt; words[131], 7, "the page before");
    assert_eq!(rt; words[263], 0, "its last word is zero");
    assert_eq!(rt; words[264], 7, "the page after");
    Ok(())
}

#[test]
fn past_the_end_there_is_no_page(rt: HostRuntime) -> Result<(), Fail> {
    let mut words = vec![in rt.alloc(); 7u64; 132 * 2 - 1]?;
    write_page(words.as_mut_slice(), 1, Page::vacant(true, 5, 60));
    let back = read_page(words.as_slice(), 1);
    assert!(rt; !back.live());
    assert_eq!(rt; back.area(), 0);
    assert!(rt; words.len() == 263);
    assert_eq!(rt; words[132], 7);
    assert_eq!(rt; read_page(words.as_slice(), 18446744073709551615).area(), 0);
    Ok(())
}

#[test]
fn any_words_are_a_page(rt: HostRuntime) -> Result<(), Fail> {
    let words = vec![in rt.alloc(); 18446744073709551615u64; 132]?;
    let page = read_page(words.as_slice(), 0);
    assert!(rt; !page.live());
    assert_eq!(rt; page.count(), 32);
    assert_eq!(rt; page.owner(), 4_294_967_295);
    Ok(())
}

#[test]
fn an_opening_writes_every_page(rt: HostRuntime) -> Result<(), Fail> {
    let mut words = vec![in rt.alloc(); 7u64; 132 * 3]?;
    assert_eq!(rt; opened(words.as_mut_slice(), 2, &TWO), Ok(()));
    let first = read_page(words.as_slice(), 0);
    assert!(rt; first.live());
    assert_eq!(rt; first.owner(), 5);
    assert_eq!(rt; first.area(), 100);
    assert_eq!(rt; first.count(), 0);
    let second = read_page(words.as_slice(), 1);
    assert_eq!(rt; second.owner(), 6);
    assert_eq!(rt; second.area(), 1_000_000_000);
    assert!(rt; words.len() == 396);
    assert_eq!(rt; words[264], 0);
    assert_eq!(rt; words[395], 0);
    Ok(())
}

#[test]
fn memory_is_looked_at_first(rt: HostRuntime) -> Result<(), Fail> {
    let mut short = vec![in rt.alloc(); 7u64; 132 * 2 - 1]?;
    assert_eq!(rt;
        opened(short.as_mut_slice(), 2, &TWO),
        Err(Refusal::Short(Lent::Pages))
    );
    assert_eq!(rt;
        opened(short.as_mut_slice(), 2, &[]),
        Err(Refusal::Short(Lent::Pages))
    );
    assert_eq!(rt;
        opened(short.as_mut_slice(), 1025, &[]),
        Err(Refusal::Short(Lent::Pages))
    );
    assert_eq!(rt; opened(short.as_mut_slice(), 0, &[]), Err(Refusal::Parcels));
    assert_eq!(rt;
        opened(short.as_mut_slice(), 1, &TWO),
        Err(Refusal::Pages(16))
    );
    assert!(rt; short.len() == 263);
    assert_eq!(rt; short[0], 7);
    Ok(())
}
