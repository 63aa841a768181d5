// The register in lent words: the page of a parcel is the part of them that its number says.
ghost use Rattle.std.specs.Prelude.{◌≡◌, ◌*◌, ◌<◌, min, MatchOption};
ghost use Rattle.entries.specs.Sheet.{sheet};
ghost use Rattle.pages.specs.Register.{no_page, page_at, put_page, put_kept, room};
ghost use Rattle.pages.specs.Words.{FitsSheet, sheet_in};

use crate::words::{PAGE_WORDS, page_in, put_words};
use entries::page::Page;

// How many pages there is room for.
pub fn pages_room(words: &[u64]) -> usize
    ensures { result ≡ room words.now }
{
    words.len() / PAGE_WORDS
}

// The words of a page; past the end of the memory there are none.
fn page_words(words: &[u64], parcel: usize) -> Option<&[u64; PAGE_WORDS]>
    ensures { MatchOption result (page_at words.now parcel ≡ no_page) (λ page. page_at words.now parcel ≡ sheet_in page.now) }
{
    let (pages, _) = words.as_chunks();
    pages.get(parcel)
}

// The page of a parcel's number; past the end of the memory there is none, and so no land.
pub fn read_page(words: &[u64], parcel: usize) -> Page
    ensures { sheet result ≡ page_at words.now parcel }
{
    match page_words(words, parcel) {
        Some(words) => page_in(words),
        None => Page::vacant(false, 0, 0),
    }
}

// Where a page starts. One past the end starts behind the last, where there is no room for it.
fn page_start(words: &[u64], parcel: usize) -> usize
    ensures { result ≡ 132 * min parcel (room words.now) }
{
    PAGE_WORDS * parcel.min(pages_room(words))
}

// Writes the first page of some words, if they have room for one.
fn put_first(words: &mut [u64], page: &Page)
    ensures words { words.new ≡ put_page words.old 0 (sheet page.now) }
    ensures fits { 0 < room words.old → FitsSheet (sheet page.now) }
{
    if let Some(first) = words.first_chunk_mut() {
        put_words(first, page);
    }
}

// Just the words of that page are written, and what was written is read back; past the end nothing is.
pub fn write_page(words: &mut [u64], parcel: usize, page: Page)
    ensures words { words.new ≡ put_page words.old parcel (sheet page) }
    ensures register { page_at words.new ≡ put_kept (room words.old) parcel (sheet page) (page_at words.old) }
{
    let start = page_start(words, parcel);
    put_first(&mut words[start..], &page);
}
