// A page as words of memory, one field to a word, and back. Reading takes any words: each field is cut to its type.
ghost use Rattle.std.specs.Prelude.{◌≡◌, ◌^◌, ◌<◌, ◌≤◌, length, take, drop, IfSome, slice_get, ℕ};
ghost use Rattle.std.specs.List.{flat_map};
ghost use Rattle.entries.specs.Sheet.{sheet};
ghost use Rattle.pages.specs.Words.{entry_in, entries_in, FitsEntry, FitsSheet, head_words, place_words, places, sheet_in, sheet_words};

use entries::entry::{BLANK, Claim, Entry};
use entries::page::{MOST_ENTRIES, Page};
use std::array;

pub const PAGE_WORDS: usize = 132;

// The entry in four words.
fn entry_in(words: &[u64; 4]) -> Entry
    ensures { result ≡ entry_in words.now }
{
    let claim = if words[2] == 1 {
        Claim::Reserved
    } else {
        Claim::Charge(words[3])
    };
    Entry {
        number: (words[0] % 0x1_0000) as u16,
        holder: (words[1] % 0x1_0000_0000) as u32,
        claim,
    }
}

fn entry_at(places: &[[u64; 4]], i: usize) -> Entry
    ensures { IfSome (slice_get places.now i) (λ place. result ≡ entry_in place) }
{
    places.get(i).map_or(BLANK, entry_in)
}

// So many entries, the best rank first; the places behind them are blank.
fn entries_in(words: &[u64; PAGE_WORDS], count: usize) -> [Entry; MOST_ENTRIES]
    requires { count ≤ 32 }
    ensures places { length result ≡ 32 }
    ensures read { take count result ≡ entries_in count (drop 4 words.now) }
{
    let (places, _) = words[4..].as_chunks::<4>();
    let standing = &places[..count];
    array::from_fn(|i| entry_at(standing, i))
}

pub(crate) fn page_in(words: &[u64; PAGE_WORDS]) -> Page
    ensures { sheet result ≡ sheet_in words.now }
{
    // words may say anything, and a page has at most 32 entries
    let count = words[3].min(32) as usize;
    Page {
        live: words[0] == 1,
        owner: (words[1] % 0x1_0000_0000) as u32,
        area: words[2],
        count,
        entries: entries_in(words, count),
    }
}

fn place_words(entries: &[Entry], i: usize) -> [u64; 4]
    ensures words { result ≡ place_words (slice_get entries.now i) }
    ensures fits { FitsEntry (slice_get entries.now i) }
{
    let Some(entry) = entries.get(i) else {
        return [0; 4];
    };
    let number = entry.number as u64;
    let holder = entry.holder as u64;
    match entry.claim {
        Claim::Charge(amount) => [number, holder, 0, amount],
        Claim::Reserved => [number, holder, 1, 0],
    }
}

// A place that no entry has is zero.
fn places_of(page: &Page) -> [[u64; 4]; MOST_ENTRIES]
    ensures words { flat_map (λ words. words) result ≡ places 32 (sheet page.now).entries }
    ensures fits { (i : ℕ) → i < 32 → FitsEntry (slice_get (sheet page.now).entries i) }
{
    let standing = page.standing();
    array::from_fn(
        |i| -> [u64; 4]
            ensures words { result ≡ place_words (slice_get standing.entry.now i) }
            ensures fits { FitsEntry (slice_get standing.entry.now i) }
        { place_words(standing, i) },
    )
}

fn head_words(page: &Page) -> [u64; 4]
    ensures words { result ≡ head_words (sheet page.now) }
    ensures fits { (sheet page.now).owner < 2 ^ 32 }
    ensures few { length (sheet page.now).entries ≤ 32 }
{
    [
        page.live() as u64,
        page.owner() as u64,
        page.area(),
        page.count() as u64,
    ]
}

// The words of a page, all of them.
pub(crate) fn put_words(words: &mut [u64; PAGE_WORDS], page: &Page)
    ensures words { words.new ≡ sheet_words (sheet page.now) }
    ensures fits { FitsSheet (sheet page.now) }
{
    words[..4].copy_from_slice(&head_words(page));
    words[4..].copy_from_slice(places_of(page).as_flattened());
}
