// A parcel's page as it is held: the first `count` places of `entries` are its entries, best rank first. An array and a count,
// since a page is handed on by value and takes no memory from the heap.
ghost use Rattle.std.specs.Prelude.{◌≡◌, ◌≤◌, length};

use crate::entry::Entry;

pub const MOST_ENTRIES: usize = 32;

#[derive(Clone, Copy)]
pub struct Page {
    // a page that is closed keeps its owner, its area and its entries
    pub live: bool,
    pub owner: u32,
    pub area: u64,
    pub count: usize,
    pub entries: [Entry; MOST_ENTRIES],
    ghost few: { count ≤ 32 },
    ghost whole: { length entries ≡ 32 },
}
