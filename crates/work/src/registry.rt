// A registry over lent memory. The ghost fields say what every call keeps: room for what was filed, and a filing in each slot.
ghost use Rattle.std.specs.Prelude.{◌≡◌, ℕ, ◌+◌, ◌*◌, ◌<◌, ◌≤◌, true, length, is_some};
ghost use Rattle.filings.specs.Keeping.{kept_at};
ghost use Rattle.pages.specs.Register.{room};

use crate::memory::Memory;

#[derive(Drop)]
pub struct Registry<'a> {
    pub memory: Memory<'a>,
    pub parcels: u16,
    pub filed: u16,
    ghost few: { filed ≤ 16384 },
    ghost wide: { parcels + 2 * filed ≤ room memory.pages.now },
    ghost kept: { (n : ℕ) → n < filed → is_some (kept_at memory.filings.now n) ≡ true },
    ghost marked: { filed ≤ length memory.marks.now },
}
