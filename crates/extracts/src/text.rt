// The text of an extract: the page, a line for each entry in its rank, and what is open.
ghost use Rattle.std.specs.Prelude.{◌≡◌, List, ℕ, Some, flat_map};
ghost use Rattle.std.specs.Fmt.{WritesOnOk};
ghost use Rattle.entries.specs.Sheet.{sheet};
ghost use Rattle.extracts.specs.Drawing.{content};
ghost use Rattle.extracts.specs.Text.{entry_line, extract_text, life_text, number_text, open_text, page_text};

use crate::extract::Extract;
use entries::entry::{Claim, Entry};
use entries::page::Page;
use std::fmt;

// What the text lists: entries and numbers of filings.
trait Listed {
    ghost text: { Self → List ℕ };

    fn write<W: fmt::Write>(&self, f: &mut fmt::Formatter<W>) -> fmt::Result
        ensures { WritesOnOk W.write_str_gives f.old result (text self.now) f.new };
}

impl Listed for Entry {
    ghost text = { entry_line };

    fn write<W: fmt::Write>(&self, f: &mut fmt::Formatter<W>) -> fmt::Result {
        let number = self.number;
        let holder = self.holder;
        match self.claim {
            Claim::Charge(amount) => writeln!(f, "{number} holder {holder} charge {amount}"),
            Claim::Reserved => writeln!(f, "{number} holder {holder} kept"),
        }
    }
}

impl Listed for u16 {
    ghost text = { number_text };

    fn write<W: fmt::Write>(&self, f: &mut fmt::Formatter<W>) -> fmt::Result {
        write!(f, " {self}")
    }
}

fn write_each<T: Listed, W: fmt::Write>(f: &mut fmt::Formatter<W>, list: &[T]) -> fmt::Result
    ensures { WritesOnOk W.write_str_gives f.old result (flat_map T.text list.now) f.new }
{
    for item in list {
        item.write(f)?;
    }
    Ok(())
}

fn life(live: bool) -> &'static str
    ensures { result.now ≡ life_text live }
{
    if live { "live" } else { "closed" }
}

fn write_page<W: fmt::Write>(f: &mut fmt::Formatter<W>, parcel: u16, page: &Page) -> fmt::Result
    ensures { WritesOnOk W.write_str_gives f.old result (page_text parcel (sheet page.now)) f.new }
{
    let area = page.area();
    if area == 0 {
        return writeln!(f, "parcel {parcel} not there");
    }
    let owner = page.owner();
    let life = life(page.live());
    writeln!(f, "parcel {parcel} owner {owner} area {area} {life}")?;
    write_each(f, page.standing())
}

fn write_open<W: fmt::Write>(f: &mut fmt::Formatter<W>, numbers: &[u16]) -> fmt::Result
    ensures { WritesOnOk W.write_str_gives f.old result (open_text numbers.now) f.new }
{
    if numbers.is_empty() {
        return write!(f, "open none");
    }
    write!(f, "open")?;
    write_each(f, numbers)
}

impl fmt::Display for Extract {
    ghost output = { λ x. Some (extract_text (content x)) };

    fn fmt<W: fmt::Write>(&self, f: &mut fmt::Formatter<W>) -> fmt::Result {
        write_page(f, self.parcel, &self.page)?;
        write_open(f, self.open.as_slice())
    }
}
