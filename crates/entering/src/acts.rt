// What each kind of filing makes of the page that it names, by value: the page, or the reason for a rejection.
ghost use Rattle.std.specs.Prelude.{◌≡◌, Ok};
ghost use Rattle.std.specs.Option.{ok_or, option_map};
ghost use Rattle.std.specs.Result.{result_map_both};
ghost use Rattle.entries.specs.Sheet.{sheet};
ghost use Rattle.entering.specs.declared.outcome.Rejection.TheVariants.{NoEntry};
ghost use Rattle.entering.specs.Acts.{divisible, filled_by, if_owner, last, mergeable, transferred};

use crate::outcome::Rejection;
use entries::entry::{Entry, EntryName};
use entries::page::Page;

fn owned(page: &Page, owner: u32) -> Result<(), Rejection>
    ensures { result ≡ if_owner (sheet page.now) owner (Ok tt) }
{
    if page.owner() != owner {
        return Err(Rejection::NotOwner);
    }
    Ok(())
}

pub(crate) fn transferred(page: Page, owner: u32, to: u32) -> Result<Page, Rejection>
    ensures { result_map_both sheet (λ e. e) result ≡ transferred (sheet page) owner to }
{
    owned(&page, owner)?;
    Ok(page.with_owner(to))
}

// A charge or a reservation: a new entry comes last.
pub(crate) fn appended(page: Page, owner: u32, entry: Entry) -> Result<Page, Rejection>
    ensures { result_map_both sheet (λ e. e) result ≡ if_owner (sheet page) owner (last (sheet page) entry) }
{
    owned(&page, owner)?;
    page.append(entry).ok_or(Rejection::Full)
}

// The page after a change of one of its entries, or the reason that there is no such entry.
pub(crate) fn found(page: Option<Page>) -> Result<Page, Rejection>
    ensures { result_map_both sheet (λ e. e) result ≡ ok_or (option_map sheet page) NoEntry }
{
    page.ok_or(Rejection::NoEntry)
}

pub(crate) fn filled(
    page: Page,
    owner: u32,
    name: EntryName,
    amount: u64,
) -> Result<Page, Rejection>
    ensures { result_map_both sheet (λ e. e) result ≡ filled_by (sheet page) owner name.holder name.number amount }
{
    owned(&page, owner)?;
    found(page.fill(name, amount))
}

// Whether an owner may cut off so much of a parcel.
pub(crate) fn divisible(page: &Page, owner: u32, area: u32) -> Result<(), Rejection>
    ensures { result ≡ divisible (sheet page.now) owner area (Ok tt) }
{
    owned(page, owner)?;
    if area == 0 || u64::from(area) >= page.area() {
        return Err(Rejection::Area);
    }
    Ok(())
}

// Whether an owner may join these two parcels.
pub(crate) fn mergeable(
    parcel: u16,
    other: u16,
    page: &Page,
    other_page: &Page,
    owner: u32,
) -> Result<(), Rejection>
    ensures { result ≡ mergeable parcel other (sheet page.now) (sheet other_page.now) owner (Ok tt) }
{
    owned(page, owner)?;
    owned(other_page, owner)?;
    if parcel == other {
        return Err(Rejection::Itself);
    }
    if !page.same_entries(other_page) {
        return Err(Rejection::Unlike);
    }
    Ok(())
}
