// Entering one filing on the pages in lent words: a decision over the kinds, each of which checks and then writes.
ghost use Rattle.std.specs.Prelude.{◌≡◌, ◌+◌, ◌<◌, ◌≤◌, true, IfOk, Ok, OnOk};
ghost use Rattle.std.specs.Result.{result_map_both};
ghost use Rattle.entries.specs.Sheet.{sheet};
ghost use Rattle.pages.specs.Register.{page_at, put_kept, put_page, room};
ghost use Rattle.filings.specs.Touches.{first_made};
ghost use Rattle.filings.specs.declared.filing.Filing.TheVariants.{Subdivide, Merge};
ghost use Rattle.entering.specs.Acts.{if_live};
ghost use Rattle.entering.specs.Entering.{act, entering, register_entered, words_entered, Changed, Done};

use crate::acts::{appended, divisible, filled, found, mergeable, transferred};
use crate::outcome::{Outcome, Rejection};
use entries::entry::{Entry, EntryName};
use entries::page::Page;
use filings::filed::Filed;
use filings::filing::Filing;
use pages::refusal::{Lent, Refusal};
use pages::register::{pages_room, read_page, write_page};

// The lent words while a filing is entered, with room for the two parcels that it may make.
#[derive(Drop)]
struct Desk<'a> {
    words: &'a mut [u64],
    filed: Filed,
    ghost room: { first_made filed.parcels filed.number + 2 ≤ room words.now },
}

impl Desk<'_> {
    fn first_made(&self) -> usize
        ensures { result ≡ first_made self.now.filed.parcels self.now.filed.number }
    {
        self.filed.first_made() as usize
    }

    // The page of a parcel that is there and live.
    #[tactic(auto, using(pages::proofs::Registers::live_within))]
    fn live_page(&self, parcel: u16) -> Result<Page, Rejection>
        ensures page { result_map_both sheet (λ e. e) result ≡ if_live (page_at self.now.words.now parcel) (Ok (page_at self.now.words.now parcel)) }
        ensures read { IfOk result (λ page. sheet page ≡ page_at self.now.words.now parcel) }
        ensures live { OnOk result ((page_at self.now.words.now parcel).live ≡ true) }
        ensures within { OnOk result (parcel < room self.now.words.now) }
    {
        let page = read_page(self.words, usize::from(parcel));
        if !page.live() {
            return Err(Rejection::NotLive);
        }
        Ok(page)
    }

    fn write(&mut self, parcel: usize, page: Page)
        ensures words { self.new.words.now ≡ put_page self.old.words.now parcel (sheet page) }
        ensures register { page_at self.new.words.now ≡ put_kept (room self.old.words.now) parcel (sheet page) (page_at self.old.words.now) }
        ensures room { room self.new.words.now ≡ room self.old.words.now }
        ensures same { self.new.words.ghost_name ≡ self.old.words.ghost_name }
    {
        write_page(self.words, parcel, page);
    }

    // Writes what an act makes of the page of a parcel, or hands on why nothing is made.
    fn change<F: FnOnce(Page) -> Result<Page, Rejection>>(
        &mut self,
        parcel: u16,
        act: F,
    ) -> Result<(), Rejection>
        requires { F.IsAlwaysCallable act }
        ensures { Changed (F.post act) parcel self.old.words result self.new.words }
    {
        let page = self.live_page(parcel)?;
        let made = act(page)?;
        self.write(usize::from(parcel), made);
        Ok(())
    }

    // The parts are the parcels `first` and the next; both go on with the entries of the parcel, which is closed.
    fn subdivide(&mut self, parcel: u16, owner: u32, area: u32) -> Result<(), Rejection>
        ensures { Done (act (first_made self.old.filed.parcels self.old.filed.number) 0 (Subdivide parcel owner area) (page_at self.old.words.now)) self.old.words result self.new.words }
    {
        let page = self.live_page(parcel)?;
        divisible(&page, owner, area)?;
        let first = self.first_made();
        let rest = page.area() - u64::from(area);
        self.write(usize::from(parcel), page.closed());
        self.write(first, page.made_of(owner, u64::from(area)));
        self.write(first + 1, page.made_of(owner, rest));
        Ok(())
    }

    // The whole is the parcel `first`; it goes on with the entries that both have, and both are closed.
    fn merge(&mut self, parcel: u16, other: u16, owner: u32) -> Result<(), Rejection>
        ensures { Done (act (first_made self.old.filed.parcels self.old.filed.number) 0 (Merge parcel other owner) (page_at self.old.words.now)) self.old.words result self.new.words }
    {
        let page = self.live_page(parcel)?;
        let other_page = self.live_page(other)?;
        mergeable(parcel, other, &page, &other_page, owner)?;
        let first = self.first_made();
        let area = page.area().saturating_add(other_page.area());
        self.write(usize::from(parcel), page.closed());
        self.write(usize::from(other), other_page.closed());
        self.write(first, page.made_of(owner, area));
        Ok(())
    }

    fn enter(&mut self) -> Result<(), Rejection>
        ensures { Done (act (first_made self.old.filed.parcels self.old.filed.number) self.old.filed.number self.old.filed.filing (page_at self.old.words.now)) self.old.words result self.new.words }
    {
        let made_by = self.filed.number;
        match self.filed.filing {
            Filing::Transfer { parcel, owner, to } => {
                self.change(parcel, |page| transferred(page, owner, to))
            }
            Filing::Charge {
                parcel,
                owner,
                holder,
                amount,
            } => {
                let name = EntryName {
                    number: made_by,
                    holder,
                };
                let entry = Entry::charge(name, amount);
                self.change(parcel, |page| appended(page, owner, entry))
            }
            Filing::Reserve {
                parcel,
                owner,
                holder,
            } => {
                let name = EntryName {
                    number: made_by,
                    holder,
                };
                let entry = Entry::reservation(name);
                self.change(parcel, |page| appended(page, owner, entry))
            }
            Filing::Fill {
                parcel,
                owner,
                holder,
                number,
                amount,
            } => {
                let name = EntryName { number, holder };
                self.change(parcel, |page| filled(page, owner, name, amount))
            }
            Filing::Release {
                parcel,
                holder,
                number,
            } => {
                let name = EntryName { number, holder };
                self.change(parcel, |page| found(page.release(name)))
            }
            Filing::Postpone {
                parcel,
                holder,
                number,
            } => {
                let name = EntryName { number, holder };
                self.change(parcel, |page| found(page.postpone(name)))
            }
            Filing::Subdivide {
                parcel,
                owner,
                area,
            } => self.subdivide(parcel, owner, area),
            Filing::Merge {
                parcel,
                other,
                owner,
            } => self.merge(parcel, other, owner),
        }
    }
}

// Enters a filing, or says why it is rejected and changes nothing.
// Memory that has no room for what the filing may make is refused, and is as it was.
#[tactic(auto, unfolding(crate::specs::Entering::outcome, crate::specs::Entering::entered))]
pub fn enter(words: &mut [u64], filed: Filed) -> Result<Outcome, Refusal>
    ensures answer { result ≡ entering filed.parcels filed.number filed.filing words.old }
    ensures words { words.new ≡ words_entered filed.parcels filed.number filed.filing words.old }
    ensures register { page_at words.new ≡ register_entered filed.parcels filed.number filed.filing words.old }
{
    if pages_room(words) < filed.first_made() as usize + 2 {
        return Err(Refusal::Short(Lent::Pages));
    }
    let mut desk = Desk { words, filed };
    Ok(Outcome::from(desk.enter()))
}
