// The laws of entering one filing, each asked for here so that no check passes without its proof. Nothing is computed.
ghost use Rattle.steps.specs.Areas.{LandKept};
ghost use Rattle.steps.specs.Entries.{Amounts, NewEntries, Order};
ghost use Rattle.steps.specs.Example.{Example};
ghost use Rattle.steps.specs.Laws.{ByHolder, ByOwner, ClosedStays, RejectedStays};
ghost use Rattle.steps.specs.Opening.{OpensWell};
ghost use Rattle.steps.specs.Pages.{WholePages};
ghost use Rattle.steps.specs.Ranks.{OpensWithoutEntries, RankKept};
ghost use Rattle.steps.specs.Reasons.{FirstReason};
ghost use Rattle.steps.specs.Run.{FromAnOpeningOn};
ghost use Rattle.steps.specs.Sound.{StaysSound};

// Just the first reason that holds is told, and a filing is entered just where none holds.
pub fn first_reason()
    ensures { FirstReason }
{}

// A rejected filing changes nothing, and no filing a closed page; only its owner parts with a parcel, and only its holder with an entry.
pub fn only_who_may()
    ensures rejected { RejectedStays }
    ensures closed { ClosedStays }
    ensures owner { ByOwner }
    ensures holder { ByHolder }
{}

// What a filing of each kind leaves of the pages, where it is entered.
pub fn whole_pages()
    ensures { WholePages }
{}

// An entry stays as it is, and ranks where it ranked, until its holder signs for less or its reservation is filled; a new one is signed for by the owner.
pub fn entries_kept()
    ensures amounts { Amounts }
    ensures added { NewEntries }
    ensures order { Order }
{}

// At each filing there are at most 32 entries on a page, under distinct numbers of earlier filings: what one leaves so, the next finds so.
pub fn pages_stay_sound()
    ensures { StaysSound }
{}

// No land is lost or won.
pub fn land_kept()
    ensures { LandKept }
{}

// Where the last two start: at an opening.
pub fn opens_well()
    ensures { OpensWell }
{}

// What the definitions come to on seven filings.
pub fn example()
    ensures { Example }
{}

// All of that, from an opening on, before each filing of whatever was filed.
pub fn from_an_opening_on()
    ensures { FromAnOpeningOn }
{}

// An entry that never let another pass has only earlier ones before it, from any opening on.
pub fn rank_kept()
    ensures rank { RankKept }
    ensures opening { OpensWithoutEntries }
{}
