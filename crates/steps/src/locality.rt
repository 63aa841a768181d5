// The one law that everything on orders of work rests on.
ghost use Rattle.steps.specs.Acting.{FilingsAreLocal};

pub fn filings_are_local()
    ensures { FilingsAreLocal }
{}
