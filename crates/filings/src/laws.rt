// The laws of filings, each asked for here so that no check passes without its proof. Nothing is computed.
ghost use Rattle.filings.specs.Laws.{Keeping, Limits, MadeApart, Sharing, Touching};

pub fn pages_touched()
    ensures sharing { Sharing }
    ensures touching { Touching }
    ensures made { MadeApart }
{}

pub fn filings_kept()
    ensures { Keeping }
{}

pub fn amounts_read()
    ensures { Limits }
{}
