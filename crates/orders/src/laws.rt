// Each function carries the theorems that its contract names, for pages, acts and outcomes of any types.
ghost use Rattle.orders.specs.Laws.{Exchange, ExchangedIsLawful, LawfulIsExchanged, LawfulOrdersAgree};
ghost use Rattle.orders.specs.Laws.{AcceptedGoes, AcceptedIsDone, AcceptedIsLawful, FirstIsReady, GoesIsAccepted, LawfulIsAccepted, NeverStuck};
ghost use Rattle.orders.specs.Laws.{OnlyDoneCounts, OrderOfWorkUnseen, UntouchedIsFinal, WorkedInOrder};
ghost use Rattle.orders.specs.Steps.{Acts, Local};

// Neighbours that share no page may be exchanged; lawful orders are just what comes of that, and all agree.
pub fn lawful_orders_agree<Page, Act, Outcome>()
    ensures exchange { (w : Acts Page Act Outcome) → Local w → Exchange w }
    ensures lawful { (w : Acts Page Act Outcome) → Local w → ExchangedIsLawful w }
    ensures exchanged { (w : Acts Page Act Outcome) → Local w → LawfulIsExchanged w }
    ensures agree { (w : Acts Page Act Outcome) → Local w → LawfulOrdersAgree w }
{}

// The clerks' rule lets through just the lawful orders, and the first open act always.
pub fn rule_is_lawful<Page, Act, Outcome>()
    ensures accepted { (w : Acts Page Act Outcome) → Local w → LawfulIsAccepted w }
    ensures lawful { (w : Acts Page Act Outcome) → Local w → AcceptedIsLawful w }
    ensures goes { (w : Acts Page Act Outcome) → Local w → GoesIsAccepted w }
    ensures only { (w : Acts Page Act Outcome) → Local w → AcceptedGoes w }
    ensures done { (w : Acts Page Act Outcome) → Local w → AcceptedIsDone w }
    ensures stuck { (w : Acts Page Act Outcome) → Local w → NeverStuck w }
    ensures first { (w : Acts Page Act Outcome) → Local w → FirstIsReady w }
{}

// From an opening on, by any interleaving of filing and asking, every page and outcome is that of the order of filing,
// and of two acts that share a page the one filed first was worked first.
pub fn order_of_work_unseen<Page, Act, Outcome>()
    ensures as_filed { (w : Acts Page Act Outcome) → Local w → OrderOfWorkUnseen w }
    ensures decided { (w : Acts Page Act Outcome) → Local w → OnlyDoneCounts w }
    ensures in_order { (w : Acts Page Act Outcome) → Local w → WorkedInOrder w }
    ensures settled { (w : Acts Page Act Outcome) → Local w → UntouchedIsFinal w }
{}
