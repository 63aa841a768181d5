// What is proved of orders of work once for acts of any kind, here of filings: each function carries the theorems that its contract names.
ghost use Rattle.std.specs.Prelude.{ℕ};
ghost use Rattle.orders.specs.Laws.{AcceptedIsLawful, Exchange, ExchangedIsLawful, LawfulIsAccepted, LawfulIsExchanged, LawfulOrdersAgree};
ghost use Rattle.steps.specs.Acting.{acts};

// Neighbours that share no page may be exchanged; lawful orders are just what comes of that, and all agree on pages and outcomes.
pub fn lawful_orders_agree()
    ensures exchange { (P : ℕ) → Exchange (acts P) }
    ensures lawful { (P : ℕ) → ExchangedIsLawful (acts P) }
    ensures exchanged { (P : ℕ) → LawfulIsExchanged (acts P) }
    ensures agree { (P : ℕ) → LawfulOrdersAgree (acts P) }
{}

// Of all that was filed, just the lawful orders are accepted to their end.
pub fn rule_is_lawful()
    ensures accepted { (P : ℕ) → LawfulIsAccepted (acts P) }
    ensures lawful { (P : ℕ) → AcceptedIsLawful (acts P) }
{}
