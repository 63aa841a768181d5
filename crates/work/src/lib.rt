// The registry: it takes filings in, and works them by the clerks' rule.
#![tactic(auto)]

pub mod asking;
pub mod calls;
mod doing;
mod filing_in;
pub mod laws;
pub mod mark;
pub mod memory;
pub mod registry;
pub mod showing;
mod way;
