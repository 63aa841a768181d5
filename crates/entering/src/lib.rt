// Entering a filing: what it makes of the pages, or why it is rejected.
#![tactic(auto)]

mod acts;
pub mod enter;
pub mod outcome;
