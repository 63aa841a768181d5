// Orders of work, for acts of whatever kinds: proved once, from what it is for an act to be local.
#![tactic(auto)]

pub mod laws;
