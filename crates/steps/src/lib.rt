// What entering one filing does to the pages, and to nothing else: laws of the definitions, with nothing computed.
#![tactic(auto)]

pub mod laws;
pub mod locality;
