// The day book: the file that the programs read, taken apart.
#![tactic(auto)]

pub mod checker;
pub mod error;
pub mod file;
pub mod laws;
pub mod rows;
