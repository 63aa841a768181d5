// What the programs do between reading and printing. Their mains only call these, so that each can be run on more than one input.
#![tactic(auto)]

mod command;
pub mod ending;
pub mod extract;
mod line;
mod office;
mod program;
pub mod working;
