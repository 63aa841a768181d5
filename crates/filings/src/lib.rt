// Filings: how the bytes of one are read, how it is kept under its number, and which pages it touches.
#![tactic(auto)]

pub mod filed;
pub mod filing;
pub mod kind;
pub mod laws;
pub mod read;
pub mod slots;
pub mod taking;
pub mod touched;
