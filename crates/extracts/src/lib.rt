// The extract of a parcel: its page as it stands, and the open filings that touch it.
#![tactic(auto)]

pub mod error;
pub mod existing;
pub mod extract;
mod open;
pub mod text;
