// The entries of a parcel's page in their rank, best first, and what each act on them makes of the page.
#![tactic(auto)]

pub mod acts;
pub mod entry;
pub mod laws;
pub mod page;
pub mod parcel;
pub mod read;
