// The pages of the register: what an opening is refused for, and the numbers that the bytes of a request stand for.
#![tactic(auto)]

pub mod bytes;
pub mod opening;
pub mod refusal;
pub mod register;
pub mod unknown;
pub mod words;
