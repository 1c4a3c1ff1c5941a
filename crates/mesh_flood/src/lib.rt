//! Which messages a router has seen, and whether it processes and forwards a message (RFC 7181, sections 11 and 14).
#![tactic(auto)]

mod flood;
mod set;
mod verdict;

pub use flood::Flood;
pub use verdict::{Forward, Heading, Process, Verdict};
