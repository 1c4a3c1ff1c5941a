//! Neighbours and lost neighbours (RFC 6130, section 8, and RFC 7181, section 9).
#![tactic(auto)]

mod ends;
mod losts;
mod near;
mod neighbours;
mod owners;
mod parts;
mod replacing;
mod summary;
mod two_hops;

pub use losts::LostSet;
pub use near::Near4;
pub use neighbours::{LinkNote, NeighbourSet};
pub use two_hops::TwoHopSet;
