//! 2-hop neighbours (RFC 6130, section 7.2, and RFC 7181, section 8.2).

mod dropping;
mod two_hops;

pub use crate::two_hops::two_hops::TwoHopSet;
