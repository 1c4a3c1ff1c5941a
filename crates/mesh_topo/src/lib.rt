//! The topology that TCs tell (RFC 7181, section 10).
#![tactic(auto)]

mod advertised;
mod take;
mod tc_sets;
mod topology;

pub use advertised::{PartSpan, Selector, parts, tc_rows};
pub use tc_sets::{KeyedSet, KeyedTuple, TopologyTuple};
pub use topology::{TcTaken, Topology};
