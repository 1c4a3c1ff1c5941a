//! The sets of tuples that TCs give (RFC 7181, section 10): one set of any kind of tuple, with its keys in order, and what a TC
//! does to it (section 16.3.3).

mod keyed_set;
mod outdated;
mod tuple;

pub use crate::tc_sets::keyed_set::KeyedSet;
pub use crate::tc_sets::tuple::{KeyedTuple, TopologyTuple};
