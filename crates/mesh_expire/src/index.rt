//! A table of tuples that expire, with an index of its keys and one of its moments, and the bases that are made of it.

mod bases;
mod index_table;
mod moments;

pub use crate::index::bases::IndexedBases;
pub use crate::index::index_table::IndexTable;
