//! Tables of tuples that expire, and which table each kind of tuple of a router stands in.
#![tactic(auto)]

mod bases;
mod distinct;
mod index;
mod keyed;
mod keys;
mod list_table;
mod no_table;
mod swept_table;
mod table;

pub use bases::{Bases, NoBases, PlainBases};
pub use distinct::{keys_are_distinct, map_keys_are_distinct};
pub use index::{IndexTable, IndexedBases};
pub use keyed::{expire_keyed, put_keyed, remove_keyed};
pub use list_table::ListTable;
pub use no_table::NoTable;
pub use swept_table::SweptTable;
pub use table::{Key, PlacedTable, Table};
