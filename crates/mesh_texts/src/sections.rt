//! The section of a router: its links and neighbours in order, its relays and its routes.

mod order;
mod section;

pub use crate::sections::section::put_section;
