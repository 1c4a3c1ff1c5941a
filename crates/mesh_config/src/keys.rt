//! What the tables of a TOML text say at their keys, or the refusal that stands in its place.

mod arrays;
mod fault;
mod parse;
pub mod refusal;
mod values;

pub use crate::keys::arrays::{
    address_at, addresses_at, array_at, array_or_none, endpoint_at, endpoints_at,
};
pub use crate::keys::fault::{ConfigFault, refused};
pub use crate::keys::parse::{LONGEST_SETTINGS, document};
pub use crate::keys::values::{
    found, known_keys, name_at, string_in, table_at, table_or, ticks, whole_at, whole_or,
};
