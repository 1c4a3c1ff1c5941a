//! Whether octets may be sent for a HELLO or a TC, however they are spelled.

mod brief;
mod hello;
mod parts;
mod sole;
mod tc;

pub use crate::spelling::hello::spells_hello;
pub use crate::spelling::tc::spells_tc;
