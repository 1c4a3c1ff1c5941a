//! What a HELLO tells the router that hears it: whether it breaks a rule there, whose interface sent it, and what it says of the
//! receiver (RFC 6130, sections 12.1, 12.2 and 12.5, and RFC 7181, section 15.3).

mod mine;
mod receive;
mod sender;
mod telling;

pub use crate::told::receive::receive_fault;
pub use crate::told::telling::{HelloInfo, own_addresses, tell};
