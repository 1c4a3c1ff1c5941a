//! HELLOs over the tables of a neighbourhood: what one tells the router that hears it, and what one has to say (RFC 6130,
//! sections 11 and 12, and RFC 7181, section 15).
#![tactic(auto)]

mod lists;
mod saying;
mod told;

pub use lists::{ascending, put_table_keys};
pub use saying::{HasSaid, HelloBasis, make_hello};
pub use told::{HelloInfo, own_addresses, receive_fault, tell};
