//! The neighbourhood of a router: its links, neighbours, lost neighbours and 2-hop neighbours over all interfaces (RFC 6130,
//! and RFC 7181, sections 8, 9 and 15).
#![tactic(auto)]

mod by_key;
mod drops;
mod expire;
mod follow;
mod full;
mod hearing;
mod interfaces;
mod judge;
mod keys;
mod laws;
mod near;
mod near_addresses;
mod nhdp;
mod notes;
mod repeating;
mod say;
mod sending_link;
mod sets;
mod staying;
mod take;
mod two_hop_rows;

pub use laws::advertised_rows_are_few;
pub use mesh_hello::receive_fault;
pub use nhdp::Nhdp;
pub use take::HelloTaken;
