//! What a router sends when its clock ticks: the HELLOs of its interfaces, and TCs for its rows (RFC 6130, section 11, and RFC 7181,
//! section 16).

mod hellos;
mod moments;
mod tcs;

pub use crate::sending::hellos::send_hellos;
pub use crate::sending::moments::next_moment;
pub use crate::sending::tcs::{has_to_advertise, send_tcs, tc_of_rows};
