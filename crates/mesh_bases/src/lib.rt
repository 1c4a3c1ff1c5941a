//! What a router holds: the information bases, what a message does to them, what the router sends of them, and what follows from them,
//! which is its MPRs, the rows that it advertises, and its routes (RFC 6130, and RFC 7181, section 17).
#![tactic(auto)]

mod advertise;
mod derived;
mod held;
mod laws;
mod reading;
mod relays;
mod sending;
mod start;

pub use advertise::advertised_rows;
pub use derived::Derived;
pub use held::{InformationBases, Outbox, Quiet};
pub use laws::routers_have_relays;
pub use reading::{FrameContent, ReadPacket, TypedFrame, TypedMessage, read_content};
pub use relays::{no_relays, relays_of};
pub use sending::{has_to_advertise, next_moment, send_hellos, send_tcs, tc_of_rows};
pub use start::opening;
