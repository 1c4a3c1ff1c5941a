//! The way of a data packet, hop by hop over the routes of a network's routers: where it ends and what it costs, with the laws of
//! such trips.
#![tactic(auto)]

mod decisions;
mod dotted;
mod laws;
mod lines;
mod sending;
mod trip;

pub use laws::settled_trips;
pub use lines::trip_text;
pub use sending::send;
pub use trip::{End, Hop, Trip};
