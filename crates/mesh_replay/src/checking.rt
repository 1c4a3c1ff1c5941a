//! The checking of a trace, event by event and line by line.

mod case;
mod checked;
mod events;
mod frames;
mod hellos;
mod lines;
mod next;
mod octets;
mod opening;
mod relays;
mod renewal;
mod router;
mod scene;
mod step;
mod tcs;
mod whole;
mod words;

pub use crate::checking::whole::replay;
