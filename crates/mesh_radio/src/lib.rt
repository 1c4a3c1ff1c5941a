//! The emulated network: routers, frames in the air between them, and the events of both in order; and that each router of it is a
//! run of the machine.
#![tactic(auto)]

mod deferring;
mod events;
mod net;
mod occurrences;
mod opening;
mod routers;
mod scene;
mod step;
mod traffic;

pub use mesh_atoms::{Counts, Emission, NetEvent};
pub use mesh_core::{Core, RouterCore, RouterView};
pub use mesh_machine::{Draws, machines, routers_end_together, words_of};
pub use net::Net;
pub use traffic::{ArrivedFrame, FramesInAir, RadioTraffic};
