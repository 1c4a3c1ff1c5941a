//! The router core: a router that hears frames, whose clock ticks, and which sends frames, as one step of the machine for each (RFC 6130
//! and RFC 7181).
#![tactic(auto)]

mod deferred;
mod deferring_router;
mod event;
mod router;
mod router_core;
mod steps;
mod views;

pub use deferred::DeferredCore;
pub use deferring_router::DeferringRouter;
pub use mesh_bases::{
    InformationBases, Outbox, Quiet, TypedFrame, has_to_advertise, next_moment, send_hellos,
    send_tcs, tc_of_rows,
};
pub use mesh_machine::{
    ArcsOut, Arrival, Draws, Fate, Frame, Heard, Read, RouterView, Said, leaving_of, loses,
    sender_of, ways_of,
};
pub use mesh_routes::graph_of;
pub use router::Core;
pub use router_core::RouterCore;
