//! Scenarios that are made, and what is told of a run of one.

mod arcs;
mod emulation;
mod kind;
mod laws;
mod pairs;
mod routes;
mod scenario;
mod stated;
mod text;
mod words;

pub use crate::making::emulation::make;
pub use crate::making::kind::Kind;
pub use crate::making::laws::made_networks_tell;
pub use crate::making::scenario::made;
