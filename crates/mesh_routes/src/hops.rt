//! What one tuple of a router's bases gives to its graphs and its routes (RFC 7181, sections 18 and 19): whose an address is, the
//! way by a link, the arc of a tuple, what a neighbour costs. What is the router's own, and the next hop by a set of routes.

mod arcs;
mod costs;
mod own;
mod owners;
mod set;
mod ways;

pub use crate::hops::arcs::{known_arc, two_hop_arc};
pub use crate::hops::costs::{Flooding, Purpose, Routing};
pub use crate::hops::own::is_outside;
pub use crate::hops::owners::{SymmetricNeighbour, owner_at, owner_by};
pub use crate::hops::set::RoutingSet;
pub use crate::hops::ways::{NeighbourLink, best_way, way_of};
