//! The routes of a router (RFC 7181, section 19): from its information bases, the least walks over the graph that they give,
//! and the next hop of each.
#![tactic(auto)]

mod arcs;
mod bases;
mod choice;
mod firsts;
mod hops;
mod laws;
mod owners;
mod routes;
mod rows;
mod ways;

pub use choice::graph_of;
pub use hops::{
    Flooding, NeighbourLink, Purpose, Routing, RoutingSet, SymmetricNeighbour, best_way,
    is_outside, known_arc, owner_at, owner_by, two_hop_arc, way_of,
};
pub use laws::{routers_have_routes, routes_and_graphs_stay};
pub use mesh_atoms::Route;
pub use routes::routes_of;
