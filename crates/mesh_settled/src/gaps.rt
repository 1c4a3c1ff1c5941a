//! The gaps of one router of a network: keys at which what it holds isn't what the network has at present.

mod compare;
mod found;
mod joints;
mod law;
mod links;
mod metrics;
mod neighbours;
mod owned;
mod peers;
mod site;
mod topics;
mod two_hops;

pub use crate::gaps::found::{Found, lesser};
pub use crate::gaps::joints::router_at;
pub use crate::gaps::law::{gaps_differ, no_gap_is_settled};
pub use crate::gaps::links::link_gap;
pub use crate::gaps::neighbours::neighbour_gap;
pub use crate::gaps::site::RouterAt;
pub use crate::gaps::topics::{TopologyKind, topology_gap};
pub use crate::gaps::two_hops::two_hop_gap;
