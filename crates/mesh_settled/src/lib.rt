//! Whether a network is settled, and the first gap where it isn't.
#![tactic(auto)]

mod gaps;
mod law;
mod report;

pub use gaps::{
    Found, RouterAt, TopologyKind, gaps_differ, lesser, link_gap, neighbour_gap, no_gap_is_settled,
    router_at, topology_gap, two_hop_gap,
};
pub use law::settled_routers_lead;
pub use mesh_atoms::{Gap, GapKey, GapKind, GapValue};
pub use mesh_machine::{RouterView, router_name};
pub use report::settled;
