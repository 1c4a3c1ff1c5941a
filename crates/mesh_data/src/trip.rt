//! The trip of a data packet.
use mesh_atoms::Seq;

/// How a trip ends: at a router that has the packet's address, or delivers it to a network of its own; where neither a route nor
/// an own network has the address; where no arc leads to the next hop; after as many hops as there are routers.
#[derive(Clone, Copy, PartialEq, Eq)]
pub enum End {
    Arrived,
    NoRoute,
    NoArc,
    TooFar,
}

/// A hop from interface `iface` of router `from` to router `to`, by their numbers in the scenario, at the arc's metric.
#[derive(Clone, Copy, PartialEq, Eq)]
pub struct Hop {
    pub from: usize,
    pub iface: usize,
    pub to: usize,
    pub metric: u32,
}

/// The hops of a packet in order, the router that it comes to last, how it ends there, and what it cost: the sum of the hops'
/// metrics, and the metric of the network where it was delivered to one.
#[derive(Drop)]
pub struct Trip {
    pub hops: Seq<Hop>,
    pub last: usize,
    pub end: End,
    pub metric: u64,
}
