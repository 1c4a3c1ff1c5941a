//! The graphs of relays, of routes and of radio.
use crate::{Addr4, Metric, NetAddr, Seq};

/// A neighbour in the choice of relays: the cost of its link, and its willingness up to 15 (RFC 7181, section 18.2).
#[derive(Clone, Copy)]
pub struct Near {
    pub id: Addr4,
    pub cost: u32,
    pub will: u8,
}

/// An address that is reached with no relay.
#[derive(Clone, Copy)]
pub struct Direct {
    pub addr: Addr4,
    pub cost: u32,
}

/// An address that a neighbour leads to, and what that neighbour adds to its own cost.
#[derive(Clone, Copy)]
pub struct Far {
    pub via: Addr4,
    pub addr: Addr4,
    pub cost: u32,
}

/// What relays are chosen from (RFC 7181, section 18.2).
#[derive(Drop)]
pub struct NeighbourGraph {
    pub near: Seq<Near>,
    pub direct: Seq<Direct>,
    pub far: Seq<Far>,
}

/// An arc from one node to another, at a cost.
#[derive(Clone, Copy)]
pub struct Arc4 {
    pub from: NetAddr,
    pub to: NetAddr,
    pub metric: u32,
}

/// What routes are found in (RFC 7181, section 19.1).
#[derive(Drop)]
pub struct Graph {
    pub arcs: Seq<Arc4>,
}

/// A node that is reached, the least cost of a way to it, and the node before it.
#[derive(Clone, Copy, PartialEq, Eq)]
pub struct PathRow {
    pub node: NetAddr,
    pub metric: u64,
    pub parent: NetAddr,
}

/// The nodes that are reached from one node, in ascending order. The row of that node itself has cost 0 and is its own
/// parent.
#[derive(Drop)]
pub struct Certificate {
    pub rows: Seq<PathRow>,
}

/// A routing tuple (RFC 7181, section 10.5): by which address on which interface the destination is reached, at which
/// cost, and the node before it on the way.
#[derive(Clone, Copy)]
pub struct Route {
    pub dest: NetAddr,
    pub next: Addr4,
    pub iface: usize,
    pub metric: u64,
    pub parent: NetAddr,
}

/// Two interfaces of two routers that hear each other, and the metric from the first to the second.
#[derive(Clone, Copy)]
pub struct Pair {
    pub from: usize,
    pub from_iface: usize,
    pub to: usize,
    pub to_iface: usize,
    pub metric: Metric,
}

/// The interfaces of a scenario that hear each other, one pair for each direction, and for each router the least number
/// among its own and those of the routers that chains of such interfaces join it with.
#[derive(Drop)]
pub struct RadioGraph {
    pub pairs: Seq<Pair>,
    pub parts: Seq<usize>,
}
