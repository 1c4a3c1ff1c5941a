//! What an emulated network sends, what it counts, and what it tells of its events.
use crate::{Addr4, Bytes, Seq};

/// How many frames were sent, and how many deliveries of them were made and lost. Each count goes round at 2^64.
#[derive(Clone, Copy, PartialEq, Eq)]
pub struct Counts {
    pub sent: u64,
    pub delivered: u64,
    pub lost: u64,
}

/// A frame that a router sends on one of its interfaces, and the numbers of the arcs on which it is lost, in ascending order.
#[derive(Drop)]
pub struct Emission {
    pub iface: usize,
    pub frame: Bytes,
    pub lost: Seq<usize>,
}

/// An event of an emulated network: its moment in ticks of 1/8192 s, the number of its router, what that hears (the interface, the
/// sender, the octets) or `None` where its clock ticks, and what it sends, in order.
#[derive(Drop)]
pub struct NetEvent {
    pub moment: u64,
    pub router: usize,
    pub heard: Option<(usize, Addr4, Bytes)>,
    pub sent: Seq<Emission>,
}
