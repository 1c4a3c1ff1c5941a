//! What a probe tells.
use mesh_atoms::Seq;

/// A frame's router and interface, by their numbers in the scenario.
#[derive(Clone, Copy, PartialEq, Eq)]
pub struct Sending {
    pub router: usize,
    pub iface: usize,
}

/// How far a probe came: the sequence number of its TC, the other routers that heard a frame of it, in ascending order, and the
/// frames that were sent, in order.
#[derive(Drop)]
pub struct Coverage {
    pub number: u16,
    pub reached: Seq<usize>,
    pub sends: Seq<Sending>,
}

/// What a probe comes to: there is no sequence number that no router has noted, or how far it came.
#[derive(Drop)]
pub enum Probe {
    NoNumber,
    Done(Coverage),
}
