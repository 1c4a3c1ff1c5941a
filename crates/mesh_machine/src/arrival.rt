//! How a frame comes (RFC 5444).
use mesh_atoms::Addr4;

/// How a frame comes: at that moment, in ticks of 1/8192 s, on that interface, from that sender.
#[derive(Clone, Copy)]
pub struct Arrival {
    pub now: u64,
    pub iface: usize,
    pub sender: Addr4,
}
