//! The frames that a router sends (RFC 5444).
use mesh_atoms::Bytes;

/// A frame, and the interface on which it is sent.
#[derive(Drop)]
pub struct Frame {
    pub iface: usize,
    pub bytes: Bytes,
}
