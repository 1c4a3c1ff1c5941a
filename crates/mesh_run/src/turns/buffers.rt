//! The buffers that turns work with.
use mesh_core::Outbox;

/// A buffer with room for the longest frame, 65,507 octets, for what is heard; and an outbox, for what is sent.
#[derive(Drop)]
pub struct Buffers {
    pub frame: Vec<u8>,
    pub outbox: Outbox,
}
