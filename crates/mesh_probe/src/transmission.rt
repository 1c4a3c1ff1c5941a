//! The frames of a flood.
use mesh_machine::Frame;

/// A frame, and the router that sends it.
#[derive(Drop)]
pub(crate) struct Transmission {
    pub(crate) router: usize,
    pub(crate) frame: Frame,
}
