//! The frames of an emulated network: the arcs on which they go out, the draws that lose them, and the order in which they are heard.

mod air;
mod traffic;

pub use crate::traffic::air::{ArrivedFrame, FramesInAir};
pub use crate::traffic::traffic::RadioTraffic;
pub(crate) use crate::traffic::traffic::send_all;
