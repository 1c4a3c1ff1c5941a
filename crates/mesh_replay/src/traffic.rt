//! What flies between the routers of a trace: the arcs on which frames go out, the draws that lose them, and the order in which they are
//! heard.

mod air;
mod traffic;

pub(crate) use crate::traffic::air::Delivered;
pub(crate) use crate::traffic::traffic::TraceTraffic;
