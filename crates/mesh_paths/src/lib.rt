//! The least walks of a router's graph (RFC 7181, section 19), the certificate that shows them, the radio graph of a
//! scenario, and the law of the routes of a settled network.
#![tactic(auto)]

mod certificate;
mod frontier;
mod joined;
mod radio;
mod settled;

pub use certificate::{check, every_graph_has_certificate, one_certificate};
pub use frontier::search;
pub use joined::is_joined;
pub use mesh_atoms::{Arc4, Certificate, Graph, Pair, PathRow, RadioGraph};
pub use radio::radio_graph;
pub use settled::{scenarios_are_sound, settled_routes};
