//! How a message spreads over the routers of a network: the flood of a TC as runs of the routers' machines, its laws, and the probe of a
//! network by such a flood, with its text.
#![tactic(auto)]

mod coverage;
mod flooding;
mod frames;
mod laws;
mod lines;
mod numbers;
mod probing;
mod reached;
mod transmission;

pub use coverage::{Coverage, Probe, Sending};
pub use laws::{floods_reach, probes_reach};
pub use lines::probe_text;
pub use probing::probe;
