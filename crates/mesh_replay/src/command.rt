//! The command `replay`: its input is split into a scenario and a trace, the trace is checked, and the answer is told.

mod answer;
mod input;
mod laws;
mod marks;
mod parts;

pub use crate::command::input::{ReplayFault, replay_input};
pub use crate::command::laws::{inputs_split_once, traces_are_runs, worked_inputs_are_split};
