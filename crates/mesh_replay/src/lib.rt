//! The checker of a trace: whether it is that of a run of the network. It takes relays from the trace and judges them, reads what is
//! sent and compares it with what is due, and draws losses by itself. The command splits its input and tells the answer.
#![tactic(auto)]

mod answer;
mod checking;
mod command;
mod traffic;

pub use answer::Replay;
pub use checking::replay;
pub use command::{
    ReplayFault, inputs_split_once, replay_input, traces_are_runs, worked_inputs_are_split,
};
