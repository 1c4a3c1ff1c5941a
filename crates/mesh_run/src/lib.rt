//! A run of a router over a network: what its input states is attached, made, done turn by turn, and told.
#![tactic(auto)]

mod fault;
mod job;
mod report;
mod router;
mod router_of_run;
mod turns;

pub use fault::RunFault;
pub use job::run;
pub use turns::{Ended, Tally, attach_all, do_turns, turns_are_runs};
