//! The turns of a router over a network: its interfaces are attached, and then it does what a clock and an air tell it.

mod attach;
mod buffers;
mod events;
mod hand;
mod laws;
mod listen;
mod moment;
mod tally;
mod turn;
mod turns;

pub use crate::turns::attach::attach_all;
pub use crate::turns::laws::turns_are_runs;
pub use crate::turns::tally::{Ended, Tally};
pub use crate::turns::turns::do_turns;
