//! What the trace of an emulated network may say: its lines, where it stands after some of them, when it is whole, and which octets may
//! be sent for a HELLO or a TC.
#![tactic(auto)]

mod positions;
mod reading;
mod spelling;

pub use positions::{all_else_is_fixed, lines_lead_alike, runs_are_whole, whole_traces_end};
pub use reading::{Reader, worked_texts_have_lines};
pub use spelling::{spells_hello, spells_tc};
