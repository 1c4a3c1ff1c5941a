//! Numbers by their codes: times, metrics, and sequence numbers that go round.

mod codes;
mod metric;

pub use crate::codes::codes::{seq_newer, time_at, time_code_at_least, time_of};
pub use crate::codes::metric::Metric;
