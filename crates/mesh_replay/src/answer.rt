//! What is answered to a trace.

/// The answer to a trace: that it is whole, with the number of its lines; or the number of the first line that doesn't fit those
/// before it, counted from 1, or of the line behind the last where each fits.
#[derive(Clone, Copy, PartialEq, Eq)]
pub enum Replay {
    Yes { lines: u64 },
    No { line: u64 },
}
