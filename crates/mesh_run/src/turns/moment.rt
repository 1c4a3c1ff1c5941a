//! When a turn is.

/// The moment of a turn, below 2^62, and the end of the run, up to which routes may be put off: both in ticks of 1/8192 s.
#[derive(Clone, Copy)]
pub struct TurnMoment {
    pub now: u64,
    pub end: u64,
}
