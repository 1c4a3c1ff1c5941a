//! What is counted in turns.

/// What is counted of an air: the frames that were heard, also those that the router refused; the sends that were done; and the
/// hearings and sends that failed.
#[derive(Clone, Copy)]
pub struct Tally {
    pub heard: u64,
    pub sent: u64,
    pub faults: u64,
}

/// What is known of turns at their end: how many were begun, the greatest moment that the clock told, in ticks of 1/8192 s, and 0
/// where it told none, and what was counted of the air.
#[derive(Clone, Copy)]
pub struct Ended {
    pub turns: u32,
    pub greatest: u64,
    pub tally: Tally,
}
