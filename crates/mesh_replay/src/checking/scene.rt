//! The network that is checked.

/// The router that ticks first, and when.
#[derive(Clone, Copy)]
pub(crate) struct FirstTick {
    pub(crate) router: usize,
    pub(crate) moment: u64,
}

/// The routers, the tick that is next, and how many routers had their tick at the end.
#[derive(Drop)]
pub(crate) struct CheckedNet<R> {
    pub(crate) routers: Vec<R>,
    pub(crate) due: FirstTick,
    pub(crate) last_ticks: usize,
}

/// What came of the next event: its lines fit, one of them doesn't or is missing, or no event is left.
#[derive(Clone, Copy)]
pub(crate) enum Outcome {
    Fits,
    Unfit,
    Over,
}
