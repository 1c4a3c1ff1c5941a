//! What of relays and routes is outdated, and what is wanted of an event (RFC 7181, section 17).

/// Which of relays and routes may no longer be those of the bases.
#[derive(Clone, Copy)]
pub(crate) struct Outdated {
    pub(crate) relays: bool,
    pub(crate) routes: bool,
}

/// Which of relays and routes are wanted at the end of an event, and whether the fates of messages are.
#[derive(Clone, Copy)]
pub(crate) struct EventWants {
    pub(crate) relays: bool,
    pub(crate) routes: bool,
    pub(crate) fates: bool,
}
