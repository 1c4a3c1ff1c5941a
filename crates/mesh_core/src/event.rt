//! What an event does to what a router holds and what follows from it: a frame is heard, the clock ticks (RFC 6130 and RFC 7181).

mod clock;
mod ending;
mod hear;
mod outdated;
mod until;

pub(crate) use crate::event::clock::tick;
pub(crate) use crate::event::hear::hear_content;
pub(crate) use crate::event::outdated::{EventWants, Outdated};
pub(crate) use crate::event::until::{hear_until, tick_until};
