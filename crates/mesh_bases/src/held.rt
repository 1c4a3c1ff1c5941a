//! The bases of a router, what expiry and a message do to them, and the frames that it sends (RFC 6130 and RFC 7181).

mod answers;
mod holding;
mod onward;
mod outbox;
mod quiet;
mod taking;

pub use crate::held::holding::InformationBases;
pub use crate::held::outbox::Outbox;
pub use crate::held::quiet::Quiet;
