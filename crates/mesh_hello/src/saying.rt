//! What a HELLO has to say: of which addresses it has a row, and what the row says (RFC 6130, section 11, and RFC 7181,
//! section 15.1).

mod rows;
mod said_addresses;
mod said_of;
mod say;

pub use crate::saying::rows::HelloBasis;
pub use crate::saying::said_addresses::HasSaid;
pub use crate::saying::say::make_hello;
