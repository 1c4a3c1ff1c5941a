//! The rows that a router's own TCs tell, and the parts in which they are sent (RFC 7181, section 16.1).

mod rows;
mod spans;

pub use crate::advertised::rows::{Selector, tc_rows};
pub use crate::advertised::spans::{PartSpan, parts};
