//! The listing of lines of hexadecimal text as packets, written line by line.
#![tactic(auto)]

mod digits;
mod empty;
mod lanes;
mod laws;
mod lines;
mod listing;

pub use laws::one_text;
pub use listing::dump;
