//! Address blocks of RFC 5444: read exactly, with the first fault of what is malformed, and written in the fewest octets.
#![tactic(auto)]

mod choices;
mod fields;
mod flags;
mod laws;
mod reader;
mod records;
mod writer;

pub use laws::one_least;
pub use mesh_atoms::DecodeFault as ReadBlock;
pub use reader::read_block;
pub use records::{AddrBlock, RawAddr};
pub use writer::write_least;
