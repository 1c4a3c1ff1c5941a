//! Packets: messages with their TLVs and address blocks (RFC 5444).
#![tactic(auto)]

mod flags;
mod laws;
mod packet;
mod read;
mod write;

pub use laws::{one_reading, zero_begins_packets};
pub use mesh_atoms::DecodeFault;
pub use packet::{Block, Decoded, EncodeFault, Message, Packet, Span};
pub use read::decode;
pub use write::encode;
