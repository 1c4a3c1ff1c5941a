//! The texts that the program prints.
#![tactic(auto)]

mod hexadecimal;
mod lanes;
mod laws;
mod lines;
mod packet;
mod piece;
mod pieces;
mod reading;

pub use laws::one_listing;
pub use packet::{LineRead, Room, packet_text, put_line_text};
