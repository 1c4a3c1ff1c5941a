//! Where octets come from and where they go: sources and sinks with a count of faults, whole reads and whole writes over
//! them, and both in memory.
#![tactic(auto)]

mod air_log;
mod air_room;
mod airs;
mod clocks;
mod mem_air;
mod memory;
mod sinks;
mod sources;
mod stop;

pub use air_room::{AirFails, AirRoom, MemEar};
pub use airs::{Air, Attached, Ear, Sent};
pub use clocks::{Clock, MemClock};
pub use mem_air::MemAir;
pub use memory::{MemSink, MemSource};
pub use sinks::{Put, Sink, WriteFault, write_all};
pub use sources::{ReadFault, Source, Took, read_all};
pub use stop::Stop;
