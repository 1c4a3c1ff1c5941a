//! Why a run isn't told.
use mesh_atoms::Bytes;
use mesh_io::Stop;

/// Why a run isn't told whole: the input is refused, with the number and the key of its first refusal; an interface, counted from 0,
/// couldn't be attached; all turns were done below the end, with their number, the greatest moment told and the end, in ticks of
/// 1/8192 s; or it stopped.
#[derive(Drop)]
pub enum RunFault {
    Refused { number: u8, key: Bytes },
    Attach { interface: usize },
    Turns { turns: u32, moment: u64, end: u64 },
    Stopped(Stop),
}
