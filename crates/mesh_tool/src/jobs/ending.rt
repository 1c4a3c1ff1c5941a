//! How a job ended, before its line is put on `err`.
use mesh_atoms::Bytes;

/// How a job ended. `Done` and `Packets`: its whole text was written, and no line of it, or some line, says a refusal. `NotARun`: it was,
/// and says that a trace is none of a run. `Words`: the words ask for no job. `Read`, `TooLong`, `Refused`: the input couldn't be read, is
/// too long, or is refused with that number and key. `Attach`: that interface, counted from 0, couldn't be attached. `Turns`: all turns
/// were done at moments below the end, with their number and the greatest moment, in ticks of 1/8192 s. `Write`: a write failed.
/// `Memory`: memory was wanting.
#[derive(Drop)]
pub enum Ending {
    Done,
    Packets,
    NotARun,
    Words,
    Read,
    TooLong,
    Refused { number: u8, key: Bytes },
    Attach { interface: usize },
    Turns { turns: u32, moment: u64, end: u64 },
    Write,
    Memory,
}
