//! Texts in a buffer, written whole.
ghost use Rattle.std.specs.Prelude.{◌≡◌, ◌≤◌, Ok};
ghost use Rattle.mesh_io.specs.Pieces.{MakesOne, PutsPieces};

use mesh_atoms::Bytes;
use mesh_io::{Sink, Stop, write_all};
use std::alloc::AllocError;

// Writes the text that was put into a buffer; nothing where an allocation failed.
pub fn write_put<O: Sink>(
    put: Result<(), AllocError>,
    text: &Bytes,
    out: &mut O,
) -> Result<(), Stop>
    ensures leaves { PutsPieces (MakesOne (λ (u : Unit {0}) piece. (put ≡ Ok tt) × (piece ≡ text.now)))
        (O.content out.old) (O.content out.new) (O.faults out.old) (O.faults out.new) result }
    ensures later { O.faults out.old ≤ O.faults out.new }
{
    match put {
        Ok(()) => match write_all(out, text.as_slice()) {
            Ok(()) => Ok(()),
            Err(_) => Err(Stop::Write),
        },
        Err(_) => Err(Stop::Memory),
    }
}
