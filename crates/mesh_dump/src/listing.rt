//! The listing of lines of hexadecimal text as packets.
ghost use Rattle.std.specs.Prelude.{◌≡◌, ◌++◌, ◌≤◌, OnOk};
ghost use Rattle.mesh_io.specs.Pieces.{MakesOne, PutsPieces};
ghost use Rattle.mesh_dump.specs.Dump.{LinesMake, DumpMakes, total_text};
ghost use Rattle.mesh_dump.specs.Lines.{IsListing};

use crate::lines::{Desk, first_line, put_line};
use mesh_atoms::{Bytes, put_decimal};
use mesh_io::{Sink, Stop, write_all};
use std::alloc::{AllocError, Global};

// How many lines there are, and how many of them are refused.
#[derive(Clone, Copy)]
struct LineCounts {
    lines: u64,
    refused: u64,
}

fn put_total(out: &mut Bytes, counts: LineCounts) -> Result<(), AllocError>
    ensures { OnOk result (out.new ≡ out.old ++ total_text counts.lines counts.refused) }
{
    out.append(b"lines ")?;
    put_decimal(out, counts.lines)?;
    out.append(b" refused ")?;
    put_decimal(out, counts.refused)?;
    out.append(b"\n")
}

// Writes the line that counts, by one write. What `part` holds is lost.
fn write_total<O: Sink>(part: &mut Bytes, counts: LineCounts, out: &mut O) -> Result<(), Stop>
    ensures leaves { PutsPieces (MakesOne (λ _ text. text ≡ total_text counts.lines counts.refused))
        (O.content out.old) (O.content out.new) (O.faults out.old) (O.faults out.new) result }
    ensures later { O.faults out.old ≤ O.faults out.new }
{
    part.clear();
    put_total(part, counts)?;
    write_all(out, part.as_slice())?;
    Ok(())
}

// Writes the listing of the line of this number, by one write, and gives 1 where the line is refused, else 0. An empty line is
// not read: no octet stands where a packet begins. The text of `desk` is lost.
fn write_line<O: Sink>(
    alloc: Global,
    desk: &mut Desk,
    number: u64,
    line: &[u8],
    recode: bool,
    out: &mut O,
) -> Result<u64, Stop>
    ensures leaves { PutsPieces (MakesOne (IsListing recode number line.now))
        (O.content out.old) (O.content out.new) (O.faults out.old) (O.faults out.new) result }
    ensures later { O.faults out.old ≤ O.faults out.new }
{
    if line.is_empty() {
        desk.empty.go_to(number);
        write_all(out, desk.empty.text())?;
        return Ok(1);
    }
    desk.text.clear();
    let refused = put_line(alloc, desk, number, line, recode)?;
    write_all(out, desk.text.as_slice())?;
    Ok(refused)
}

// Writes the listing of each line of the input, and counts. The text of `desk` is lost.
fn write_lines<O: Sink>(
    alloc: Global,
    desk: &mut Desk,
    input: &[u8],
    recode: bool,
    out: &mut O,
) -> Result<LineCounts, Stop>
    ensures leaves { PutsPieces (LinesMake input.now recode)
        (O.content out.old) (O.content out.new) (O.faults out.old) (O.faults out.new) result }
    ensures later { O.faults out.old ≤ O.faults out.new }
{
    let mut at = 0;
    let mut number = 0;
    let mut refused = 0;
    'lines: while at < input.len() {
        let (line, used) = first_line(&input[at..]);
        number += 1;
        refused += write_line(alloc, desk, number, line, recode, out)?;
        at += used;
    }
    Ok(LineCounts {
        lines: number,
        refused,
    })
}

/// Lists the input on `out`, with each packet written again where `recode` says so: each line's listing by one write, then the
/// last line, which counts. Gives how many lines are refused.
pub fn dump<O: Sink>(alloc: Global, input: &[u8], recode: bool, out: &mut O) -> Result<u64, Stop>
    // At `Ok` all pieces of the listing were put on `out`, and so many lines of it are refused. At a failed write the sink counted a
    // fault, and the pieces before the one that was written were put, and then a prefix of it. At an allocation failure the listings of
    // some first lines were put, maybe of none.
    ensures leaves { PutsPieces (DumpMakes input.now recode)
        (O.content out.old) (O.content out.new) (O.faults out.old) (O.faults out.new) result }
    ensures later { O.faults out.old ≤ O.faults out.new }
{
    let mut desk = Desk::new(alloc);
    let counts = write_lines(alloc, &mut desk, input, recode, out)?;
    write_total(&mut desk.text, counts, out)?;
    Ok(counts.refused)
}
