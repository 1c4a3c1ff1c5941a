//! How a HELLO or a TC reads, as the last line of its message (RFC 6130, section 10, and RFC 7181, section 13).
ghost use Rattle.std.specs.Prelude.{◌≡◌, ◌++◌, ◌+◌, ◌≤◌, length, codes, OnOk};
ghost use Rattle.mesh_packet.specs.Fields.{fields_of_message};
ghost use Rattle.mesh_packet.specs.Least.{Wrote};
ghost use Rattle.mesh_report.specs.Pieces.{numbered, numbered_or_none, addressed_by_number, chosen};
ghost use Rattle.mesh_report.specs.Readings.{broken_line, TellsRead, IsReading};

use crate::lines::put_rule;
use crate::piece::TextBuffer;
use crate::pieces::{put_choice, put_number_or_none, put_numbered, put_router};
use mesh_atoms::Willing;
use mesh_packet::Message;
use mesh_wire::{HelloHeader, MessageSummary, TcHeader, WireFault, hello_summary, tc_summary};
use std::alloc::{AllocError, Global};

// Puts the times that a message tells.
#[inline(always)]
fn put_times<const N: usize>(
    line: &mut TextBuffer,
    label: [u8; N],
    validity: u64,
    interval: Option<u64>,
)
    requires { length line.old + (N + 50) ≤ 4096 }
    ensures text { line.new ≡ line.old ++ (numbered label.entry validity ++ numbered_or_none (codes " interval ") interval) }
    ensures len { length line.new ≤ length line.old + (N + 50) }
{
    put_numbered(line, label, validity);
    put_number_or_none(line, *b" interval ", interval);
}

// Puts how willing the sender of a HELLO is.
fn put_willing(line: &mut TextBuffer, willing: Willing)
    requires { length line.old ≤ 100 }
    ensures text { line.new ≡ line.old ++ (numbered (codes " flooding ") willing.flooding ++ numbered (codes " routing ") willing.routing) }
    ensures len { length line.new ≤ 160 }
{
    put_numbered(line, *b" flooding ", u64::from(willing.flooding));
    put_numbered(line, *b" routing ", u64::from(willing.routing));
}

// Puts the number of rows, and ends the line.
fn put_rows(line: &mut TextBuffer, count: usize)
    requires { length line.old ≤ 280 }
    ensures text { line.new ≡ line.old ++ (numbered (codes " rows ") count ++ codes "\n") }
    ensures len { length line.new ≤ 320 }
{
    put_numbered(line, *b" rows ", count as u64);
    line.put_text(*b"\n");
}

/// What a message is read as, which a line tells.
trait MessageReading: Sized + Drop {
    ghost use Rattle.std.specs.Prelude.{◌≡◌, ◌++◌, ◌≤◌, ℕ, List, length};

    ghost line_of: { Self → List ℕ };

    fn put_line(&self, line: &mut TextBuffer)
        requires { length line.old ≤ 10 }
        ensures text { line.new ≡ line.old ++ line_of self.now }
        ensures len { length line.new ≤ 320 };
}

impl MessageReading for MessageSummary<HelloHeader> {
    ghost use Rattle.mesh_report.specs.Readings.{hello_summary_line};

    ghost line_of = { hello_summary_line };

    #[tactic(auto, unfolding(crate::specs::Readings::hello_summary_line))]
    fn put_line(&self, line: &mut TextBuffer) {
        put_times(
            line,
            *b" reading hello validity ",
            self.header.validity,
            self.header.interval,
        );
        put_willing(line, self.header.willing);
        put_rows(line, self.row_count);
    }
}

// Puts who sent a TC, by which numbers, and whether it tells all rows.
fn put_content(line: &mut TextBuffer, tc: &TcHeader)
    requires { length line.old ≤ 10 }
    ensures text { line.new ≡ line.old ++ (addressed_by_number (codes " reading tc originator ") tc.now.originator
        ++ numbered (codes " sequence ") tc.now.sequence ++ numbered (codes " ansn ") tc.now.content.ansn ++ chosen (codes " complete ") tc.now.content.complete) }
    ensures len { length line.new ≤ 120 }
{
    put_router(line, *b" reading tc originator ", tc.originator);
    put_numbered(line, *b" sequence ", u64::from(tc.sequence));
    put_numbered(line, *b" ansn ", u64::from(tc.content.ansn));
    put_choice(line, *b" complete ", tc.content.complete);
}

impl MessageReading for MessageSummary<TcHeader> {
    ghost use Rattle.mesh_report.specs.Readings.{tc_summary_line};

    ghost line_of = { tc_summary_line };

    #[tactic(auto, unfolding(crate::specs::Readings::tc_summary_line))]
    fn put_line(&self, line: &mut TextBuffer) {
        put_content(line, &self.header);
        put_times(
            line,
            *b" validity ",
            self.header.validity,
            self.header.interval,
        );
        put_rows(line, self.row_count);
    }
}

#[tactic(auto, unfolding(crate::specs::Readings::broken_line))]
fn put_broken_line(line: &mut TextBuffer, number: u8)
    requires { length line.old ≤ 10 }
    ensures text { line.new ≡ line.old ++ broken_line number }
    ensures len { length line.new ≤ 320 }
{
    put_rule(line, *b" reading broken ", number);
}

// Puts what a message was read as, or the first rule that it breaks.
fn put_read<R: MessageReading>(
    line: &mut TextBuffer,
    read: Result<R, WireFault>,
) -> Result<(), AllocError>
    requires { length line.old ≤ 10 }
    ensures text { OnOk result (Wrote (TellsRead R.line_of read) line.old line.new) }
    ensures len { OnOk result (length line.new ≤ 320) }
{
    match read {
        Ok(value) => {
            value.put_line(line);
            Ok(())
        }
        Err(WireFault::Broken { number, .. }) => {
            put_broken_line(line, number);
            Ok(())
        }
        Err(WireFault::Memory(e)) => Err(e),
    }
}

/// Puts how a message reads that is a HELLO or a TC by its type: what it says, or the first rule that it breaks. Puts nothing
/// for other types.
pub fn put_reading(
    alloc: Global,
    line: &mut TextBuffer,
    message: &Message,
) -> Result<(), AllocError>
    requires { length line.old ≤ 10 }
    ensures text { OnOk result (Wrote (IsReading (fields_of_message message.now)) line.old line.new) }
    ensures len { OnOk result (length line.new ≤ 320) }
{
    match message.kind {
        0 => put_read(line, hello_summary(alloc, message)),
        1 => put_read(line, tc_summary(alloc, message)),
        _ => Ok(()),
    }
}
