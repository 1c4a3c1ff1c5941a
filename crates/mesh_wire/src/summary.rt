//! HELLO and TC messages read but for their rows, which are only counted (RFC 6130, section 10, and RFC 7181, section 13).
ghost use Rattle.mesh_packet.specs.Fields.{fields_of_message};
ghost use Rattle.mesh_wire.specs.Answers.{ReadsOrRefuses, Sums};
ghost use Rattle.mesh_wire.specs.Hello.{HelloIs};
ghost use Rattle.mesh_wire.specs.HelloRules.{BreaksHello};
ghost use Rattle.mesh_wire.specs.Summaries.{hello_summary_of, tc_summary_of};
ghost use Rattle.mesh_wire.specs.Tc.{TcIs};
ghost use Rattle.mesh_wire.specs.TcRules.{BreaksTc};

use crate::fault::WireFault;
use crate::hello::{self, HelloHeader};
use crate::rows::{MessageSummary, TypedKind, summary_of};
use crate::tc::{self, TcHeader};
use mesh_packet::Message;
use std::alloc::Global;

/// Reads a message as a HELLO, as `hello_of` does, but makes no rows: the answer is the summary of the HELLO that `hello_of` reads, or the
/// same fault.
pub fn hello_summary(
    alloc: Global,
    message: &Message,
) -> Result<MessageSummary<HelloHeader>, WireFault>
    ensures reads { ReadsOrRefuses (Sums hello_summary_of (HelloIs (fields_of_message message.now))) (BreaksHello (fields_of_message message.now)) result }
{
    summary_of(alloc, message, hello::header_of(message), TypedKind::Hello)
}

/// Reads a message as a TC, as `tc_of` does, but makes no rows: the answer is the summary of the TC that `tc_of` reads, or the same
/// fault.
pub fn tc_summary(alloc: Global, message: &Message) -> Result<MessageSummary<TcHeader>, WireFault>
    ensures reads { ReadsOrRefuses (Sums tc_summary_of (TcIs (fields_of_message message.now))) (BreaksTc (fields_of_message message.now)) result }
{
    summary_of(alloc, message, tc::header_of(message), TypedKind::Tc)
}
