//! What a frame reads as (RFC 5444).
ghost use Rattle.std.specs.Prelude.{ℕ, List, map, IfOk};
ghost use Rattle.mesh_atoms.specs.Reading.{IfRefused};
ghost use Rattle.mesh_bases.specs.Reading.Content.{IsContentOf, AreReadAs};
ghost use Rattle.mesh_machine.specs.Sendable.{AreOctets};
ghost use Rattle.mesh_packet.specs.Fields.{fields_of_message, fields_of_packet};
ghost use Rattle.mesh_packet.specs.Grammar.{FirstFault, Spells};

use crate::reading::message::{TypedMessage, typed_message};
use mesh_atoms::{DecodeFault, Refusal, Seq};
use mesh_packet::{Decoded, Message, Span, decode};
use std::alloc::{AllocError, Global};

/// What each message of a packet reads as, and where it stands in the frame.
#[derive(Drop)]
pub struct ReadPacket {
    pub typed: Seq<TypedMessage>,
    pub spans: Seq<Span>,
}

/// What a frame reads as: its first fault, or the packet that it spells.
pub enum FrameContent {
    Refused(Refusal),
    Packet(ReadPacket),
}

// By hand, so that no crate that lets go of one has to know its parts.
impl Drop for FrameContent {
    fn drop(self) {
        match self {
            FrameContent::Refused(_) => {}
            FrameContent::Packet(_) => {}
        }
    }
}

/// What messages read as, in order.
pub(crate) fn typed_messages(
    alloc: Global,
    messages: &[Message],
) -> Result<Seq<TypedMessage>, AllocError>
    ensures { IfOk result (AreReadAs (map fields_of_message messages.now)) }
{
    let mut typed = Seq::new(alloc);
    for i in 0..messages.len() {
        typed.push(typed_message(alloc, &messages[i])?)?;
    }
    Ok(typed)
}

// A frame with a fault reads as that; an allocation failure stays that.
fn refused(fault: DecodeFault) -> Result<FrameContent, AllocError>
    ensures { (bytes : List ℕ) → IfRefused (λ refusal. FirstFault bytes refusal.place refusal.reason) fault → IfOk result (IsContentOf bytes) }
{
    match fault {
        DecodeFault::Refused(refusal) => Ok(FrameContent::Refused(refusal)),
        DecodeFault::Memory(e) => Err(e),
    }
}

// What octets read as that spell this.
fn messages_of(alloc: Global, decoded: Decoded) -> Result<FrameContent, AllocError>
    ensures { (bytes : List ℕ) → Spells (fields_of_packet decoded.entry.packet) decoded.entry.spans bytes → IfOk result (IsContentOf bytes) }
{
    let Decoded { packet, spans } = decoded;
    let typed = typed_messages(alloc, packet.messages.as_slice())?;
    Ok(FrameContent::Packet(ReadPacket { typed, spans }))
}

/// Reads a frame (RFC 5444), and each of its messages (RFC 6130 and RFC 7181). Only an allocation failure refuses.
pub fn read_content(alloc: Global, bytes: &[u8]) -> Result<FrameContent, AllocError>
    ensures octets { IfOk result (λ content. AreOctets bytes.now) }
    ensures content { IfOk result (IsContentOf bytes.now) }
{
    match decode(alloc, bytes) {
        Ok(decoded) => messages_of(alloc, decoded),
        Err(fault) => refused(fault),
    }
}
