//! The one message of a packet that is nothing else.
ghost use Rattle.std.specs.Prelude.{◌≡◌, IfSome, IsNone};
ghost use Rattle.mesh_packet.specs.Fields.{MessageFields, fields_of_message, fields_of_packet};
ghost use Rattle.mesh_wire.specs.Writes.{alone};

use mesh_packet::{Message, Packet};

/// The message of a packet of one message alone, without a sequence number and TLVs; `None` for another packet.
pub(crate) fn sole_message<'a, 'b>(packet: &'b Packet<'a>) -> Option<&'b Message<'a>>
    ensures some { IfSome result (λ message. fields_of_packet packet.now ≡ alone (fields_of_message message.now)) }
    ensures none { IsNone result → (message : MessageFields) → fields_of_packet packet.now ≡ alone message → ⊥ }
{
    if packet.sequence.is_some() || packet.tlvs.len() != 0 {
        return None;
    }
    match packet.messages.as_slice() {
        [message] => Some(message),
        _ => None,
    }
}
