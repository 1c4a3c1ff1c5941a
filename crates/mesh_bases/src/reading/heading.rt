//! What of a message's header flooding looks at (RFC 5444, section 5.2).
ghost use Rattle.std.specs.Prelude.{◌≡◌, IfSome, IsNone};
ghost use Rattle.mesh_flood.specs.declared.verdict.Heading.{Heading};
ghost use Rattle.mesh_packet.specs.Fields.{fields_of_message};
ghost use Rattle.mesh_wire.specs.Rules.{Keeps};
ghost use Rattle.mesh_wire.specs.Tc.{TcIs};
ghost use Rattle.mesh_wire.specs.TcRules.{BreaksTc};
ghost use Rattle.mesh_machine.specs.Messages.{IsHeading};

use mesh_atoms::{Tc, address_in};
use mesh_flood::Heading as FloodHeading;
use mesh_packet::Message;

/// The heading of a message that can be flooded; `None` for another one.
pub(crate) fn heading_of(message: &Message) -> Option<FloodHeading>
    ensures some { IfSome result (IsHeading (fields_of_message message.now)) }
    ensures none { IsNone result → (heading : Heading) → IsHeading (fields_of_message message.now) heading → ⊥ }
{
    if message.width != 4 {
        return None;
    }
    match (message.originator, message.sequence) {
        (Some(originator), Some(sequence)) => Some(FloodHeading {
            kind: message.kind,
            originator: address_in(&originator.octets),
            sequence,
            limit: message.limit,
            count: message.count,
        }),
        _ => None,
    }
}

/// The heading of a message that is read as that TC.
pub(crate) fn heading_of_tc(message: &Message, tc: &Tc) -> FloodHeading
    requires kind { message.now.kind ≡ 1 }
    requires reads { TcIs (fields_of_message message.now) tc.now }
    requires keeps { Keeps (BreaksTc (fields_of_message message.now)) }
    ensures { IsHeading (fields_of_message message.now) result }
{
    FloodHeading {
        kind: 1,
        originator: tc.originator,
        sequence: tc.sequence,
        limit: message.limit,
        count: message.count,
    }
}
