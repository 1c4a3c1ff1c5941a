//! Whether a message is sent on, and the sending (RFC 7181, section 14.3).
ghost use Rattle.std.specs.Prelude.{◌≡◌, ◌<◌, ◌++◌, ◌∷◌, Option, Bool, length, OnOk};
ghost use Rattle.mesh_atoms.specs.declared.addr.Addr4.{Addr4};
ghost use Rattle.mesh_atoms.specs.Base.{base_of};
ghost use Rattle.mesh_bases.specs.Held.Outbox.{OnlyAppends};
ghost use Rattle.mesh_machine.specs.links.Links.{SelectorOf};
ghost use Rattle.mesh_flood.specs.Verdict.{process_of, forward_of};
ghost use Rattle.mesh_packet.specs.Fields.{MessageFields};
ghost use Rattle.mesh_packet.specs.Grammar.{SpellsMessage};
ghost use Rattle.mesh_wire.specs.Rehop.{HasHop, hopped};
ghost use Rattle.mesh_machine.specs.Frames.{on_each};
ghost use Rattle.mesh_machine.specs.Messages.{forwarding};

use crate::held::outbox::Outbox;
use mesh_atoms::{Addr4, RouterSettings};
use mesh_expire::Bases;
use mesh_flood::{Flood, Forward, Heading, Verdict};
use mesh_machine::Arrival;
use mesh_nhdp::Nhdp;
use mesh_wire::rehop;
use std::alloc::AllocError;

/// Both answers on a message.
pub(crate) fn judge<B: Bases>(
    nhdp: &Nhdp<B>,
    flood: &Flood<B>,
    arrival: Arrival,
    own: Addr4,
    heading: &Heading,
) -> Verdict
    requires iface { arrival.iface < length flood.now.noted.received }
    ensures process { result.process ≡ process_of own heading.now flood.now.noted }
    ensures forward { (link : Option Bool) × SelectorOf (base_of nhdp.now.near.links arrival.iface) arrival.now arrival.sender link
        × (result.forward ≡ forward_of arrival.iface own heading.now link flood.now.noted) }
{
    let link = nhdp.symmetric_of(arrival.iface, arrival.sender, arrival.now);
    flood.judge(arrival.iface, own, heading, link)
}

/// Sends a message on where that is the answer.
pub(crate) fn send_on(
    settings: &RouterSettings,
    answer: Forward,
    octets: &[u8],
    out: &mut Outbox,
) -> Result<(), AllocError>
    requires { answer ≡ Forward.Do → (message : MessageFields) × SpellsMessage message octets.now × HasHop message }
    ensures sent { OnOk result (out.new ≡ out.old ++ forwarding (length settings.now.interfaces) octets.now answer) }
    ensures appended { OnlyAppends out.old out.new }
{
    match answer {
        Forward::Do => forward(settings, octets, out),
        _ => Ok(()),
    }
}

// Sends a message on each interface: the octet 0, and the message one hop further.
fn forward(settings: &RouterSettings, octets: &[u8], out: &mut Outbox) -> Result<(), AllocError>
    requires { (message : MessageFields) × SpellsMessage message octets.now × HasHop message }
    ensures sent { OnOk result (out.new ≡ out.old ++ on_each (length settings.now.interfaces) (0 ∷ hopped octets.now)) }
    ensures appended { OnlyAppends out.old out.new }
{
    let alloc = settings.interfaces.allocator();
    let mut frame = vec![in alloc; 0u8; octets.len() + 1]?;
    rehop(octets, &mut frame[1..]);
    out.send_on_each(settings.interfaces.len(), frame.as_slice())
}
