//! What a frame that is heard does to what a router holds (RFC 6130, section 12, and RFC 7181, section 14).
ghost use Rattle.std.specs.Prelude.{◌≡◌, ◌<◌, ◌^◌, ℕ, IfOk};
ghost use Rattle.mesh_bases.specs.Held.Outbox.{OnlyAppends};
ghost use Rattle.mesh_bases.specs.Held.RouterState.{router_state};
ghost use Rattle.mesh_core.specs.Event.Promises.{IsReadyToHear, HearsAndKeeps};
ghost use Rattle.mesh_bases.specs.Reading.Content.{IsContentOf};
ghost use Rattle.mesh_packet.specs.Grammar.{FirstFault};

use crate::event::ending::end_event;
use crate::event::outdated::EventWants;
use crate::router::RouterState;
use mesh_bases::{FrameContent, Outbox};
use mesh_expire::Bases;
use mesh_machine::{Arrival, Heard};
use mesh_packet::one_reading;
use std::alloc::AllocError;

/// A router hears a frame (RFC 5444) that reads so, on one of its interfaces, at a moment below 2^62 in ticks of 1/8192 s. A frame with a
/// fault changes nothing, not even by expiry. Of one that spells a packet, what is expired goes (RFC 6130, section 13), the messages are
/// taken in order (section 12, and RFC 7181, section 14), and what follows from the bases is renewed (RFC 7181, sections 16.1, 18 and 19),
/// but for relays and routes that aren't wanted. What is sent is put at the end of `out`. After an allocation failure some of it may stand
/// there, and `router` may only be dropped.
pub(crate) fn hear_content<B: Bases>(
    router: &mut RouterState<B>,
    wants: EventWants,
    arrival: Arrival,
    bytes: &[u8],
    content: &FrameContent,
    out: &mut Outbox,
) -> Result<Heard, AllocError>
    requires now { arrival.now < 2 ^ 62 }
    requires ready { IsReadyToHear router.old.outdated (router_state router.old.holding router.old.derived) arrival }
    requires content { IsContentOf bytes.now content.now }
    // What is answered and sent, and the state after it, are the machine's; the answer has fates where they are wanted.
    ensures hears { IfOk result (λ kept. HearsAndKeeps wants (router_state router.old.holding router.old.derived) arrival bytes.now kept out.old out.new
        router.new.outdated (router_state router.new.holding router.new.derived)) }
    // A frame with a fault is refused.
    ensures refused { (place reason : ℕ) → FirstFault bytes.now place reason → IfOk result (λ kept. kept ≡ Heard.Refused (record { place = place; reason = reason })) }
    ensures appended { OnlyAppends out.old out.new }
{
    one_reading();
    let packet = match content {
        FrameContent::Refused(refusal) => return Ok(Heard::Refused(*refusal)),
        FrameContent::Packet(packet) => packet,
    };
    let alloc = router.holding.settings().interfaces.allocator();
    let last = router.derived.last;
    let (fates, quiet) = router
        .holding
        .take_frame(last, arrival, bytes, packet, wants.fates, out)?;
    end_event(
        alloc,
        &router.holding,
        arrival.now,
        quiet,
        wants,
        &mut router.derived,
        &mut router.outdated,
    )?;
    Ok(Heard::Taken(fates))
}
