//! What the clock's tick does to what a router holds (RFC 6130, sections 11 and 13, and RFC 7181, section 16).
ghost use Rattle.std.specs.Prelude.{◌<◌, ◌^◌, IsTrue, OnOk};
ghost use Rattle.mesh_bases.specs.Held.Outbox.{OnlyAppends};
ghost use Rattle.mesh_bases.specs.Held.RouterState.{router_state};
ghost use Rattle.mesh_core.specs.Event.Promises.{IsReadyToTick, TicksTo};

use crate::event::ending::end_event;
use crate::event::outdated::EventWants;
use crate::router::RouterState;
use mesh_bases::{Outbox, send_hellos, send_tcs};
use mesh_expire::Bases;
use std::alloc::AllocError;

/// A router's clock ticks, at a moment below 2^62 in ticks of 1/8192 s: what is expired goes (RFC 6130, section 13), what follows from the
/// bases is renewed (RFC 7181, sections 16.1, 18 and 19), but for routes that aren't wanted, and the HELLOs (RFC 6130, section 11) and TCs
/// (RFC 7181, section 16) that are due are put at the end of `out`. Relays are wanted at each tick, since HELLOs say them. After an
/// allocation failure some of these frames may stand there, and `router` may only be dropped.
pub(crate) fn tick<B: Bases>(
    router: &mut RouterState<B>,
    wants: EventWants,
    now: u64,
    out: &mut Outbox,
) -> Result<(), AllocError>
    requires now { now < 2 ^ 62 }
    requires relays { IsTrue wants.relays }
    requires ready { IsReadyToTick router.old.outdated (router_state router.old.holding router.old.derived) }
    // What is sent, and the state after it, are the machine's.
    ensures ticks { OnOk result (TicksTo wants (router_state router.old.holding router.old.derived) now out.old out.new
        router.new.outdated (router_state router.new.holding router.new.derived)) }
    ensures appended { OnlyAppends out.old out.new }
{
    let alloc = router.holding.settings().interfaces.allocator();
    let quiet = router.holding.expire(router.derived.last, now)?;
    end_event(
        alloc,
        &router.holding,
        now,
        quiet,
        wants,
        &mut router.derived,
        &mut router.outdated,
    )?;
    send_hellos(alloc, router.holding.nhdp(), &mut router.derived, out)?;
    send_tcs(alloc, router.holding.settings(), &mut router.derived, out)
}
