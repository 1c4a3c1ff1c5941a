//! Events of a router that may put relays and routes off up to a moment, until it meets an allocation failure.
ghost use Rattle.std.specs.Prelude.{◌≡◌, ◌<◌, ◌^◌, false};
ghost use Rattle.mesh_bases.specs.Held.RouterState.{router_state};
ghost use Rattle.mesh_core.specs.Event.Promises.{IsReadyToHear, IsReadyToTick};
ghost use Rattle.mesh_core.specs.Event.Until.{DoesUnlessSpent, HearsUntil, TicksUntil};

use crate::event::clock::tick;
use crate::event::hear::hear_content;
use crate::event::outdated::EventWants;
use crate::router::RouterState;
use mesh_bases::{Outbox, TypedFrame};
use mesh_expire::Bases;
use mesh_machine::Arrival;
use std::alloc::AllocError;

/// A router that isn't spent hears a frame that was read before, at a moment below 2^62 in ticks of 1/8192 s. From the moment `until` on
/// nothing is put off. What is sent stands in `out` alone. An allocation failure leaves the router spent.
pub(crate) fn hear_until<B: Bases>(
    router: &mut RouterState<B>,
    spent: &mut bool,
    until: u64,
    arrival: Arrival,
    frame: &TypedFrame,
    out: &mut Outbox,
) -> Result<(), AllocError>
    requires now { arrival.now < 2 ^ 62 }
    requires ready { spent.old ≡ false → IsReadyToHear router.old.outdated (router_state router.old.holding router.old.derived) arrival }
    ensures { DoesUnlessSpent result spent.old spent.new (HearsUntil until (router_state router.old.holding router.old.derived) arrival frame.now out.new
        router.new.outdated (router_state router.new.holding router.new.derived)) }
{
    if *spent {
        return Err(AllocError);
    }
    *spent = true;
    out.clear();
    let octets = frame.octets().as_slice();
    let wants = EventWants {
        relays: until <= arrival.now,
        routes: until <= arrival.now,
        fates: false,
    };
    let _ = hear_content(router, wants, arrival, octets, frame.content(), out)?;
    *spent = false;
    Ok(())
}

/// The clock of a router that isn't spent ticks, at a moment below 2^62 in ticks of 1/8192 s. From the moment `until` on nothing is put
/// off. What is sent stands in `out` alone. An allocation failure leaves the router spent.
pub(crate) fn tick_until<B: Bases>(
    router: &mut RouterState<B>,
    spent: &mut bool,
    until: u64,
    now: u64,
    out: &mut Outbox,
) -> Result<(), AllocError>
    requires now { now < 2 ^ 62 }
    requires ready { spent.old ≡ false → IsReadyToTick router.old.outdated (router_state router.old.holding router.old.derived) }
    ensures { DoesUnlessSpent result spent.old spent.new (TicksUntil until (router_state router.old.holding router.old.derived) now out.new
        router.new.outdated (router_state router.new.holding router.new.derived)) }
{
    if *spent {
        return Err(AllocError);
    }
    *spent = true;
    out.clear();
    let wants = EventWants {
        relays: true,
        routes: until <= now,
        fates: false,
    };
    tick(router, wants, now, out)?;
    *spent = false;
    Ok(())
}
