//! The routers of a network: at its opening, one of them at an event, and which of them ticks first.
ghost use Rattle.std.specs.Prelude.{◌≡◌, ◌<◌, ◌≤◌, ◌^◌, length, map, slice_get, Some, IfOk, OnOk};
ghost use Rattle.mesh_atoms.specs.State.{State};
ghost use Rattle.mesh_machine.specs.Machine.{Hear, IsOpening, Tick};
ghost use Rattle.mesh_machine.specs.Net.{IsFirstDue};
ghost use Rattle.mesh_radio.specs.Opening.{AreOpening};
ghost use Rattle.mesh_radio.specs.Scene.{Stepped, KeepsDue, IsAfterTick};

use crate::scene::Due;
use crate::traffic::ArrivedFrame;
use mesh_atoms::{Addr4, RadioArc, RouterSettings};
use mesh_core::{Arrival, Core, DeferringRouter, Outbox};
use mesh_expire::Bases;
use std::alloc::{AllocError, Global};

/// A router that a network makes of its settings.
pub(crate) trait MadeRouter: DeferringRouter {
    /// A router with these settings before its first event.
    fn of_settings(alloc: Global, settings: RouterSettings) -> Result<Self, AllocError>
        ensures { IfOk result (λ router. IsOpening settings (Self.state router)) };
}

impl<B: Bases> MadeRouter for Core<B> {
    fn of_settings(alloc: Global, settings: RouterSettings) -> Result<Core<B>, AllocError> {
        Core::new(alloc, settings)
    }
}

/// The routers with these settings before their first events.
pub(crate) fn routers_of<R: MadeRouter>(
    alloc: Global,
    settings: &[RouterSettings],
) -> Result<Vec<R>, AllocError>
    ensures { IfOk result (λ routers. AreOpening settings.now (map R.state routers.items)) }
{
    let mut routers = Vec::new(alloc);
    for one in settings {
        routers.push(R::of_settings(alloc, one.copy()?)?)?;
    }
    Ok(routers)
}

/// A router hears what comes by an arc. The outbox has what it then sends.
pub(crate) fn hear<R: DeferringRouter>(
    until: u64,
    routers: &mut Vec<R>,
    landed: &ArrivedFrame,
    arc: &RadioArc,
    sender: Addr4,
    outbox: &mut Outbox,
) -> Result<(), AllocError>
    requires stands { (was : State) × (slice_get (map R.state routers.old.items) arc.now.to ≡ Some was) × (was.last ≤ landed.now.moment) × (arc.now.to_iface < length was.settings.interfaces) }
    requires early { landed.now.moment < 2 ^ 62 }
    ensures { OnOk result (Stepped until (map R.state routers.old.items) (map R.state routers.new.items) arc.now.to landed.now.moment
        (Hear (record { now = landed.now.moment; iface = arc.now.to_iface; sender = sender }) landed.now.frame.value)
        outbox.new KeepsDue) }
{
    let arrival = Arrival {
        now: landed.moment,
        iface: arc.to_iface,
        sender,
    };
    let router = &mut routers[arc.to];
    router.hear_until(until, arrival, landed.frame.as_ref(), outbox)
}

/// A router ticks. The outbox has what it then sends.
pub(crate) fn tick<R: DeferringRouter>(
    until: u64,
    routers: &mut Vec<R>,
    router: usize,
    now: u64,
    outbox: &mut Outbox,
) -> Result<(), AllocError>
    requires stands { (was : State) × (slice_get (map R.state routers.old.items) router ≡ Some was) × (was.last ≤ now) }
    requires early { now < 2 ^ 62 }
    ensures { OnOk result (Stepped until (map R.state routers.old.items) (map R.state routers.new.items) router now (Tick now) outbox.new
        (IsAfterTick now)) }
{
    let ticking = &mut routers[router];
    ticking.tick_until(until, now, outbox)
}

/// The router that ticks first, and when.
pub(crate) fn first_due<R: DeferringRouter>(routers: &Vec<R>) -> Due
    requires { 0 < length routers.now.items }
    ensures { IsFirstDue (map R.state routers.now.items) result.router result.moment }
{
    let mut first = Due {
        router: 0,
        moment: routers[0].due_next(),
    };
    for (router, one) in routers.iter().enumerate() {
        let moment = one.due_next();
        if moment < first.moment {
            first = Due { router, moment };
        }
    }
    first
}
