//! The events of a network: a frame is heard, or a router ticks.
ghost use Rattle.std.specs.Prelude.{◌≡◌, ◌<◌, ◌≤◌, length, map, IfOk, OnOk};
ghost use Rattle.mesh_atoms.specs.Settings.{one_hour};
ghost use Rattle.mesh_radio.specs.Occurrences.{net_event_of};
ghost use Rattle.mesh_radio.specs.Traffic.Air.{delivery_of};
ghost use Rattle.mesh_radio.specs.Scene.{AreRouterStates, Lands, SendsAlone, TicksOne};
ghost use Rattle.mesh_radio.specs.Traffic.Traffic.{traffic_of};
ghost use Rattle.mesh_machine.specs.Ways.{AreArcsOut};

use crate::occurrences::Occurrence;
use crate::routers::{hear, tick};
use crate::scene::Scene;
use crate::traffic::{ArrivedFrame, send_all};
use mesh_core::DeferringRouter;
use mesh_machine::sender_of;
use std::alloc::{AllocError, Global};

/// A frame is heard by the router to which its arc leads, and what that sends goes into the air.
pub(crate) fn land<R: DeferringRouter>(
    alloc: Global,
    until: u64,
    routers: &mut Vec<R>,
    scene: &mut Scene,
    landed: ArrivedFrame,
) -> Result<Occurrence, AllocError>
    requires ways { AreArcsOut scene.old.scenario.arcs scene.old.scenario.routers (length scene.old.scenario.routers) scene.old.ways }
    requires routers { AreRouterStates scene.old.scenario landed.moment (map R.state routers.old.items) }
    requires seed { scene.old.traffic.draws.seed ≡ scene.old.scenario.seed }
    requires early { landed.moment ≤ one_hour }
    requires arc { landed.arc < length scene.old.scenario.arcs }
    ensures lands { IfOk result (λ occurrence. Lands until scene.old.scenario
        (map R.state routers.old.items) (map R.state routers.new.items) (delivery_of landed) (net_event_of occurrence)
        (traffic_of scene.old.traffic) (traffic_of scene.new.traffic)) }
    ensures seed { OnOk result (scene.new.traffic.draws.seed ≡ scene.old.traffic.draws.seed) }
    ensures scene { OnOk result (SendsAlone scene.old scene.new) }
{
    let now = landed.moment;
    let arc = scene.scenario.arcs.as_slice()[landed.arc];
    let sender = sender_of(&scene.scenario, &arc);
    scene.traffic.counts.delivered = scene.traffic.counts.delivered.wrapping_add(1);
    hear(until, routers, &landed, &arc, sender, &mut scene.outbox)?;
    let sent = send_all(
        alloc,
        &scene.scenario,
        &scene.ways,
        now,
        arc.to,
        &scene.outbox,
        &mut scene.traffic,
    )?;
    Ok(Occurrence {
        moment: now,
        router: arc.to,
        heard: Some((arc.to_iface, sender, landed.frame)),
        sent,
    })
}

/// A router ticks, and what it sends goes into the air.
pub(crate) fn tick_one<R: DeferringRouter>(
    alloc: Global,
    until: u64,
    routers: &mut Vec<R>,
    scene: &mut Scene,
    router: usize,
    now: u64,
) -> Result<Occurrence, AllocError>
    requires ways { AreArcsOut scene.old.scenario.arcs scene.old.scenario.routers (length scene.old.scenario.routers) scene.old.ways }
    requires routers { AreRouterStates scene.old.scenario now (map R.state routers.old.items) }
    requires seed { scene.old.traffic.draws.seed ≡ scene.old.scenario.seed }
    requires early { now ≤ one_hour }
    requires router { router < length scene.old.scenario.routers }
    ensures ticks { IfOk result (λ occurrence. TicksOne until scene.old.scenario
        (map R.state routers.old.items) (map R.state routers.new.items) router now (net_event_of occurrence)
        (traffic_of scene.old.traffic) (traffic_of scene.new.traffic)) }
    ensures seed { OnOk result (scene.new.traffic.draws.seed ≡ scene.old.traffic.draws.seed) }
    ensures scene { OnOk result (SendsAlone scene.old scene.new) }
{
    tick(until, routers, router, now, &mut scene.outbox)?;
    let sent = send_all(
        alloc,
        &scene.scenario,
        &scene.ways,
        now,
        router,
        &scene.outbox,
        &mut scene.traffic,
    )?;
    Ok(Occurrence {
        moment: now,
        router,
        heard: None,
        sent,
    })
}
