//! The next event of a network.
ghost use Rattle.std.specs.Prelude.{map, IfOk, MatchOption, option_map};
ghost use Rattle.mesh_radio.specs.Occurrences.{net_event_of};
ghost use Rattle.mesh_radio.specs.Scene.{Happens, HasNoTick, IsNextTick, IsAirQuiet, IsSound, AllStays, TellsEvent};

use crate::events::{land, tick_one};
use crate::occurrences::{Occurrence, event_told};
use crate::routers::first_due;
use crate::scene::{Scene, Tick};
use mesh_atoms::NetEvent;
use mesh_core::DeferringRouter;
use std::alloc::{AllocError, Global};

/// Does the next event, in which no router puts anything off, and tells it with octets; `None` where none is left.
pub(crate) fn tell_next<R: DeferringRouter>(
    alloc: Global,
    routers: &mut Vec<R>,
    scene: &mut Scene,
) -> Result<Option<NetEvent>, AllocError>
    requires sound { IsSound (map R.state routers.old.items) scene.old }
    ensures { IfOk result (TellsEvent 0 (map R.state routers.old.items) scene.old (map R.state routers.new.items) scene.new) }
{
    let came = next_event(alloc, 0, routers, scene)?;
    match came {
        Some(occurrence) => {
            let event = event_told(alloc, occurrence)?;
            Ok(Some(event))
        }
        None => Ok(None),
    }
}

/// Does the next event, and tells it; `None` where none is left. From the moment `until` on no router puts anything off.
pub(crate) fn next_event<R: DeferringRouter>(
    alloc: Global,
    until: u64,
    routers: &mut Vec<R>,
    scene: &mut Scene,
) -> Result<Option<Occurrence>, AllocError>
    requires sound { IsSound (map R.state routers.old.items) scene.old }
    ensures { IfOk result (λ e. TellsEvent until (map R.state routers.old.items) scene.old (map R.state routers.new.items) scene.new
        (option_map net_event_of e)) }
{
    let heard = hear_next(alloc, until, routers, scene)?;
    match heard {
        Some(event) => Ok(Some(event)),
        None => tick_next(alloc, until, routers, scene),
    }
}

/// Lets the frame be heard that is due no later than the first tick and the end, if there is one.
fn hear_next<R: DeferringRouter>(
    alloc: Global,
    until: u64,
    routers: &mut Vec<R>,
    scene: &mut Scene,
) -> Result<Option<Occurrence>, AllocError>
    requires sound { IsSound (map R.state routers.old.items) scene.old }
    ensures { IfOk result (λ e. MatchOption e (AllStays (map R.state routers.old.items) scene.old (map R.state routers.new.items) scene.new)
        (λ occurrence. Happens until (map R.state routers.old.items) scene.old (net_event_of occurrence) (map R.state routers.new.items)
        scene.new)) }
{
    let limit = u64::min(scene.due.moment, scene.scenario.end);
    let Some(landed) = scene.traffic.air.take(limit) else {
        return Ok(None);
    };
    let now = landed.moment;
    let event = land(alloc, until, routers, scene, landed)?;
    scene.now = now;
    Ok(Some(event))
}

/// Lets the router tick that ticks next, if there is one.
fn tick_next<R: DeferringRouter>(
    alloc: Global,
    until: u64,
    routers: &mut Vec<R>,
    scene: &mut Scene,
) -> Result<Option<Occurrence>, AllocError>
    requires sound { IsSound (map R.state routers.old.items) scene.old }
    requires quiet { IsAirQuiet scene.old }
    ensures { IfOk result (λ e. TellsEvent until (map R.state routers.old.items) scene.old (map R.state routers.new.items) scene.new
        (option_map net_event_of e)) }
{
    let Some(tick) = next_tick(scene) else {
        return Ok(None);
    };
    let event = tick_one(alloc, until, routers, scene, tick.router, tick.moment)?;
    scene.now = tick.moment;
    scene.last_ticks = tick.last_ticks;
    scene.due = first_due(routers);
    Ok(Some(event))
}

/// The tick that is next: of the router that is due first, up to the end, and then of the routers in order at the end.
fn next_tick(scene: &Scene) -> Option<Tick>
    ensures { MatchOption result (HasNoTick scene.entry.now) (IsNextTick scene.entry.now) }
{
    if scene.due.moment <= scene.scenario.end {
        return Some(Tick {
            router: scene.due.router,
            moment: scene.due.moment,
            last_ticks: scene.last_ticks,
        });
    }
    if scene.last_ticks < scene.scenario.routers.len() {
        return Some(Tick {
            router: scene.last_ticks,
            moment: scene.scenario.end,
            last_ticks: scene.last_ticks + 1,
        });
    }
    None
}
