//! The next event, and its lines.
ghost use Rattle.std.specs.Prelude.{◌≡◌, ◌<◌, ℕ, [], length, map, IfOk, OnOk, IsTrue};
ghost use Rattle.mesh_trace.specs.machine.Net.{IsFirstDue};
ghost use Rattle.mesh_trace.specs.Positions.Due.{HearsBy, TicksBy};
ghost use Rattle.mesh_trace.specs.Reading.Readers.{IsReaderOf};
ghost use Rattle.mesh_replay.specs.declared.checking.case.Progress.{Progress as Before};
ghost use Rattle.mesh_replay.specs.Checking.Cases.{IsCase, IsEventOf, IsProgress};
ghost use Rattle.mesh_replay.specs.Checking.Ending.{EndsEvent, KeepsRouters, MayBegin};
ghost use Rattle.mesh_replay.specs.Checking.Going.{at, FitsOrStops};
ghost use Rattle.mesh_replay.specs.Checking.Kept.{AreAtRest};
ghost use Rattle.mesh_replay.specs.Checking.Next.{EventBy, IsComing, IsNextEvent};
ghost use Rattle.mesh_replay.specs.Checking.Scenes.{Comes, IsReachedNet, IsSoundScene, net_of};
ghost use Rattle.mesh_replay.specs.Checking.Ticking.{outcome_of};

use crate::checking::case::{Case, CheckedEvent, Progress};
use crate::checking::events::tell_event;
use crate::checking::lines::take_due;
use crate::checking::next::{ComingFrame, NextEvent, next_of, opening_line};
use crate::checking::opening::first_due;
use crate::checking::router::RouterOfTrace;
use crate::checking::scene::{CheckedNet, Outcome};
use mesh_bases::{FrameContent, read_content};
use std::alloc::{AllocError, Global};

// The router of an event ticks: takes the lines behind that of the tick.
fn tick_router<R: RouterOfTrace>(
    alloc: Global,
    case: &Case,
    event: &CheckedEvent,
    router: &mut R,
    progress: &mut Progress,
) -> Result<bool, AllocError>
    requires event { IsEventOf case.now event.now }
    requires progress { IsProgress case.now progress.old }
    requires begins { MayBegin event.now (R.state router.old) (TicksBy (R.state router.old) event.now.moment) }
    ensures { IfOk result (EndsEvent case.now progress.old progress.new event.now (TicksBy (R.state router.old) event.now.moment) (R.state router.new)) }
{
    let lines = router.tick(alloc, event.moment)?;
    tell_event(alloc, case, event, router, &lines, progress)
}

// A router hears a frame: takes the lines behind that of the frame. A frame with a fault changes nothing.
fn hear_frame<R: RouterOfTrace>(
    alloc: Global,
    case: &Case,
    event: &CheckedEvent,
    heard: &ComingFrame,
    router: &mut R,
    progress: &mut Progress,
) -> Result<bool, AllocError>
    requires event { IsEventOf case.now event.now }
    requires progress { IsProgress case.now progress.old }
    requires comes { IsComing event.now heard.now }
    requires begins { MayBegin event.now (R.state router.old) (HearsBy (R.state router.old) heard.now.arrival heard.now.frame.value) }
    ensures { IfOk result (EndsEvent case.now progress.old progress.new event.now (HearsBy (R.state router.old) heard.now.arrival heard.now.frame.value) (R.state router.new)) }
{
    let bytes = heard.frame.as_ref().as_slice();
    let content = read_content(alloc, bytes)?;
    match &content {
        FrameContent::Refused(_) => Ok(true),
        FrameContent::Packet(packet) => {
            let lines = router.hear(alloc, heard.arrival, bytes, packet)?;
            tell_event(alloc, case, event, router, &lines, progress)
        }
    }
}

// A router ticks, or hears a frame: takes the lines behind the first.
fn do_event<R: RouterOfTrace>(
    alloc: Global,
    case: &Case,
    event: &CheckedEvent,
    heard: &Option<ComingFrame>,
    router: &mut R,
    progress: &mut Progress,
) -> Result<bool, AllocError>
    requires event { IsEventOf case.now event.now }
    requires progress { IsProgress case.now progress.old }
    requires comes { (one : _) → heard.now ≡ Some one → IsComing event.now one }
    requires begins { MayBegin event.now (R.state router.old) (EventBy event.now.moment heard.now (R.state router.old)) }
    ensures { IfOk result (EndsEvent case.now progress.old progress.new event.now (EventBy event.now.moment heard.now (R.state router.old)) (R.state router.new)) }
{
    match heard {
        Some(heard) => hear_frame(alloc, case, event, heard, router, progress),
        None => tick_router(alloc, case, event, router, progress),
    }
}

// Takes the lines of the next event, whose frame, if it hears one, is out of the air already.
fn take_event<R: RouterOfTrace>(
    alloc: Global,
    case: &Case,
    next: &NextEvent,
    routers: &mut Vec<R>,
    progress: &mut Progress,
) -> Result<bool, AllocError>
    requires case { IsCase case.now }
    requires progress { IsProgress case.now progress.old }
    requires kept { AreAtRest case.now.scenario.now (map R.state routers.old.items) }
    requires next { (count : ℕ) × (before : Before) × IsReachedNet case.now (net_of case.now (map R.state routers.old.items) count before)
        × IsNextEvent case.now (net_of case.now (map R.state routers.old.items) count before) progress.old.traffic.traffic next.now }
    ensures kept { IfOk result (KeepsRouters case.now progress.new (map R.state routers.new.items)) }
    ensures goes { IfOk result (λ fits. (count : ℕ) (before : Before) (y : ℕ)
        → IsNextEvent case.now (net_of case.now (map R.state routers.old.items) count before) progress.old.traffic.traffic next.now
        → FitsOrStops case.now.trace.now progress.old.reader progress.new.reader (at (net_of case.now (map R.state routers.old.items) count before) y [])
        (at (net_of case.now (map R.state routers.new.items) next.now.last_ticks progress.new) next.now.router []) fits) }
{
    let settings = &case.scenario.routers.as_slice()[next.router];
    let line = opening_line(settings, next);
    if !take_due(case.trace, &line, &mut progress.reader)? {
        return Ok(false);
    }
    let event = CheckedEvent {
        router: next.router,
        settings,
        moment: next.moment,
    };
    let router = &mut routers[next.router];
    do_event(alloc, case, &event, &next.heard, router, progress)
}

// What came of an event whose lines fit or not. Where they fit, the scene knows anew which router ticks first.
fn settle<R: RouterOfTrace>(scene: &mut CheckedNet<R>, fits: bool) -> Outcome
    requires some { IsTrue fits → 0 < length scene.old.routers.items }
    ensures outcome { result ≡ outcome_of fits }
    ensures routers { scene.new.routers.items ≡ scene.old.routers.items }
    ensures last_ticks { scene.new.last_ticks ≡ scene.old.last_ticks }
    ensures first { IsTrue fits → IsFirstDue (map R.state scene.new.routers.items) scene.new.due.router scene.new.due.moment }
{
    if !fits {
        return Outcome::Unfit;
    }
    scene.due = first_due(&scene.routers);
    Outcome::Fits
}

/// Takes the lines of the next event.
pub(crate) fn next_event<R: RouterOfTrace>(
    alloc: Global,
    case: &Case,
    scene: &mut CheckedNet<R>,
    progress: &mut Progress,
) -> Result<Outcome, AllocError>
    requires sound { IsSoundScene case.now (map R.state scene.old.routers.items) scene.old.due scene.old.last_ticks progress.old }
    requires reached { IsReachedNet case.now (net_of case.now (map R.state scene.old.routers.items) scene.old.last_ticks progress.old) }
    ensures comes { IfOk result (Comes case.now progress.old progress.new
        (net_of case.now (map R.state scene.old.routers.items) scene.old.last_ticks progress.old)
        (net_of case.now (map R.state scene.new.routers.items) scene.new.last_ticks progress.new)) }
    ensures sound { IfOk result (λ outcome. outcome ≡ Outcome.Fits
        → IsSoundScene case.now (map R.state scene.new.routers.items) scene.new.due scene.new.last_ticks progress.new) }
    ensures reading { OnOk result (IsReaderOf case.now.trace.now progress.new.reader) }
{
    let Some(next) = next_of(case, scene.due, scene.last_ticks, progress) else {
        return Ok(Outcome::Over);
    };
    let fits = take_event(alloc, case, &next, &mut scene.routers, progress)?;
    scene.last_ticks = next.last_ticks;
    Ok(settle(scene, fits))
}
