//! The event that is next.
ghost use Rattle.std.specs.Prelude.{◌≡◌, ◌<◌, List, length, MatchOption};
ghost use Rattle.mesh_atoms.specs.State.{State};
ghost use Rattle.mesh_replay.specs.Checking.Cases.{IsProgress};
ghost use Rattle.mesh_replay.specs.Checking.Next.{FindsNext, FindsNone, LandsFrame, opening_text};
ghost use Rattle.mesh_replay.specs.Checking.Scenes.{IsSoundScene};
ghost use Rattle.mesh_replay.specs.Checking.Texts.{text_of};
ghost use Rattle.mesh_replay.specs.Checking.Ticking.{HasNoTickLeft, IsFoundTick};

use crate::checking::case::{Case, Progress};
use crate::checking::lines::DueLine;
use crate::checking::scene::FirstTick;
use crate::traffic::Delivered;
use mesh_atoms::{Bytes, RouterSettings, Scenario};
use mesh_machine::{Arrival, sender_of};
use mesh_texts::FrameLine;
use std::rc::Rc;

/// A frame that a router hears: how it comes, and its octets.
#[derive(Drop)]
pub(crate) struct ComingFrame {
    pub(crate) arrival: Arrival,
    pub(crate) frame: Rc<Bytes>,
}

/// The event that is next: of which router, and when; the frame that the router hears, or none where it ticks; and how many routers then
/// had their tick at the end.
#[derive(Drop)]
pub(crate) struct NextEvent {
    pub(crate) router: usize,
    pub(crate) moment: u64,
    pub(crate) heard: Option<ComingFrame>,
    pub(crate) last_ticks: usize,
}

/// The event that is next, whose frame, if it hears one, is then out of the air.
pub(crate) fn next_of(
    case: &Case,
    due: FirstTick,
    last_ticks: usize,
    progress: &mut Progress,
) -> Option<NextEvent>
    requires sound { (routers : List State) × IsSoundScene case.now routers due last_ticks progress.old }
    ensures next { MatchOption result (FindsNone case.now due last_ticks progress.old progress.new)
        (FindsNext case.now due last_ticks progress.old progress.new) }
    ensures reader { progress.new.reader ≡ progress.old.reader }
    ensures progress { IsProgress case.now progress.new }
{
    let limit = u64::min(due.moment, case.scenario.end);
    match progress.traffic.take(limit) {
        Some(landed) => Some(hearing_of(case.scenario, landed, last_ticks)),
        None => next_tick(case.scenario, due, last_ticks),
    }
}

// The event of a frame that is heard where its arc leads to.
fn hearing_of(scenario: &Scenario, landed: Delivered, last_ticks: usize) -> NextEvent
    requires { landed.arc < length scenario.now.arcs }
    ensures { LandsFrame scenario.now landed last_ticks result }
{
    let arc = scenario.arcs.as_slice()[landed.arc];
    let sender = sender_of(scenario, &arc);
    let arrival = Arrival {
        now: landed.moment,
        iface: arc.to_iface,
        sender,
    };
    NextEvent {
        router: arc.to,
        moment: landed.moment,
        heard: Some(ComingFrame {
            arrival,
            frame: landed.frame,
        }),
        last_ticks,
    }
}

// The tick that is next: of the router that is due first, up to the end, and then of the routers in order at the end.
fn next_tick(scenario: &Scenario, due: FirstTick, last_ticks: usize) -> Option<NextEvent>
    ensures { MatchOption result (HasNoTickLeft scenario.now due last_ticks) (IsFoundTick scenario.now due last_ticks) }
{
    if due.moment <= scenario.end {
        return Some(NextEvent {
            router: due.router,
            moment: due.moment,
            heard: None,
            last_ticks,
        });
    }
    if last_ticks < scenario.routers.len() {
        return Some(NextEvent {
            router: last_ticks,
            moment: scenario.end,
            heard: None,
            last_ticks: last_ticks + 1,
        });
    }
    None
}

/// The line that opens an event of a router with these settings.
pub(crate) fn opening_line<'a>(settings: &'a RouterSettings, next: &'a NextEvent) -> DueLine<'a>
    ensures { text_of result ≡ opening_text settings.now next.now.moment next.now.heard }
{
    match &next.heard {
        Some(heard) => DueLine::Frame(FrameLine {
            moment: heard.arrival.now,
            router: settings,
            iface: heard.arrival.iface,
            sender: Some(heard.arrival.sender),
            frame: heard.frame.as_ref().as_slice(),
        }),
        None => DueLine::Tick {
            moment: next.moment,
            settings,
        },
    }
}
