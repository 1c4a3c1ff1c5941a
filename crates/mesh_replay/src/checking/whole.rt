//! Whether a whole trace is that of a run.
ghost use Rattle.std.specs.Prelude.{◌≡◌, ◌↔◌, ℕ, length, map, IfOk};
ghost use Rattle.mesh_trace.specs.machine.Net.{NetState};
ghost use Rattle.mesh_trace.specs.machine.NetRun.{IsOver};
ghost use Rattle.mesh_replay.specs.Checking.Answers.{ReplayAnswers};
ghost use Rattle.mesh_replay.specs.Checking.Reached.{HasRead};
ghost use Rattle.mesh_replay.specs.Checking.Scenes.{IsSoundScene, net_of};
ghost use Rattle.mesh_trace.specs.Positions.Leading.{IsUnfit, IsWholeTrace};
ghost use Rattle.mesh_trace.specs.Reading.Lines.{lines_of};
ghost use Rattle.mesh_trace.specs.Reading.Readers.{IsReaderOf};

use crate::answer::Replay;
use crate::checking::case::{Case, Progress};
use crate::checking::checked::CheckedRouter;
use crate::checking::opening::{opening_net, opening_progress, routers_of};
use crate::checking::router::RouterOfTrace;
use crate::checking::scene::{CheckedNet, Outcome};
use crate::checking::step::next_event;
use mesh_atoms::Scenario;
use mesh_expire::Bases;
use mesh_machine::ways_of;
use std::alloc::{AllocError, Global};

/// Whether a trace is that of a run of the emulated network of a scenario up to its end: yes exactly where it is whole, and else the first
/// line that doesn't fit. After 2^64 - 1 events it gives up as if an allocation had failed.
pub fn replay<B: Bases>(
    alloc: Global,
    scenario: &Scenario,
    trace: &[u8],
) -> Result<Replay, AllocError>
    ensures answers { IfOk result (ReplayAnswers scenario.now (lines_of trace.now)) }
    ensures yes { IfOk result (λ answer. (lines : ℕ) → answer ≡ Replay.Yes lines
        ↔ IsWholeTrace scenario.now (lines_of trace.now) × (lines ≡ length (lines_of trace.now))) }
    ensures no { IfOk result (λ answer. (line : ℕ) → answer ≡ Replay.No line ↔ IsUnfit scenario.now (lines_of trace.now) line) }
{
    replay_with::<CheckedRouter<B>>(alloc, scenario, trace)
}

// The same with routers that are given by their type.
fn replay_with<R: RouterOfTrace>(
    alloc: Global,
    scenario: &Scenario,
    trace: &[u8],
) -> Result<Replay, AllocError>
    ensures { IfOk result (ReplayAnswers scenario.now (lines_of trace.now)) }
{
    let ways = ways_of(alloc, scenario.routers.as_slice(), scenario.arcs.as_slice())?;
    let case = Case {
        trace,
        scenario,
        ways,
    };
    let mut progress = opening_progress(alloc, scenario);
    let routers = routers_of::<R>(alloc, scenario.routers.as_slice())?;
    let mut scene = opening_net(routers);
    check(alloc, &case, &mut scene, &mut progress)
}

// Takes the lines of one event after the other, from where those that were read lead to.
fn check<R: RouterOfTrace>(
    alloc: Global,
    case: &Case,
    scene: &mut CheckedNet<R>,
    progress: &mut Progress,
) -> Result<Replay, AllocError>
    requires sound { IsSoundScene case.now (map R.state scene.old.routers.items) scene.old.due scene.old.last_ticks progress.old }
    requires read { HasRead case.now progress.old.reader (net_of case.now (map R.state scene.old.routers.items) scene.old.last_ticks progress.old) }
    ensures { IfOk result (ReplayAnswers case.now.scenario.now (lines_of case.now.trace.now)) }
{
    for _ in 0..u64::MAX {
        match next_event(alloc, case, scene, progress)? {
            Outcome::Fits => {}
            Outcome::Unfit => {
                let line = progress.reader.taken + 1;
                return Ok(Replay::No { line });
            }
            Outcome::Over => return Ok(at_end(case, progress)),
        }
    }
    Err(AllocError)
}

// The answer where no event is left: no line may be left either.
fn at_end(case: &Case, progress: &Progress) -> Replay
    requires reading { IsReaderOf case.now.trace.now progress.now.reader }
    requires over { (net : NetState) × HasRead case.now progress.now.reader net × IsOver net }
    ensures { ReplayAnswers case.now.scenario.now (lines_of case.now.trace.now) result }
{
    let lines = progress.reader.taken;
    if progress.reader.is_done(case.trace) {
        Replay::Yes { lines }
    } else {
        let line = lines + 1;
        Replay::No { line }
    }
}
