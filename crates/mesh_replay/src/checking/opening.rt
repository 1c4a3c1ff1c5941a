//! Before the first line.
ghost use Rattle.std.specs.Prelude.{◌<◌, length, map, IfOk};
ghost use Rattle.mesh_atoms.specs.declared.settings.Scenario.{Scenario};
ghost use Rattle.mesh_trace.specs.machine.Net.{IsFirstDue};
ghost use Rattle.mesh_replay.specs.Checking.Opening.{AreAtOpening, IsOpeningProgress, IsAtFirstLine};

use crate::checking::case::Progress;
use crate::checking::router::RouterOfTrace;
use crate::checking::scene::{CheckedNet, FirstTick};
use crate::traffic::TraceTraffic;
use mesh_atoms::{RouterSettings, Scenario};
use mesh_trace::Reader;
use std::alloc::{AllocError, Global};

/// No line was read, and nothing flies.
pub(crate) fn opening_progress(alloc: Global, scenario: &Scenario) -> Progress
    ensures { IsOpeningProgress scenario.now.seed result }
{
    Progress {
        reader: Reader::new(alloc),
        traffic: TraceTraffic::new(alloc, scenario.seed),
    }
}

/// A network of these routers before their first events.
pub(crate) fn opening_net<R: RouterOfTrace>(routers: Vec<R>) -> CheckedNet<R>
    requires some { 0 < length routers.items }
    ensures { (scenario : Scenario) → AreAtOpening scenario.routers (map R.state routers.items) → IsAtFirstLine scenario (map R.state result.routers.items) result.due result.last_ticks }
{
    let due = first_due(&routers);
    CheckedNet {
        routers,
        due,
        last_ticks: 0,
    }
}

/// The routers with these settings before their first events.
pub(crate) fn routers_of<R: RouterOfTrace>(
    alloc: Global,
    settings: &[RouterSettings],
) -> Result<Vec<R>, AllocError>
    ensures { IfOk result (λ routers. AreAtOpening settings.now (map R.state routers.items)) }
{
    let mut routers = Vec::new(alloc);
    for one in settings {
        routers.push(R::make(alloc, one)?)?;
    }
    Ok(routers)
}

/// The router that ticks first, and when.
pub(crate) fn first_due<R: RouterOfTrace>(routers: &Vec<R>) -> FirstTick
    requires { 0 < length routers.now.items }
    ensures { IsFirstDue (map R.state routers.now.items) result.router result.moment }
{
    let mut first = FirstTick {
        router: 0,
        moment: routers[0].due_next(),
    };
    for (router, one) in routers.iter().enumerate() {
        let moment = one.due_next();
        if moment < first.moment {
            first = FirstTick { router, moment };
        }
    }
    first
}
