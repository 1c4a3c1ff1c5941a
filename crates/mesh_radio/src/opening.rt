//! A network before its first event.
ghost use Rattle.std.specs.Prelude.{◌≡◌, [], map, IfOk};
ghost use Rattle.mesh_radio.specs.Opening.{IsOpeningScene};
ghost use Rattle.mesh_machine.specs.NetRun.{IsOpeningNet};
ghost use Rattle.mesh_radio.specs.Scene.{IsSound, net_of};

use crate::routers::{MadeRouter, first_due, routers_of};
use crate::scene::{Due, Scene};
use crate::traffic::{FramesInAir, RadioTraffic};
use mesh_atoms::{Counts, RouterSettings, Scenario, Seq};
use mesh_core::Outbox;
use mesh_machine::{Draws, ways_of};
use std::alloc::{AllocError, Global};

/// The routers of a network, and what it has besides.
#[derive(Drop)]
pub(crate) struct Opening<R> {
    pub(crate) routers: Vec<R>,
    pub(crate) scene: Scene,
}

/// The network of a scenario before its first event.
pub(crate) fn opening_of<R: MadeRouter>(
    alloc: Global,
    scenario: &Scenario,
) -> Result<Opening<R>, AllocError>
    ensures sound { IfOk result (λ opening. IsSound (map R.state opening.routers.items) opening.scene) }
    ensures opening { IfOk result (λ opening. IsOpeningNet scenario.now (net_of (map R.state opening.routers.items) opening.scene)) }
{
    let routers: Vec<R> = routers_of(alloc, scenario.routers.as_slice())?;
    let scene = opening_scene(alloc, scenario, first_due(&routers))?;
    Ok(Opening { routers, scene })
}

/// What the network of a scenario has besides its routers before its first event, where this is due first.
fn opening_scene(alloc: Global, scenario: &Scenario, due: Due) -> Result<Scene, AllocError>
    ensures { IfOk result (IsOpeningScene scenario.now due) }
{
    let ways = ways_of(alloc, scenario.routers.as_slice(), scenario.arcs.as_slice())?;
    let scenario = copy_of(alloc, scenario)?;
    let traffic = no_traffic(alloc, scenario.seed);
    Ok(Scene {
        scenario,
        ways,
        outbox: Outbox::new(alloc),
        traffic,
        due,
        last_ticks: 0,
        now: 0,
    })
}

/// Nothing in the air, no count, and no draw yet.
fn no_traffic(alloc: Global, seed: u64) -> RadioTraffic
    ensures { result ≡ record { air = []; counts = record { sent = 0; delivered = 0; lost = 0 }; draws = record { seed = seed; drawn = 0 } } }
{
    RadioTraffic {
        air: FramesInAir::new(alloc),
        counts: Counts {
            sent: 0,
            delivered: 0,
            lost: 0,
        },
        draws: Draws::new(seed),
    }
}

/// An equal scenario.
fn copy_of(alloc: Global, scenario: &Scenario) -> Result<Scenario, AllocError>
    ensures { IfOk result (λ copy. copy ≡ scenario.now) }
{
    let routers = copy_routers(alloc, &scenario.routers)?;
    let arcs = scenario.arcs.copy()?;
    Ok(Scenario {
        end: scenario.end,
        seed: scenario.seed,
        loss_until: scenario.loss_until,
        routers,
        arcs,
    })
}

fn copy_routers(
    alloc: Global,
    routers: &Seq<RouterSettings>,
) -> Result<Seq<RouterSettings>, AllocError>
    ensures { IfOk result (λ copy. copy ≡ routers.now) }
{
    let mut copies = Seq::new(alloc);
    for router in routers.as_slice() {
        copies.push(router.copy()?)?;
    }
    Ok(copies)
}
