//! Scenarios that are made.
ghost use Rattle.std.specs.Prelude.{◌<◌, ◌^◌, IfOk};
ghost use Rattle.mesh_atoms.specs.Settings.{IsCount};
ghost use Rattle.mesh_emulate.specs.Making.Scenario.{IsMade};

use crate::making::arcs::arcs_of;
use crate::making::kind::Kind;
use crate::making::pairs::pairs_of;
use crate::making::stated::stated_routers;
use mesh_atoms::{DEFAULT_TIMES, Scenario};
use mesh_config::make_routers;
use std::alloc::{AllocError, Global};

/// The scenario of 2 to 64 routers that is made by a seed.
pub fn made(alloc: Global, kind: Kind, routers: usize, seed: u64) -> Result<Scenario, AllocError>
    requires count { IsCount 2 64 routers }
    requires seed { seed < 2 ^ 63 }
    ensures { IfOk result (IsMade kind routers seed) }
{
    let pairs = pairs_of(alloc, kind, routers, seed)?;
    let arcs = arcs_of(alloc, kind, routers, seed, pairs.as_slice())?;
    let stated = stated_routers(alloc, routers)?;
    let routers = make_routers(
        alloc,
        stated.as_slice(),
        arcs.as_slice(),
        &[],
        DEFAULT_TIMES,
    )?;
    Ok(Scenario {
        end: 491_520,
        seed,
        loss_until: Some(163_840),
        routers,
        arcs,
    })
}
