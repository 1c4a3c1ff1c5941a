//! What is known before the first event: the scenario, and what is wanted of it.
ghost use Rattle.std.specs.Prelude.{IfOk, IfErr};
ghost use Rattle.mesh_config.specs.Settings.{FirstRefusal};
ghost use Rattle.mesh_emulate.specs.Emulation.{States, IsRefused};
ghost use Rattle.mesh_emulate.specs.Prepared.{IsPrepared};
ghost use Rattle.mesh_emulate.specs.Wants.{wants_of};
ghost use Rattle.mesh_config.specs.Keys.Faults.{IfSettingRefused};

use crate::wanted::{Errand, Wanted, errand_of};
use mesh_atoms::Scenario;
use mesh_config::{ConfigFault, scenario_of};
use std::alloc::Global;

/// The scenario that an input states, and what is wanted of it, by numbers of its routers.
#[derive(Drop)]
pub struct Prepared {
    pub scenario: Scenario,
    pub errand: Errand,
}

// The scenario that the input states.
fn read_scenario(alloc: Global, input: &[u8]) -> Result<Scenario, ConfigFault>
    ensures stated { IfOk result (States input.now) }
    ensures refused { IfErr result (IfSettingRefused (FirstRefusal input.now)) }
{
    scenario_of(alloc, input)
}

/// What the input states, and what is wanted of it, or the first refusal.
pub fn prepare(alloc: Global, input: &[u8], wanted: &Wanted) -> Result<Prepared, ConfigFault>
    ensures ready { IfOk result (IsPrepared input.now (wants_of wanted.now)) }
    ensures refused { IfErr result (IfSettingRefused (IsRefused input.now (wants_of wanted.now))) }
{
    let scenario = match read_scenario(alloc, input) {
        Ok(scenario) => scenario,
        Err(fault) => return Err(fault),
    };
    match errand_of(alloc, &scenario, wanted) {
        Ok(errand) => Ok(Prepared { scenario, errand }),
        Err(fault) => Err(fault),
    }
}
