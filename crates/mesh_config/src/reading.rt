//! A scenario, or the setup of `run`, out of its text.
ghost use Rattle.std.specs.Prelude.{◌≡◌, None, IfOk, IfErr};
ghost use Rattle.mesh_config.specs.Keys.Document.{TextSays, text_visits};
ghost use Rattle.mesh_config.specs.Keys.Faults.{ValueOrFault, first, IfSettingRefused};
ghost use Rattle.mesh_config.specs.Built.{stated_visits, BuiltFrom};
ghost use Rattle.mesh_config.specs.Settings.{SettingsIs, refusals, FirstRefusal};
ghost use Rattle.mesh_config.specs.RunSettings.{stated_run_checks, RunRouterFrom, SetupIs, run_refusals, FirstRunRefusal};

use crate::build::{make_routers, router_from};
use crate::checks::{all_joined, no_duplicates, refuse_duplicates};
use crate::keys::{ConfigFault, document};
use crate::run_tables::{StatedRunRouter, stated_run};
use crate::setup::{are_senders_distinct, run_interfaces};
use crate::stated::{FromTable, StatedScenario, stated_scenario};
use mesh_atoms::{RouterSettings, RunSetup, Scenario, Times};
use std::alloc::Global;
use toml::Table;

// The value that the top table of the text stands for, or the first fault of the visits of the text.
fn from_text<T: FromTable>(alloc: Global, text: &[u8]) -> Result<T, ConfigFault>
    ensures { ValueOrFault (TextSays T.says text.now) (first (text_visits T.visits text.now)) result }
{
    let table = document(alloc, text)?;
    T::from_table(alloc, &table)
}

// The checks after the walk, and the scenario where they hold.
fn checked(alloc: Global, stated: &StatedScenario) -> Result<Scenario, ConfigFault>
    ensures { ValueOrFault (BuiltFrom stated.now) (first (stated_visits stated.now)) result }
{
    let all = stated.routers.as_slice();
    no_duplicates(alloc, all)?;
    let stated_arcs = stated.arcs.as_slice();
    let arcs = all_joined(alloc, all, stated_arcs)?;
    let routers = make_routers(alloc, all, arcs.as_slice(), stated_arcs, stated.times)?;
    Ok(Scenario {
        end: stated.numbers.end,
        seed: stated.numbers.seed,
        loss_until: stated.numbers.loss_until,
        routers,
        arcs,
    })
}

impl FromTable for Scenario {
    ghost use Rattle.mesh_config.specs.Checks.Checks.{scenario_visits};
    ghost use Rattle.mesh_config.specs.Settings.{ScenarioSays};

    ghost visits = { scenario_visits };

    ghost says = { ScenarioSays };

    fn from_table(alloc: Global, table: &Table) -> Result<Scenario, ConfigFault> {
        let stated = stated_scenario(alloc, table)?;
        checked(alloc, &stated)
    }
}

// The checks after the walk, and the router of `run` where they hold.
fn checked_router(
    alloc: Global,
    stated: &StatedRunRouter,
    times: Times,
) -> Result<RouterSettings, ConfigFault>
    ensures { ValueOrFault (RunRouterFrom times stated.now) (first (stated_run_checks stated.now)) result }
{
    let router = &stated.router;
    no_duplicates(alloc, std::slice::from_ref(router))?;
    let costs = stated.costs.as_slice();
    refuse_duplicates(alloc, are_senders_distinct(costs), "address")?;
    let faces = router.interfaces.as_slice();
    let interfaces = run_interfaces(alloc, faces, router.head.rules.thresholds, costs)?;
    Ok(router_from(router, times, interfaces)?)
}

impl FromTable for RunSetup {
    ghost use Rattle.mesh_config.specs.RunSettings.{setup_visits, SetupSays};

    ghost visits = { setup_visits };

    ghost says = { SetupSays };

    fn from_table(alloc: Global, table: &Table) -> Result<RunSetup, ConfigFault> {
        let stated = stated_run(alloc, table)?;
        match checked_router(alloc, &stated.router, stated.times) {
            Ok(router) => Ok(RunSetup {
                end: stated.end,
                router,
                ports: stated.router.ports,
            }),
            Err(e) => Err(e),
        }
    }
}

/// The scenario that the text says, or the first refusal: the number of the fault and the key that it is printed with.
/// Text of more than 1,048,576 octets is refused before it is read.
pub fn scenario_of(alloc: Global, text: &[u8]) -> Result<Scenario, ConfigFault>
    ensures says { IfOk result (SettingsIs text.now) }
    ensures clear { IfOk result (λ _. first (refusals text.now) ≡ None) }
    ensures refused { IfErr result (IfSettingRefused (FirstRefusal text.now)) }
{
    from_text(alloc, text)
}

/// The setup of `run` that the text says, or the first refusal: the number of the fault and the key that it is printed with.
pub fn router_of(alloc: Global, text: &[u8]) -> Result<RunSetup, ConfigFault>
    ensures says { IfOk result (SetupIs text.now) }
    ensures clear { IfOk result (λ _. first (run_refusals text.now) ≡ None) }
    ensures refused { IfErr result (IfSettingRefused (FirstRunRefusal text.now)) }
{
    from_text(alloc, text)
}
