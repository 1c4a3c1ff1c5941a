//! The qualities of what a sender sends.
ghost use Rattle.std.specs.Prelude.{◌≤◌, length, map, IfOk, IsTrue};
ghost use Rattle.toml.specs.View.{table_view};
ghost use Rattle.mesh_atoms.specs.Settings.{are_ascending};
ghost use Rattle.mesh_config.specs.Keys.Faults.{ValueOrFault, first};
ghost use Rattle.mesh_config.specs.Stated.Steps.{at_ms, step_visits, StepIs, steps_visits, StepsAre};

use crate::keys::{ConfigFault, array_or_none, known_keys, ticks, whole_at};
use crate::stated::rising::{FromRising, all_rising, refuse_below};
use mesh_atoms::{QualityStep, Seq};
use std::alloc::Global;
use toml::Table;

impl FromRising for QualityStep {
    ghost number = { at_ms };

    ghost visits = { step_visits };

    ghost says = { StepIs };

    fn from_table(
        alloc: Global,
        table: &Table,
        least: u64,
    ) -> Result<(QualityStep, u32), ConfigFault> {
        known_keys(alloc, table, &["at_ms", "value"])?;
        let at_ms = whole_at(alloc, table, "at_ms", 0, 3_600_000)?;
        refuse_below(alloc, at_ms, least, "at_ms")?;
        let quality = whole_at(alloc, table, "value", 0, 100)? as u8;
        let at = ticks(at_ms);
        Ok((QualityStep { at, quality }, at_ms as u32))
    }
}

/// The qualities that the table of an arc or of a neighbour says, or the first fault of their visits.
pub fn steps_of(alloc: Global, table: &Table) -> Result<Seq<QualityStep>, ConfigFault>
    ensures answer { ValueOrFault (StepsAre (table_view table.now)) (first (steps_visits (table_view table.now))) result }
    ensures size { IfOk result (λ steps. length steps ≤ 16) }
    ensures order { IfOk result (λ steps. IsTrue (are_ascending (map (λ s. s.at) steps))) }
{
    let values = array_or_none(alloc, table, "quality", 16)?;
    all_rising(alloc, "quality", values)
}
