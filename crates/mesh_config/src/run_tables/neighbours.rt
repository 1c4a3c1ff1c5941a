//! The neighbours of an interface: the metrics and the qualities of what they send.
ghost use Rattle.std.specs.Prelude.{◌≡◌, ◌≤◌, length, map, IfOk};
ghost use Rattle.toml.specs.View.{table_view};
ghost use Rattle.mesh_config.specs.Keys.Faults.{ValueOrFault, first, listed};
ghost use Rattle.mesh_config.specs.Stated.Tables.{Each};
ghost use Rattle.mesh_config.specs.RunTables.Run.{neighbour_visits, neighbours, neighbours_visits, StatedNeighbourIs};

use crate::keys::{ConfigFault, address_at, array_or_none, known_keys};
use crate::run_tables::stated::StatedNeighbour;
use crate::stated::{FromTable, all_tables, metric_at, steps_of};
use mesh_atoms::{SenderMetric, SenderQuality, Seq};
use std::alloc::{AllocError, Global};
use toml::Table;

impl FromTable for StatedNeighbour {
    ghost visits = { neighbour_visits };

    ghost says = { StatedNeighbourIs };

    fn from_table(alloc: Global, table: &Table) -> Result<StatedNeighbour, ConfigFault> {
        known_keys(alloc, table, &["address", "metric", "quality"])?;
        let sender = address_at(alloc, table, "address")?;
        let metric = metric_at(alloc, table)?;
        match steps_of(alloc, table) {
            Ok(steps) => Ok(StatedNeighbour {
                cost: SenderMetric { sender, metric },
                quality: SenderQuality { sender, steps },
            }),
            Err(e) => Err(e),
        }
    }
}

/// The neighbours that the table of an interface says, or the first fault of their visits.
pub fn neighbours_of(alloc: Global, table: &Table) -> Result<Seq<StatedNeighbour>, ConfigFault>
    ensures answer { ValueOrFault (Each StatedNeighbourIs (listed (neighbours (table_view table.now)))) (first (neighbours_visits (table_view table.now))) result }
    ensures size { IfOk result (λ xs. length xs ≤ 1024) }
{
    let values = array_or_none(alloc, table, "neighbour", 1024)?;
    all_tables(alloc, "neighbour", values)
}

/// The metrics and the qualities of what the neighbours send.
pub fn senders_of(
    alloc: Global,
    neighbours: &[StatedNeighbour],
) -> Result<(Seq<SenderMetric>, Seq<SenderQuality>), AllocError>
    ensures metrics { IfOk result (λ both. both.0 ≡ map (λ n. n.cost) neighbours.now) }
    ensures qualities { IfOk result (λ both. both.1 ≡ map (λ n. n.quality) neighbours.now) }
{
    let mut metrics = Seq::new(alloc);
    let mut qualities = Seq::new(alloc);
    for neighbour in neighbours {
        metrics.push(neighbour.cost)?;
        qualities.push(neighbour.quality.copy()?)?;
    }
    Ok((metrics, qualities))
}
