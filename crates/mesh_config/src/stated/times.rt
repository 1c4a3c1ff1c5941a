//! The table of times.
ghost use Rattle.std.specs.Prelude.{◌≤◌, IfOk};
ghost use Rattle.toml.specs.View.{table_view};
ghost use Rattle.mesh_config.specs.Keys.Faults.{GivesSetting, ValueOrFault, first};
ghost use Rattle.mesh_config.specs.Stated.Times.{interval, times_visits, TimesIs};
ghost use Rattle.mesh_atoms.specs.Settings.{IsInterval};

use crate::keys::{ConfigFault, known_keys, ticks, whole_or};
use mesh_atoms::Times;
use std::alloc::Global;
use toml::Table;

// An interval or a hold time of 100 ms to an hour, in ticks.
fn interval(alloc: Global, table: &Table, key: &str, default: u64) -> Result<u64, ConfigFault>
    requires low { 100 ≤ default }
    requires high { default ≤ 3600000 }
    ensures read { GivesSetting (λ n. n) result (interval (table_view table.now) (key.now, default)) }
    ensures range { IfOk result IsInterval }
{
    let ms = whole_or(alloc, table, key, 100, 3_600_000, default)?;
    Ok(ticks(ms))
}

/// The times that the table says, in ticks, each from 100 ms to an hour, and the hop limit of TCs; the default for each key that
/// is absent (RFC 6130, section 5, and RFC 7181, section 5). An unknown key is refused before all others.
pub fn times_in(alloc: Global, table: &Table) -> Result<Times, ConfigFault>
    ensures { ValueOrFault (TimesIs (table_view table.now)) (first (times_visits (table_view table.now))) result }
{
    known_keys(
        alloc,
        table,
        &[
            "hello_ms",
            "hold_ms",
            "link_hold_ms",
            "neighbour_hold_ms",
            "tc_ms",
            "topology_hold_ms",
            "advertised_hold_ms",
            "received_hold_ms",
            "processed_hold_ms",
            "forwarded_hold_ms",
            "tc_hop_limit",
        ],
    )?;
    Ok(Times {
        hello: interval(alloc, table, "hello_ms", 2000)?,
        hold: interval(alloc, table, "hold_ms", 6000)?,
        link_hold: interval(alloc, table, "link_hold_ms", 6000)?,
        neighbour_hold: interval(alloc, table, "neighbour_hold_ms", 6000)?,
        tc: interval(alloc, table, "tc_ms", 5000)?,
        topology_hold: interval(alloc, table, "topology_hold_ms", 15000)?,
        advertised_hold: interval(alloc, table, "advertised_hold_ms", 15000)?,
        received_hold: interval(alloc, table, "received_hold_ms", 30000)?,
        processed_hold: interval(alloc, table, "processed_hold_ms", 30000)?,
        forwarded_hold: interval(alloc, table, "forwarded_hold_ms", 30000)?,
        tc_hop_limit: whole_or(alloc, table, "tc_hop_limit", 1, 255, 255)? as u8,
    })
}
