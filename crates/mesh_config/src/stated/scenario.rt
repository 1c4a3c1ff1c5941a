//! The tables of a scenario: arcs, and the top.
ghost use Rattle.std.specs.Prelude.{◌≤◌, ◌≡◌, length, IfOk};
ghost use Rattle.std.specs.Option.{ForSome};
ghost use Rattle.toml.specs.View.{table_view, view};
ghost use Rattle.mesh_atoms.specs.Settings.{IsCount, IsEnd, one_hour, one_millisecond, longest_delay};
ghost use Rattle.mesh_config.specs.Keys.Faults.{GivesSetting, ValueOrFault, first, listed};
ghost use Rattle.mesh_config.specs.Stated.Times.{TimesIs};
ghost use Rattle.mesh_config.specs.Stated.Router.{RouterIs};
ghost use Rattle.mesh_config.specs.Stated.Scenario.{place, AreEnds, end_visits, delay, end_moment, loss_until, sub_times, times_part, routers, routers_visits, arcs, arcs_visits, arc_visits, ArcIs, AreArcFields, arc_number_fields, arc_number_visits, AreTopNumbers, top_visits, scenario_table_visits, ScenarioIs};
ghost use Rattle.mesh_config.specs.Stated.Tables.{Each};

use crate::keys::refusal::{BAD_VALUE, MISSING};
use crate::keys::{
    ConfigFault, array_at, array_or_none, found, known_keys, refused, string_in, table_or, ticks,
    whole_at, whole_or,
};
use crate::stated::router::metric_at;
use crate::stated::stated::{
    ArcNumbers, Place, ScenarioNumbers, StatedArc, StatedEnds, StatedRouter, StatedScenario,
};
use crate::stated::steps::steps_of;
use crate::stated::tables::{FromTable, all_tables};
use crate::stated::times::times_in;
use mesh_atoms::{Bytes, Seq, Times, place_of};
use std::alloc::{AllocError, Global};
use toml::Table;

fn copied(alloc: Global, router_name: &[u8], iface_name: &[u8]) -> Result<Place, AllocError>
    ensures { IfOk result (λ p. (p.router ≡ router_name.now) × (p.iface ≡ iface_name.now)) }
{
    let mut router = Bytes::new(alloc);
    router.append(router_name)?;
    let mut iface = Bytes::new(alloc);
    iface.append(iface_name)?;
    Ok(Place { router, iface })
}

// An end of an arc, which must stand.
fn place_at(alloc: Global, table: &Table, key: &str) -> Result<Place, ConfigFault>
    ensures { GivesSetting (λ p. (p.router, p.iface)) result (place key.now (table_view table.now)) }
{
    match found(table, key) {
        None => Err(refused(alloc, MISSING, key)),
        Some(value) => match string_in(value) {
            None => Err(refused(alloc, BAD_VALUE, key)),
            Some(text) => match place_of(text) {
                None => Err(refused(alloc, BAD_VALUE, key)),
                Some((router, iface)) => Ok(copied(alloc, router, iface)?),
            },
        },
    }
}

fn ends(alloc: Global, table: &Table) -> Result<StatedEnds, ConfigFault>
    ensures { ValueOrFault (AreEnds (table_view table.now)) (first (end_visits (table_view table.now))) result }
{
    let from = place_at(alloc, table, "from")?;
    match place_at(alloc, table, "to") {
        Ok(to) => Ok(StatedEnds { from, to }),
        Err(e) => Err(e),
    }
}

// The delay of an arc, in ticks.
fn delay(alloc: Global, table: &Table) -> Result<u64, ConfigFault>
    ensures read { GivesSetting (λ n. n) result (delay (table_view table.now)) }
    ensures range { IfOk result (IsCount one_millisecond longest_delay) }
{
    let ms = whole_or(alloc, table, "delay_ms", 1, 1000, 1)?;
    Ok(ticks(ms))
}

fn arc_numbers(alloc: Global, table: &Table) -> Result<ArcNumbers, ConfigFault>
    ensures { ValueOrFault (λ n. AreArcFields (table_view table.now) (arc_number_fields n)) (first (arc_number_visits (table_view table.now))) result }
{
    let metric = metric_at(alloc, table)?;
    let loss = whole_or(alloc, table, "loss", 0, 1000, 0)? as u16;
    let delay = delay(alloc, table)?;
    Ok(ArcNumbers {
        metric,
        loss,
        delay,
    })
}

impl FromTable for StatedArc {
    ghost visits = { arc_visits };

    ghost says = { ArcIs };

    fn from_table(alloc: Global, table: &Table) -> Result<StatedArc, ConfigFault> {
        known_keys(
            alloc,
            table,
            &["from", "to", "metric", "loss", "delay_ms", "quality"],
        )?;
        let ends = ends(alloc, table)?;
        let numbers = arc_numbers(alloc, table)?;
        match steps_of(alloc, table) {
            Ok(steps) => Ok(StatedArc {
                ends,
                numbers,
                steps,
            }),
            Err(e) => Err(e),
        }
    }
}

/// The end of the run, from 1 ms to an hour, in ticks, which must stand.
pub fn end_moment(alloc: Global, table: &Table) -> Result<u64, ConfigFault>
    ensures read { GivesSetting (λ n. n) result (end_moment (table_view table.now)) }
    ensures range { IfOk result IsEnd }
{
    let ms = whole_at(alloc, table, "end_ms", 1, 3_600_000)?;
    Ok(ticks(ms))
}

// The moment before which frames may be lost, in ticks, where there is one.
fn loss_until(alloc: Global, table: &Table) -> Result<Option<u64>, ConfigFault>
    ensures read { GivesSetting (λ n. n) result (loss_until (table_view table.now)) }
    ensures range { IfOk result (λ n. ForSome n (λ moment. moment ≤ one_hour)) }
{
    match found(table, "loss_until_ms") {
        None => Ok(None),
        Some(_) => {
            let ms = whole_at(alloc, table, "loss_until_ms", 0, 3_600_000)?;
            Ok(Some(ticks(ms)))
        }
    }
}

/// The times of the table at `times`, in ticks, or those that stand where it is absent; or the first fault there.
pub fn times_of(alloc: Global, table: &Table) -> Result<Times, ConfigFault>
    ensures { ValueOrFault (TimesIs (sub_times (table_view table.now))) (first (times_part (table_view table.now))) result }
{
    let empty = Table::new(alloc);
    let inner = table_or(alloc, table, "times", &empty)?;
    times_in(alloc, inner)
}

fn routers_of(alloc: Global, table: &Table) -> Result<Seq<StatedRouter>, ConfigFault>
    ensures answer { ValueOrFault (Each RouterIs (listed (routers (table_view table.now)))) (first (routers_visits (table_view table.now))) result }
    ensures size { IfOk result (λ xs. IsCount 1 64 (length xs)) }
{
    let values = array_at(alloc, table, "router", 1, 64)?;
    all_tables(alloc, "router", values)
}

fn arcs_of(alloc: Global, table: &Table) -> Result<Seq<StatedArc>, ConfigFault>
    ensures answer { ValueOrFault (Each ArcIs (listed (arcs (table_view table.now)))) (first (arcs_visits (table_view table.now))) result }
    ensures size { IfOk result (λ xs. length xs ≤ 4096) }
{
    let values = array_or_none(alloc, table, "arc", 4096)?;
    all_tables(alloc, "arc", values)
}

fn top_numbers(alloc: Global, table: &Table) -> Result<ScenarioNumbers, ConfigFault>
    ensures { ValueOrFault (AreTopNumbers (table_view table.now)) (first (top_visits (table_view table.now))) result }
{
    let end = end_moment(alloc, table)?;
    let seed = whole_or(alloc, table, "seed", 0, 9_223_372_036_854_775_807, 0)?;
    let loss_until = loss_until(alloc, table)?;
    Ok(ScenarioNumbers {
        end,
        seed,
        loss_until,
    })
}

/// What the tables of a scenario say, or the first fault of their visits.
pub fn stated_scenario(alloc: Global, table: &Table) -> Result<StatedScenario, ConfigFault>
    ensures { ValueOrFault (ScenarioIs (table_view table.now)) (first (scenario_table_visits (table_view table.now))) result }
{
    known_keys(
        alloc,
        table,
        &["end_ms", "seed", "loss_until_ms", "times", "router", "arc"],
    )?;
    let numbers = top_numbers(alloc, table)?;
    let times = times_of(alloc, table)?;
    let routers = routers_of(alloc, table)?;
    match arcs_of(alloc, table) {
        Ok(arcs) => Ok(StatedScenario {
            numbers,
            times,
            routers,
            arcs,
        }),
        Err(e) => Err(e),
    }
}
