//! What the table of a router says of the links that it admits, and of its TCs.
ghost use Rattle.std.specs.Prelude.{◌≤◌, length, map, IfOk, IsTrue};
ghost use Rattle.toml.specs.View.{table_view};
ghost use Rattle.mesh_atoms.specs.Settings.{are_ascending, IsInterval};
ghost use Rattle.mesh_config.specs.Keys.Faults.{GivesSetting, ValueOrFault, first, listed};
ghost use Rattle.mesh_config.specs.Stated.Rules.{threshold_visits, AreThresholds, hops, near_hold_ms, near_hold_visits, NearHoldIs, near_holds, near_holds_visits};
ghost use Rattle.mesh_config.specs.Stated.Tables.{Each};

use crate::keys::{ConfigFault, array_or_none, known_keys, ticks, whole_at, whole_or};
use crate::stated::rising::{FromRising, all_rising, refuse_below};
use crate::stated::stated::Thresholds;
use mesh_atoms::{NearHold, Seq};
use std::alloc::Global;
use toml::Table;

/// The thresholds of the links of a router (RFC 6130, section 14), up to 100 and 0 where they are absent. The one to reject
/// below is refused where it is greater than the one to accept from.
pub fn thresholds(alloc: Global, table: &Table) -> Result<Thresholds, ConfigFault>
    ensures { ValueOrFault (λ t. AreThresholds (table_view table.now) t.accept t.reject) (first (threshold_visits (table_view table.now))) result }
{
    let accept = whole_or(alloc, table, "hyst_accept", 0, 100, 0)?;
    let reject = whole_or(alloc, table, "hyst_reject", 0, accept, 0)?;
    Ok(Thresholds {
        accept: accept as u8,
        reject: reject as u8,
    })
}

// The hold time of a near hold, in ticks.
fn near_hold(alloc: Global, table: &Table) -> Result<u64, ConfigFault>
    ensures read { GivesSetting (λ n. n) result (near_hold_ms (table_view table.now)) }
    ensures range { IfOk result IsInterval }
{
    let ms = whole_at(alloc, table, "hold_ms", 100, 3_600_000)?;
    Ok(ticks(ms))
}

impl FromRising for NearHold {
    ghost number = { hops };

    ghost visits = { near_hold_visits };

    ghost says = { NearHoldIs };

    fn from_table(
        alloc: Global,
        table: &Table,
        least: u64,
    ) -> Result<(NearHold, u32), ConfigFault> {
        known_keys(alloc, table, &["hops", "hold_ms"])?;
        let hops = whole_at(alloc, table, "hops", 1, 254)?;
        refuse_below(alloc, hops, least, "hops")?;
        let hold = near_hold(alloc, table)?;
        let near = NearHold {
            hops: hops as u8,
            hold,
        };
        Ok((near, hops as u32))
    }
}

/// How long near routers hold what a TC of the router says: at most 8 near holds, each of more hops than the one before; or the
/// first fault there.
pub fn near_holds_of(alloc: Global, table: &Table) -> Result<Seq<NearHold>, ConfigFault>
    ensures answer { ValueOrFault (Each NearHoldIs (listed (near_holds (table_view table.now)))) (first (near_holds_visits (table_view table.now))) result }
    ensures size { IfOk result (λ nears. length nears ≤ 8) }
    ensures order { IfOk result (λ nears. IsTrue (are_ascending (map (λ n. n.hops) nears))) }
{
    let values = array_or_none(alloc, table, "near_hold", 8)?;
    all_rising(alloc, "near_hold", values)
}
