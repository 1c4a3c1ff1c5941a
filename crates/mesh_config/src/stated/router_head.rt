//! A router's own keys: what its table says of the router itself, what stands where it says nothing, and settings out of it.
ghost use Rattle.std.specs.Prelude.{◌≤◌, length, map, IsTrue};
ghost use Rattle.mesh_atoms.specs.Settings.{IsCount, IsName, are_ascending, one_hour};
ghost use Rattle.mesh_atoms.specs.declared.limits.TheConstants.{MOST_TC_ROWS};

use crate::keys::{ConfigFault, known_keys, name_at, ticks, whole_or};
use crate::stated::rules::{near_holds_of, thresholds};
use crate::stated::stated::Thresholds;
use crate::stated::tables::FromTable;
use mesh_atoms::{
    Attached4, Bytes, DEFAULT_TC_ROWS, Interface, MOST_TC_ROWS, NearHold, RouterSettings, Seq,
    Times, Willing,
};
use std::alloc::{AllocError, Global};
use toml::Table;

/// What the table of a router says of its TCs: how many rows one has at most, and how long near routers hold what it says.
#[derive(Drop)]
pub struct TcRules {
    pub rows: usize,
    pub near_hold: Seq<NearHold>,
    pub ghost rows_in_range: { IsCount 1 MOST_TC_ROWS rows },
    pub ghost few_near_holds: { length near_hold ≤ 8 },
    pub ghost near_holds_in_order: { IsTrue (are_ascending (map (λ n. n.hops) near_hold)) },
}

/// What the table of a router says of how it takes part: its willingness, the thresholds of its links, the moments of its first HELLO and
/// its first TC, in ticks of 1/8192 s, and its TCs.
#[derive(Drop)]
pub struct RouterRules {
    pub willing: Willing,
    pub thresholds: Thresholds,
    pub hello_at: u64,
    pub tc_at: u64,
    pub tc: TcRules,
    pub ghost hello_range: { hello_at ≤ one_hour },
    pub ghost tc_range: { tc_at ≤ one_hour },
}

/// What the table of a router says of itself.
#[derive(Drop)]
pub struct RouterHead {
    pub name: Bytes,
    pub rules: RouterRules,
    pub ghost named: { IsName name },
}

impl RouterHead {
    ghost use Rattle.std.specs.Prelude.{◌≡◌, IfOk};
    ghost use Rattle.std.specs.List.{flat_map};
    ghost use Rattle.toml.specs.View.{table_view};
    ghost use Rattle.mesh_config.specs.Fields.{AreOfOneRouter};
    ghost use Rattle.mesh_config.specs.Keys.Faults.{GivesSetting, ValueOrFault};
    ghost use Rattle.mesh_config.specs.Keys.Values.{SaysNothing, unknown, is_one_of};
    ghost use Rattle.mesh_config.specs.Stated.Router.{HeadIs, IsPlainHead, head_fields, moment, only_name, router_fields, router_keys};

    fn known_to_routers(alloc: Global, table: &Table) -> Result<(), ConfigFault>
        ensures { ValueOrFault SaysNothing (unknown (is_one_of router_keys) (table_view table.now)) result }
    {
        known_keys(
            alloc,
            table,
            &[
                "name",
                "flooding",
                "routing",
                "hyst_accept",
                "hyst_reject",
                "tc_rows",
                "near_hold",
                "hello_at_ms",
                "tc_at_ms",
                "interface",
                "attached",
            ],
        )
    }

    // A moment up to an hour, in ticks; 0 where it is absent.
    fn moment(alloc: Global, table: &Table, key: &str) -> Result<u64, ConfigFault>
        ensures read { GivesSetting (λ n. n) result (moment key.now (table_view table.now)) }
        ensures range { IfOk result (λ n. n ≤ one_hour) }
    {
        let ms = whole_or(alloc, table, key, 0, 3_600_000, 0)?;
        Ok(ticks(ms))
    }

    /// What the table of a router says that has only this name, which must be 1 to 16 lower case letters and digits.
    pub fn plain(alloc: Global, name: Bytes) -> RouterHead
        requires { IsName name }
        ensures plain { IsPlainHead name result }
        ensures says { HeadIs (only_name name) result }
    {
        let tc = TcRules {
            rows: DEFAULT_TC_ROWS,
            near_hold: Seq::new(alloc),
        };
        let rules = RouterRules {
            willing: Willing {
                flooding: 7,
                routing: 7,
            },
            thresholds: Thresholds {
                accept: 0,
                reject: 0,
            },
            hello_at: 0,
            tc_at: 0,
            tc,
        };
        RouterHead { name, rules }
    }

    /// The settings of the router with these times, interfaces and attached networks.
    pub fn settings(
        &self,
        times: Times,
        interfaces: Seq<Interface>,
        attached: Seq<Attached4>,
    ) -> Result<RouterSettings, AllocError>
        requires { AreOfOneRouter (map (λ i. i.name) interfaces) (flat_map (λ i. i.addrs) interfaces) (map (λ a. a.net) attached) }
        ensures fields { IfOk result (λ r. router_fields r ≡ head_fields self.now) }
        ensures times { IfOk result (λ r. r.times ≡ times) }
        ensures interfaces { IfOk result (λ r. r.interfaces ≡ interfaces) }
        ensures attached { IfOk result (λ r. r.attached ≡ attached) }
    {
        let rules = &self.rules;
        let name = self.name.copy()?;
        let near_hold = rules.tc.near_hold.copy()?;
        Ok(RouterSettings {
            name,
            willing: rules.willing,
            hello_at: rules.hello_at,
            tc_at: rules.tc_at,
            times,
            interfaces,
            attached,
            tc_rows: rules.tc.rows,
            near_hold,
        })
    }
}

impl FromTable for RouterHead {
    ghost use Rattle.mesh_config.specs.Stated.Router.{head_visits, HeadIs};

    ghost visits = { head_visits };

    ghost says = { HeadIs };

    fn from_table(alloc: Global, table: &Table) -> Result<RouterHead, ConfigFault> {
        RouterHead::known_to_routers(alloc, table)?;
        let name = name_at(alloc, table, "name")?;
        let flooding = whole_or(alloc, table, "flooding", 0, 15, 7)? as u8;
        let routing = whole_or(alloc, table, "routing", 0, 15, 7)? as u8;
        let thresholds = thresholds(alloc, table)?;
        let rows = whole_or(
            alloc,
            table,
            "tc_rows",
            1,
            MOST_TC_ROWS as u64,
            DEFAULT_TC_ROWS as u64,
        )? as usize;
        let near_hold = near_holds_of(alloc, table)?;
        let hello_at = RouterHead::moment(alloc, table, "hello_at_ms")?;
        let tc_at = RouterHead::moment(alloc, table, "tc_at_ms")?;
        let rules = RouterRules {
            willing: Willing { flooding, routing },
            thresholds,
            hello_at,
            tc_at,
            tc: TcRules { rows, near_hold },
        };
        Ok(RouterHead { name, rules })
    }
}
