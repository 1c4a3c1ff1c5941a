//! The tables of a router: its interfaces, and the networks that it attaches.
ghost use Rattle.std.specs.Prelude.{◌≤◌, length, IfOk};
ghost use Rattle.toml.specs.View.{table_view, view};
ghost use Rattle.mesh_atoms.specs.Settings.{IsCount};
ghost use Rattle.mesh_config.specs.Keys.Faults.{GivesSetting, ValueOrFault, first, visit, listed};
ghost use Rattle.mesh_config.specs.Stated.Router.{net, metric_asked, IsMetricRead, named_visits, interface_visits, InterfaceIs, attached_visits, AttachedIs, head_visits, HeadIs, interfaces_visits, interfaces, networks_visits, attached, router_visits, RouterIs};
ghost use Rattle.mesh_config.specs.Stated.Tables.{Each};

use crate::keys::refusal::{BAD_VALUE, MISSING};
use crate::keys::{
    ConfigFault, addresses_at, array_at, array_or_none, found, known_keys, name_at, refused,
    string_in, whole_at, whole_or,
};
use crate::stated::router_head::RouterHead;
use crate::stated::stated::{StatedInterface, StatedRouter};
use crate::stated::tables::{FromTable, all_tables};
use mesh_atoms::{Attached4, Metric, NetAddr, Seq, net_of};
use std::alloc::Global;
use toml::Table;

/// The least metric that is at least the whole number at `metric`, from 1 to 16,776,960, which must stand.
pub fn metric_at(alloc: Global, table: &Table) -> Result<Metric, ConfigFault>
    ensures { ValueOrFault (IsMetricRead (metric_asked (table_view table.now))) (visit (metric_asked (table_view table.now))) result }
{
    let asked = whole_at(alloc, table, "metric", 1, 16_776_960)?;
    match Metric::at_least(asked as u32) {
        Some(metric) => Ok(metric),
        None => Err(refused(alloc, BAD_VALUE, "metric")),
    }
}

// The network at `net`, which must stand.
fn net_at(alloc: Global, table: &Table) -> Result<NetAddr, ConfigFault>
    ensures { GivesSetting (λ n. (n.addr, n.prefix)) result (net (table_view table.now)) }
{
    match found(table, "net") {
        None => Err(refused(alloc, MISSING, "net")),
        Some(value) => match string_in(value) {
            None => Err(refused(alloc, BAD_VALUE, "net")),
            Some(text) => match net_of(text) {
                None => Err(refused(alloc, BAD_VALUE, "net")),
                Some(net) => Ok(net),
            },
        },
    }
}

/// What the table of an interface says of its name and its 1 to 4 addresses, or the first fault of these. Other keys aren't
/// looked at.
pub fn interface_said(alloc: Global, table: &Table) -> Result<StatedInterface, ConfigFault>
    ensures { ValueOrFault (InterfaceIs (table_view table.now)) (first (named_visits (table_view table.now))) result }
{
    let name = name_at(alloc, table, "name")?;
    match addresses_at(alloc, table, "addresses") {
        Ok(addrs) => Ok(StatedInterface { name, addrs }),
        Err(e) => Err(e),
    }
}

impl FromTable for StatedInterface {
    ghost visits = { interface_visits };

    ghost says = { InterfaceIs };

    fn from_table(alloc: Global, table: &Table) -> Result<StatedInterface, ConfigFault> {
        known_keys(alloc, table, &["name", "addresses"])?;
        interface_said(alloc, table)
    }
}

impl FromTable for Attached4 {
    ghost visits = { attached_visits };

    ghost says = { AttachedIs };

    fn from_table(alloc: Global, table: &Table) -> Result<Attached4, ConfigFault> {
        known_keys(alloc, table, &["net", "metric", "distance"])?;
        let net = net_at(alloc, table)?;
        let metric = metric_at(alloc, table)?;
        match whole_or(alloc, table, "distance", 0, 255, 1) {
            Ok(distance) => Ok(Attached4 {
                net,
                metric,
                distance: distance as u8,
            }),
            Err(e) => Err(e),
        }
    }
}

/// What the table of a router says of itself, with its first moments in ticks; or the first fault there: an unknown key comes
/// before all others. What its interfaces and attached networks are isn't looked at.
pub fn head(alloc: Global, table: &Table) -> Result<RouterHead, ConfigFault>
    ensures { ValueOrFault (HeadIs (table_view table.now)) (first (head_visits (table_view table.now))) result }
{
    RouterHead::from_table(alloc, table)
}

fn interfaces_of(alloc: Global, table: &Table) -> Result<Seq<StatedInterface>, ConfigFault>
    ensures answer { ValueOrFault (Each InterfaceIs (listed (interfaces (table_view table.now)))) (first (interfaces_visits (table_view table.now))) result }
    ensures size { IfOk result (λ xs. IsCount 1 8 (length xs)) }
{
    let values = array_at(alloc, table, "interface", 1, 8)?;
    all_tables(alloc, "interface", values)
}

/// The networks that a router attaches (RFC 7181, section 7.2), at most 64, in order of their tables, or the first fault there.
pub fn attached_of(alloc: Global, table: &Table) -> Result<Seq<Attached4>, ConfigFault>
    ensures answer { ValueOrFault (Each AttachedIs (listed (attached (table_view table.now)))) (first (networks_visits (table_view table.now))) result }
    ensures size { IfOk result (λ xs. length xs ≤ 64) }
{
    let values = array_or_none(alloc, table, "attached", 64)?;
    all_tables(alloc, "attached", values)
}

impl FromTable for StatedRouter {
    ghost visits = { router_visits };

    ghost says = { RouterIs };

    fn from_table(alloc: Global, table: &Table) -> Result<StatedRouter, ConfigFault> {
        let head = head(alloc, table)?;
        let interfaces = interfaces_of(alloc, table)?;
        match attached_of(alloc, table) {
            Ok(attached) => Ok(StatedRouter {
                head,
                interfaces,
                attached,
            }),
            Err(e) => Err(e),
        }
    }
}
