//! The tables of `run`: interfaces with their ports, the router, and the top.
ghost use Rattle.std.specs.Prelude.{codes, length, map, IfOk, OnOk};
ghost use Rattle.toml.specs.View.{table_view, view};
ghost use Rattle.mesh_atoms.specs.Settings.{IsCount};
ghost use Rattle.mesh_config.specs.Keys.Faults.{ValueOrFault, first, visit, listed};
ghost use Rattle.mesh_config.specs.Stated.Router.{IsMetricRead, interfaces};
ghost use Rattle.mesh_config.specs.Keys.Values.{table_read, inner_visits};
ghost use Rattle.mesh_config.specs.RunTables.Run.{own_metric_asked, PortSays, port_visits, CostsAre, cost_visits, run_interface_visits, RunInterfaceIs, run_interfaces_visits, HasOneMore, HasOfEach, RunInterfacesAre, run_router_visits, RunRouterIs, router_table, run_table_visits, RunIs};
ghost use Rattle.mesh_config.specs.Stated.Tables.{tables_visits};

use crate::keys::refusal::BAD_VALUE;
use crate::keys::{
    ConfigFault, array_at, endpoint_at, endpoints_at, known_keys, refused, table_at, whole_or,
};
use crate::run_tables::neighbours::neighbours_of;
use crate::run_tables::stated::{
    Costs, RunInterfaces, StatedRun, StatedRunInterface, StatedRunRouter,
};
use crate::stated::{
    FromTable, StatedRouter, attached_of, element, end_moment, head, interface_said, times_of,
};
use mesh_atoms::{Metric, Port, Seq};
use std::alloc::{AllocError, Global};
use toml::{Table, Value};

// The least metric that is at least the whole number at `metric`, or 1.
fn own_metric(alloc: Global, table: &Table) -> Result<Metric, ConfigFault>
    ensures { ValueOrFault (IsMetricRead (own_metric_asked (table_view table.now))) (visit (own_metric_asked (table_view table.now))) result }
{
    let asked = whole_or(alloc, table, "metric", 1, 16_776_960, 1)?;
    match Metric::at_least(asked as u32) {
        Some(metric) => Ok(metric),
        None => Err(refused(alloc, BAD_VALUE, "metric")),
    }
}

// Where the table of an interface says that it receives, and where it sends to.
fn port_said(alloc: Global, table: &Table) -> Result<Port, ConfigFault>
    ensures { ValueOrFault (PortSays (table_view table.now)) (first (port_visits (table_view table.now))) result }
{
    let local = endpoint_at(alloc, table, "local")?;
    match endpoints_at(alloc, table, "peers", 64) {
        Ok(peers) => Ok(Port { local, peers }),
        Err(e) => Err(e),
    }
}

fn costs_said(alloc: Global, table: &Table) -> Result<Costs, ConfigFault>
    ensures { ValueOrFault (CostsAre (table_view table.now)) (first (cost_visits (table_view table.now))) result }
{
    let metric = own_metric(alloc, table)?;
    match neighbours_of(alloc, table) {
        Ok(neighbours) => Ok(Costs { metric, neighbours }),
        Err(e) => Err(e),
    }
}

impl FromTable for StatedRunInterface {
    ghost visits = { run_interface_visits };

    ghost says = { RunInterfaceIs };

    fn from_table(alloc: Global, table: &Table) -> Result<StatedRunInterface, ConfigFault> {
        known_keys(
            alloc,
            table,
            &["name", "addresses", "local", "peers", "metric", "neighbour"],
        )?;
        let interface = interface_said(alloc, table)?;
        let port = port_said(alloc, table)?;
        match costs_said(alloc, table) {
            Ok(costs) => Ok(StatedRunInterface {
                interface,
                port,
                costs,
            }),
            Err(e) => Err(e),
        }
    }
}

// One interface more.
fn put(out: &mut RunInterfaces, one: StatedRunInterface) -> Result<(), AllocError>
    ensures { OnOk result (HasOneMore out.old out.new one) }
{
    out.interfaces.push(one.interface)?;
    out.ports.push(one.port)?;
    out.costs.push(one.costs)
}

// What the elements of the array say, each of which must be the table of an interface.
fn all_interfaces(alloc: Global, values: &[Value]) -> Result<RunInterfaces, ConfigFault>
    ensures answer { ValueOrFault (RunInterfacesAre (map view values.now)) (first (tables_visits run_interface_visits (codes "interface") (map view values.now))) result }
    ensures size { IfOk result (HasOfEach (length values.now)) }
{
    let mut all = RunInterfaces {
        interfaces: Seq::new(alloc),
        ports: Seq::new(alloc),
        costs: Seq::new(alloc),
    };
    for value in values {
        match element(alloc, "interface", value) {
            Ok(one) => put(&mut all, one)?,
            Err(e) => return Err(e),
        }
    }
    Ok(all)
}

fn run_interfaces_of(alloc: Global, table: &Table) -> Result<RunInterfaces, ConfigFault>
    ensures answer { ValueOrFault (RunInterfacesAre (listed (interfaces (table_view table.now)))) (first (run_interfaces_visits (table_view table.now))) result }
    ensures size { IfOk result (λ all. IsCount 1 8 (length all.interfaces)) }
    ensures each { IfOk result (λ all. HasOfEach (length all.interfaces) all) }
{
    let values = array_at(alloc, table, "interface", 1, 8)?;
    all_interfaces(alloc, values)
}

fn run_router(alloc: Global, table: &Table) -> Result<StatedRunRouter, ConfigFault>
    ensures { ValueOrFault (RunRouterIs (table_view table.now)) (first (run_router_visits (table_view table.now))) result }
{
    let head = head(alloc, table)?;
    let all = run_interfaces_of(alloc, table)?;
    match attached_of(alloc, table) {
        Ok(attached) => Ok(StatedRunRouter {
            router: StatedRouter {
                head,
                interfaces: all.interfaces,
                attached,
            },
            ports: all.ports,
            costs: all.costs,
        }),
        Err(e) => Err(e),
    }
}

fn router_at(alloc: Global, table: &Table) -> Result<StatedRunRouter, ConfigFault>
    ensures { ValueOrFault (RunRouterIs (table_read (router_table (table_view table.now)))) (first (inner_visits run_router_visits (router_table (table_view table.now)))) result }
{
    let inner = table_at(alloc, table, "router")?;
    run_router(alloc, inner)
}

/// What the tables of `run` say, or the first fault of their visits.
pub fn stated_run(alloc: Global, table: &Table) -> Result<StatedRun, ConfigFault>
    ensures { ValueOrFault (RunIs (table_view table.now)) (first (run_table_visits (table_view table.now))) result }
{
    known_keys(alloc, table, &["end_ms", "times", "router"])?;
    let end = end_moment(alloc, table)?;
    let times = times_of(alloc, table)?;
    match router_at(alloc, table) {
        Ok(router) => Ok(StatedRun { end, times, router }),
        Err(e) => Err(e),
    }
}
