//! Settings of a router and of a network, read from TOML.
#![tactic(auto)]

mod build;
mod checks;
mod keys;
mod reading;
mod run_tables;
mod senders;
mod setup;
mod stated;

pub use build::make_routers;
pub use checks::{Compared, all_joined, are_distinct, no_duplicates, refuse_duplicates};
pub use keys::{
    ConfigFault, LONGEST_SETTINGS, address_at, addresses_at, array_at, array_or_none, document,
    endpoint_at, endpoints_at, found, known_keys, name_at, refusal, refused, string_in, table_at,
    table_or, ticks, whole_at, whole_or,
};
pub use reading::{router_of, scenario_of};
pub use run_tables::{
    Costs, StatedNeighbour, StatedRun, StatedRunInterface, StatedRunRouter, stated_run,
};
pub use stated::{
    ArcNumbers, FromTable, Place, RouterHead, ScenarioNumbers, StatedArc, StatedEnds,
    StatedInterface, StatedRouter, StatedScenario, Thresholds, all_tables, attached_of, end_moment,
    head, interface_said, metric_at, stated_scenario, steps_of, times_of,
};
