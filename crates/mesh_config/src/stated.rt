//! Settings as the tables of their text say them, each value by itself, before what must not stand twice is looked at.

mod rising;
mod router;
mod router_head;
mod rules;
mod scenario;
mod stated;
mod steps;
mod tables;
mod times;

pub use crate::stated::router::{attached_of, head, interface_said, metric_at};
pub use crate::stated::router_head::{RouterHead, RouterRules, TcRules};
pub use crate::stated::scenario::{end_moment, stated_scenario, times_of};
pub use crate::stated::stated::{
    ArcNumbers, Place, ScenarioNumbers, StatedArc, StatedEnds, StatedInterface, StatedRouter,
    StatedScenario, Thresholds,
};
pub use crate::stated::steps::steps_of;
pub use crate::stated::tables::{FromTable, all_tables, element};
