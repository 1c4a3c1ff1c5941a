//! The settings of a running router as the tables of their text say them, each value by itself.

mod neighbours;
mod run;
mod stated;

pub use crate::run_tables::neighbours::senders_of;
pub use crate::run_tables::run::stated_run;
pub use crate::run_tables::stated::{
    Costs, StatedNeighbour, StatedRun, StatedRunInterface, StatedRunRouter,
};
