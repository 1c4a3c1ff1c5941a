//! What an emulated network has besides its routers.
use crate::traffic::RadioTraffic;
use mesh_atoms::{Scenario, Seq};
use mesh_core::Outbox;
use mesh_machine::ArcsOut;

/// The router that ticks first, and when.
#[derive(Clone, Copy)]
pub(crate) struct Due {
    pub(crate) router: usize,
    pub(crate) moment: u64,
}

/// A tick that is next: of which router, and when; and how many routers then had their tick at the end.
#[derive(Clone, Copy)]
pub(crate) struct Tick {
    pub(crate) router: usize,
    pub(crate) moment: u64,
    pub(crate) last_ticks: usize,
}

/// What an emulated network has besides its routers.
#[derive(Drop)]
pub(crate) struct Scene {
    pub(crate) scenario: Scenario,
    /// The arcs by the interfaces that they leave.
    pub(crate) ways: Seq<Seq<ArcsOut>>,
    /// What a router sends at an event.
    pub(crate) outbox: Outbox,
    pub(crate) traffic: RadioTraffic,
    pub(crate) due: Due,
    /// How many routers had their tick at the end.
    pub(crate) last_ticks: usize,
    /// The moment of the last event.
    pub(crate) now: u64,
}
