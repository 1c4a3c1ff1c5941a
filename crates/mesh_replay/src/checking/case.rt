//! What is checked, the event at hand, and how far the checking came.
use crate::traffic::TraceTraffic;
use mesh_atoms::{RouterSettings, Scenario, Seq};
use mesh_machine::ArcsOut;
use mesh_trace::Reader;

/// A trace with its scenario, and the arcs of this by the interfaces that they leave.
#[derive(Drop)]
pub(crate) struct Case<'a> {
    pub(crate) trace: &'a [u8],
    pub(crate) scenario: &'a Scenario,
    pub(crate) ways: Seq<Seq<ArcsOut>>,
}

/// An event: the number of its router, this router's settings, and the moment.
#[derive(Clone, Copy)]
pub(crate) struct CheckedEvent<'a> {
    pub(crate) router: usize,
    pub(crate) settings: &'a RouterSettings,
    pub(crate) moment: u64,
}

/// How far the checking came: where the trace is read, and what flies.
#[derive(Drop)]
pub(crate) struct Progress {
    pub(crate) reader: Reader,
    pub(crate) traffic: TraceTraffic,
}
