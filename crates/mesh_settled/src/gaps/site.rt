//! A router of a network at a moment, as each test of it takes it.
use mesh_atoms::{Addr4, RadioGraph, Scenario};

/// Router x, counted from 0, of the routers of a scenario at a moment, in ticks of 1/8192 s.
#[derive(Drop)]
pub struct RouterAt<'a, R> {
    pub scenario: &'a Scenario,
    pub graph: &'a RadioGraph,
    pub routers: &'a [R],
    pub x: usize,
    pub router: &'a R,
    pub moment: u64,
}

/// Interface j of router y, the one given, with which interface i of router x is joined, and its least address.
#[derive(Drop)]
pub struct JoinedPeer<'a, R> {
    pub i: usize,
    pub y: usize,
    pub other: &'a R,
    pub j: usize,
    pub link: Addr4,
}
