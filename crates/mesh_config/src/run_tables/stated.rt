//! Settings of a running router as their tables state them, before they are looked at for what stands twice.
ghost use Rattle.std.specs.Prelude.{◌≡◌, ◌≤◌, length};
ghost use Rattle.mesh_atoms.specs.Settings.{IsEnd};

use crate::stated::{StatedInterface, StatedRouter};
use mesh_atoms::{Metric, Port, SenderMetric, SenderQuality, Seq, Times};

/// A neighbour as its table says it: the metric of what it sends, and the qualities of that.
#[derive(Drop)]
pub struct StatedNeighbour {
    pub cost: SenderMetric,
    pub quality: SenderQuality,
    pub ghost same_sender: { quality.sender ≡ cost.sender },
}

/// What the table of an interface of a running router says of what it receives: its own metric, and its neighbours.
#[derive(Drop)]
pub struct Costs {
    pub metric: Metric,
    pub neighbours: Seq<StatedNeighbour>,
    pub ghost few_neighbours: { length neighbours ≤ 1024 },
}

/// An interface of a running router as its table says it.
#[derive(Drop)]
pub struct StatedRunInterface {
    pub interface: StatedInterface,
    pub port: Port,
    pub costs: Costs,
}

/// The interfaces of a running router as their tables say them, in order.
#[derive(Drop)]
pub struct RunInterfaces {
    pub interfaces: Seq<StatedInterface>,
    pub ports: Seq<Port>,
    pub costs: Seq<Costs>,
}

/// A running router as its table says it, before it is looked at for what stands twice: a router, with the port and the costs of
/// each of its interfaces.
#[derive(Drop)]
pub struct StatedRunRouter {
    pub router: StatedRouter,
    pub ports: Seq<Port>,
    pub costs: Seq<Costs>,
    pub ghost port_each: { length ports ≡ length router.interfaces },
    pub ghost costs_each: { length costs ≡ length router.interfaces },
}

/// What the tables of `run` say.
#[derive(Drop)]
pub struct StatedRun {
    pub end: u64,
    pub times: Times,
    pub router: StatedRunRouter,
    pub ghost end_in_range: { IsEnd end },
}
