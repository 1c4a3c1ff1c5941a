//! What is told of a network at the end of its run.
ghost use Rattle.std.specs.Prelude.{◌≤◌, ◌<◌, length, map, OnOk, IfSome};
ghost use Rattle.mesh_emulate.specs.Emulation.{IsEndSummary};
ghost use Rattle.mesh_emulate.specs.Parts.{EndMakes};
ghost use Rattle.mesh_io.specs.Pieces.{PutsPieces};
ghost use Rattle.mesh_settled.specs.Gaps.Network.{IsNetwork};
ghost use Rattle.mesh_texts.specs.Network.{IsGapOf};

use crate::network::Network;
use crate::trip::tell_trip;
use crate::wanted::Departure;
use crate::writing::write_put;
use mesh_atoms::{Bytes, RadioGraph, Scenario};
use mesh_io::{Sink, Stop};
use mesh_radio::RouterView;
use mesh_settled::{Gap, settled};
use mesh_texts::put_summary;
use std::alloc::{AllocError, Global};

// The first gap of routers at the end; none where their network is settled.
fn gap_at_end<R: RouterView>(routers: &[R], scenario: &Scenario, graph: &RadioGraph) -> Option<Gap>
    requires { IsNetwork scenario.now graph.now (map R.state routers.now) scenario.now.end }
    ensures { IsGapOf scenario.now (map R.state routers.now) scenario.now.end result }
{
    settled(routers, scenario, graph, scenario.end)
}

// Puts the summary of a network at the end of its run, in place of what was there.
fn put_end<N: Network>(
    net: &N,
    scenario: &Scenario,
    graph: &RadioGraph,
    text: &mut Bytes,
) -> Result<(), AllocError>
    requires { IsNetwork scenario.now graph.now (N.net net.now).routers scenario.now.end }
    ensures { OnOk result (IsEndSummary scenario.now (N.net net.now) text.new) }
{
    let gap = gap_at_end(net.routers(), scenario, graph);
    text.clear();
    put_summary(text, scenario, net.routers(), net.counts(), gap)
}

/// Writes the summary of a network at the end of its run, and then the trip of the packet that is sent.
pub fn tell_end<N: Network, O: Sink>(
    alloc: Global,
    net: &N,
    scenario: &Scenario,
    graph: &RadioGraph,
    send: Option<Departure>,
    text: &mut Bytes,
    out: &mut O,
) -> Result<(), Stop>
    requires network { IsNetwork scenario.now graph.now (N.net net.now).routers scenario.now.end }
    requires from { IfSome send (λ departure. departure.from < length scenario.now.routers) }
    ensures leaves { PutsPieces (EndMakes scenario.now send (N.net net.now))
        (O.content out.old) (O.content out.new) (O.faults out.old) (O.faults out.new) result }
    ensures later { O.faults out.old ≤ O.faults out.new }
{
    let put = put_end(net, scenario, graph, text);
    match write_put(put, text, out) {
        Ok(()) => tell_trip(alloc, net.routers(), scenario, send, text, out),
        Err(stop) => Err(stop),
    }
}
