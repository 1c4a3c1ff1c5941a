//! The emulation of the network that an input states.
ghost use Rattle.std.specs.Prelude.{◌≡◌, ◌≤◌, ◌<◌, ℕ, List, length, Err, OnOk, IfSome};
ghost use Rattle.std.specs.Io.KnownBytes.{Keeps};
ghost use Rattle.mesh_atoms.specs.Radio.{IsRadioGraph};
ghost use Rattle.mesh_emulate.specs.Emulation.{IsRefused, EmulationMakes};
ghost use Rattle.mesh_emulate.specs.Parts.{MakesWanted, IsProbedText, WholeRunMakes, ErrandMakes};
ghost use Rattle.mesh_emulate.specs.Prepared.{IsUnbegun};
ghost use Rattle.mesh_emulate.specs.Wants.{wants_of, IsWithin};
ghost use Rattle.mesh_emulate.specs.declared.emulation.EmulateFault.TheVariants.{Refused, Stopped};
ghost use Rattle.mesh_io.specs.Pieces.{PutsAll, PutsFront, PutsSome, PutsPieces};
ghost use Rattle.mesh_probe.specs.Probes.{AreRoutersAt};
ghost use Rattle.mesh_texts.specs.machine.NetRun.{IsOpeningNet};

use crate::events::tell_events;
use crate::network::Network;
use crate::prepared::prepare;
use crate::probe::tell_probe;
use crate::summary::tell_end;
use crate::wanted::{Errand, Wanted};
use mesh_atoms::{Bytes, RadioGraph, Scenario};
use mesh_config::ConfigFault;
use mesh_expire::Bases;
use mesh_io::{Sink, Stop};
use mesh_paths::radio_graph;
use mesh_radio::Net;
use std::alloc::Global;

/// Why an emulation isn't told whole: the input is refused, or a name that is wanted and no router of it has, with the number and
/// the key of the first refusal; or it stopped.
#[derive(Drop)]
pub enum EmulateFault {
    Refused { number: u8, key: Bytes },
    Stopped(Stop),
}

// Tells a run of a network from its opening to its end, and the trip of the packet that is sent.
fn tell_net<N: Network, O: Sink>(
    alloc: Global,
    net: &mut N,
    scenario: &Scenario,
    graph: &RadioGraph,
    errand: Errand,
    out: &mut O,
) -> Result<(), Stop>
    requires opening { IsOpeningNet scenario.now (N.net net.old) }
    requires graph { IsRadioGraph scenario.now graph.now }
    requires within { IsWithin scenario.now errand }
    ensures leaves { PutsPieces (WholeRunMakes scenario.now errand (N.net net.old) (N.net net.new))
        (O.content out.old) (O.content out.new) (O.faults out.old) (O.faults out.new) result }
    ensures later { O.faults out.old ≤ O.faults out.new }
{
    let mut text = Bytes::new(alloc);
    match tell_events(net, scenario, errand.trace, &mut text, out) {
        Ok(()) => tell_end(alloc, net, scenario, graph, errand.send, &mut text, out),
        Err(stop) => Err(stop),
    }
}

// Tells the probe of a network at the end of its run.
fn probe_net<N: Network, O: Sink>(
    alloc: Global,
    net: N,
    scenario: &Scenario,
    graph: &RadioGraph,
    probe: Option<usize>,
    out: &mut O,
) -> Result<(), Stop>
    requires routers { AreRoutersAt scenario.now (N.net net).routers scenario.now.end }
    requires graph { IsRadioGraph scenario.now graph.now }
    requires origin { IfSome probe (λ origin. origin < length scenario.now.routers) }
    ensures leaves { PutsPieces (MakesWanted (IsProbedText scenario.now (N.net net).routers) probe)
        (O.content out.old) (O.content out.new) (O.faults out.old) (O.faults out.new) result }
    ensures later { O.faults out.old ≤ O.faults out.new }
{
    let mut routers = net.into_routers();
    let mut text = Bytes::new(alloc);
    tell_probe(
        alloc,
        routers.as_mut_slice(),
        scenario,
        graph,
        probe,
        &mut text,
        out,
    )
}

// Tells a run of a network, the trip, and then the probe.
fn tell_all<N: Network, O: Sink>(
    alloc: Global,
    net: N,
    scenario: &Scenario,
    graph: &RadioGraph,
    errand: Errand,
    out: &mut O,
) -> Result<(), Stop>
    requires opening { IsOpeningNet scenario.now (N.net net) }
    requires graph { IsRadioGraph scenario.now graph.now }
    requires within { IsWithin scenario.now errand }
    ensures leaves { PutsPieces (ErrandMakes scenario.now errand)
        (O.content out.old) (O.content out.new) (O.faults out.old) (O.faults out.new) result }
    ensures later { O.faults out.old ≤ O.faults out.new }
{
    let mut net = net;
    match tell_net(alloc, &mut net, scenario, graph, errand, out) {
        Ok(()) => probe_net(alloc, net, scenario, graph, errand.probe, out),
        Err(stop) => Err(stop),
    }
}

// Tells a run of the network of a scenario, with routers over these bases.
fn tell<B: Bases, O: Sink>(
    alloc: Global,
    scenario: &Scenario,
    errand: Errand,
    out: &mut O,
) -> Result<(), Stop>
    requires within { IsWithin scenario.now errand }
    ensures leaves { PutsPieces (ErrandMakes scenario.now errand)
        (O.content out.old) (O.content out.new) (O.faults out.old) (O.faults out.new) result }
    ensures later { O.faults out.old ≤ O.faults out.new }
{
    let graph = match radio_graph(alloc, scenario) {
        Ok(graph) => graph,
        Err(_) => return Err(Stop::Memory),
    };
    match Net::<B>::new(alloc, scenario) {
        Ok(net) => tell_all(alloc, net, scenario, &graph, errand, out),
        Err(_) => Err(Stop::Memory),
    }
}

// How an emulation ends that isn't begun.
fn unbegun(fault: ConfigFault) -> EmulateFault
    ensures { IsUnbegun fault result }
{
    match fault {
        ConfigFault::Refused { number, key } => EmulateFault::Refused { number, key },
        ConfigFault::Memory(_) => EmulateFault::Stopped(Stop::Memory),
    }
}

/// Emulates the network of the scenario that the input states, with routers over these bases, from its opening to its end, and
/// tells it on `out`: where the trace is wanted each event by one write as it is done, then the summary by one, where a packet is to be
/// sent its trip by one more, and where a probe is wanted that by the last.
pub fn emulate<B: Bases, O: Sink>(
    alloc: Global,
    input: &[u8],
    wanted: &Wanted,
    out: &mut O,
) -> Result<(), EmulateFault>
    // All pieces of an emulation were put on `out`.
    ensures done { OnOk result (PutsAll (EmulationMakes input.now (wants_of wanted.now)) (O.content out.old) (O.content out.new) tt) }

    // The input states no scenario, or none with routers of the names that are wanted; nothing was put on `out`.
    ensures refused { (number : ℕ) (key : List ℕ) → result ≡ Err (Refused number key)
        → IsRefused input.now (wants_of wanted.now) number key × Keeps (O.content out.old) (O.content out.new) }

    // The sink counted a fault; on `out` stand the pieces before the one whose write failed, and a prefix of this one.
    ensures write { result ≡ Err (Stopped Stop.Write) → PutsFront (EmulationMakes input.now (wants_of wanted.now))
        (O.content out.old) (O.content out.new) (O.faults out.old) (O.faults out.new) }

    // Some first pieces stand on `out`, and more were to come.
    ensures memory { result ≡ Err (Stopped Stop.Memory) → PutsSome (EmulationMakes input.now (wants_of wanted.now)) (O.content out.old) (O.content out.new) }
    ensures later { O.faults out.old ≤ O.faults out.new }
{
    let ready = match prepare(alloc, input, wanted) {
        Ok(ready) => ready,
        Err(fault) => return Err(unbegun(fault)),
    };
    match tell::<B, O>(alloc, &ready.scenario, ready.errand, out) {
        Ok(()) => Ok(()),
        Err(stop) => Err(EmulateFault::Stopped(stop)),
    }
}
