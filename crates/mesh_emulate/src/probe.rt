//! What is told of a probe of the network at the end of a run.
ghost use Rattle.std.specs.Prelude.{◌≤◌, ◌<◌, length, map, OnOk, IfSome};
ghost use Rattle.mesh_atoms.specs.Radio.{IsRadioGraph};
ghost use Rattle.mesh_emulate.specs.Parts.{MakesWanted, IsProbedText};
ghost use Rattle.mesh_io.specs.Pieces.{PutsPieces};
ghost use Rattle.mesh_probe.specs.Probes.{AreRoutersAt};

use crate::writing::write_put;
use mesh_atoms::{Bytes, RadioGraph, Scenario};
use mesh_io::{Sink, Stop};
use mesh_probe::{probe, probe_text};
use mesh_radio::RouterCore;
use std::alloc::{AllocError, Global};

// Puts the probe by that router, in place of what was there. After an allocation failure the routers may only be dropped.
fn put_probe<R: RouterCore>(
    alloc: Global,
    routers: &mut [R],
    scenario: &Scenario,
    graph: &RadioGraph,
    origin: usize,
    text: &mut Bytes,
) -> Result<(), AllocError>
    requires routers { AreRoutersAt scenario.now (map R.state routers.old) scenario.now.end }
    requires graph { IsRadioGraph scenario.now graph.now }
    requires origin { origin < length scenario.now.routers }
    ensures { OnOk result (IsProbedText scenario.now (map R.state routers.old) origin text.new) }
{
    let told = probe(alloc, routers, scenario, origin)?;
    *text = probe_text(alloc, scenario, graph, origin, &told)?;
    Ok(())
}

/// Writes the probe of the network by the router that is wanted; nothing where none is.
pub fn tell_probe<R: RouterCore, O: Sink>(
    alloc: Global,
    routers: &mut [R],
    scenario: &Scenario,
    graph: &RadioGraph,
    probe: Option<usize>,
    text: &mut Bytes,
    out: &mut O,
) -> Result<(), Stop>
    requires routers { AreRoutersAt scenario.now (map R.state routers.old) scenario.now.end }
    requires graph { IsRadioGraph scenario.now graph.now }
    requires origin { IfSome probe (λ origin. origin < length scenario.now.routers) }
    ensures leaves { PutsPieces (MakesWanted (IsProbedText scenario.now (map R.state routers.old)) probe)
        (O.content out.old) (O.content out.new) (O.faults out.old) (O.faults out.new) result }
    ensures later { O.faults out.old ≤ O.faults out.new }
{
    match probe {
        None => Ok(()),
        Some(origin) => {
            let put = put_probe(alloc, routers, scenario, graph, origin, text);
            write_put(put, text, out)
        }
    }
}
