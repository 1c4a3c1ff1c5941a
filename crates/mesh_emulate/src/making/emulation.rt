//! The emulation of a made network.
ghost use Rattle.std.specs.Prelude.{◌≡◌, ◌≤◌, ◌<◌, ◌^◌, IfOk, length, map};
ghost use Rattle.mesh_atoms.specs.declared.graphs.RadioGraph.{RadioGraph};
ghost use Rattle.mesh_atoms.specs.Radio.{IsRadioGraph};
ghost use Rattle.mesh_atoms.specs.Settings.{IsCount};
ghost use Rattle.mesh_settled.specs.Gaps.Network.{IsNetwork};
ghost use Rattle.mesh_io.specs.Pieces.{PutsPieces};
ghost use Rattle.mesh_emulate.specs.Making.Made.{IsEndText, IsMadeText, MadeEmulation, MadeMakes};
ghost use Rattle.mesh_texts.specs.Runs.{WholeRun};

use crate::making::kind::Kind;
use crate::making::scenario::made;
use crate::making::text::put_made;
use mesh_atoms::{Bytes, Scenario};
use mesh_expire::Bases;
use mesh_io::{Sink, Stop, write_all};
use mesh_paths::radio_graph;
use mesh_radio::{Counts, Net, RouterView};
use mesh_settled::settled;
use std::alloc::{AllocError, Global};

// The text of a network of a made scenario, of which the routers are these at the end of its run.
fn text_at_end<R: RouterView>(
    alloc: Global,
    kind: Kind,
    scenario: &Scenario,
    routers: &[R],
    counts: Counts,
) -> Result<Bytes, AllocError>
    requires network { (graph : RadioGraph) → IsRadioGraph scenario.now graph → IsNetwork scenario.now graph (map R.state routers.now) scenario.now.end }
    requires few { length routers.now ≤ 64 }
    ensures { IfOk result (IsEndText kind scenario.now (map R.state routers.now) counts) }
{
    let graph = radio_graph(alloc, scenario)?;
    let gap = settled(routers, scenario, &graph, scenario.end);
    let mut text = Bytes::new(alloc);
    put_made(&mut text, kind, scenario, routers, counts, gap)?;
    Ok(text)
}

// The text of a run of the network of a made scenario.
fn text_of<B: Bases>(alloc: Global, kind: Kind, scenario: &Scenario) -> Result<Bytes, AllocError>
    ensures { IfOk result (λ text. (run : WholeRun scenario.now) × IsMadeText kind scenario.now run text) }
{
    let mut net = Net::<B>::new(alloc, scenario)?;
    net.run_until_end()?;
    text_at_end(alloc, kind, scenario, net.cores(), net.counts())
}

// The text of a run of the network of the made scenario.
fn made_text<B: Bases>(
    alloc: Global,
    kind: Kind,
    routers: usize,
    seed: u64,
) -> Result<Bytes, AllocError>
    requires count { IsCount 2 64 routers }
    requires seed { seed < 2 ^ 63 }
    ensures { IfOk result (λ text. (m : MadeEmulation kind routers seed) × (m.text ≡ text)) }
{
    let scenario = made(alloc, kind, routers, seed)?;
    text_of::<B>(alloc, kind, &scenario)
}

/// Emulates the network of the made scenario of 2 to 64 routers, with routers over these bases, from its opening to its end, and
/// tells on `out`, by one write, how large it is, what was counted, its routes in number and whether it is settled.
pub fn make<B: Bases, O: Sink>(
    alloc: Global,
    kind: Kind,
    routers: usize,
    seed: u64,
    out: &mut O,
) -> Result<(), Stop>
    requires count { IsCount 2 64 routers }
    requires seed { seed < 2 ^ 63 }
    // The text of a run was put on `out`, whole; or a prefix of it, where the sink counted a fault; or nothing, at an allocation failure.
    ensures leaves { PutsPieces (MadeMakes kind routers seed)
        (O.content out.old) (O.content out.new) (O.faults out.old) (O.faults out.new) result }
    ensures later { O.faults out.old ≤ O.faults out.new }
{
    match made_text::<B>(alloc, kind, routers, seed) {
        Ok(text) => match write_all(out, text.as_slice()) {
            Ok(()) => Ok(()),
            Err(_) => Err(Stop::Write),
        },
        Err(_) => Err(Stop::Memory),
    }
}
