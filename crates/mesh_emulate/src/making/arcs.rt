//! The arcs of a made scenario.
ghost use Rattle.std.specs.Prelude.{◌≡◌, ◌≤◌, ◌<◌, ◌+◌, ◌*◌, length, IfOk};
ghost use Rattle.mesh_atoms.specs.Codes.Codes.{metric_value};
ghost use Rattle.mesh_atoms.specs.Settings.{IsCount};
ghost use Rattle.mesh_emulate.specs.Making.Scenario.{cost, loss_of, IsMadeArc, AreMadeArcs};

use crate::making::kind::Kind;
use crate::making::pairs::RouterPair;
use crate::making::words::word_below;
use mesh_atoms::{Metric, RadioArc, Seq};
use std::alloc::{AllocError, Global};

fn metric_of(kind: Kind, routers: usize, seed: u64, number: usize) -> Metric
    requires count { IsCount 2 64 routers }
    requires few { number ≤ 256 }
    ensures { metric_value result ≡ cost kind routers seed number }
{
    let code = match kind {
        Kind::Random => word_below(seed, routers - 1 + 2 * routers + number, 20),
        Kind::Grid | Kind::Ring => 0,
    };
    Metric { code: code as u16 }
}

fn loss_of(kind: Kind) -> u16
    ensures { result ≡ loss_of kind }
{
    match kind {
        Kind::Random => 50,
        Kind::Grid | Kind::Ring => 0,
    }
}

// The arc of that number.
fn arc_of(kind: Kind, routers: usize, seed: u64, number: usize, from: usize, to: usize) -> RadioArc
    requires count { IsCount 2 64 routers }
    requires few { number ≤ 256 }
    ensures { IsMadeArc kind routers seed number from to result }
{
    RadioArc {
        from,
        from_iface: 0,
        to,
        to_iface: 0,
        metric: metric_of(kind, routers, seed, number),
        loss: loss_of(kind),
        delay: 9,
    }
}

/// The arcs of pairs.
pub fn arcs_of(
    alloc: Global,
    kind: Kind,
    routers: usize,
    seed: u64,
    pairs: &[RouterPair],
) -> Result<Seq<RadioArc>, AllocError>
    requires count { IsCount 2 64 routers }
    requires few { length pairs.now ≤ 128 }
    ensures { IfOk result (AreMadeArcs kind routers seed 0 pairs.now) }
{
    let mut arcs = Seq::new(alloc);
    for (i, pair) in pairs.iter().enumerate() {
        let there = arc_of(kind, routers, seed, 2 * i, pair.low, pair.high);
        let back = arc_of(kind, routers, seed, 2 * i + 1, pair.high, pair.low);
        arcs.push(there)?;
        arcs.push(back)?;
    }
    Ok(arcs)
}
