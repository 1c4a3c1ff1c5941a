//! The choice of relays (RFC 7181, section 18.6).
ghost use Rattle.std.specs.Prelude.{◌≡◌, IfOk, length, replicate, true};
ghost use Rattle.mesh_atoms.specs.Relays.{Covers, Needed, HasDistinctIds};
ghost use Rattle.mesh_atoms.specs.Words.{IsAscending};
ghost use Rattle.mesh_relay.specs.Ways.{AreWilling, AreWays};
ghost use Rattle.mesh_relay.specs.Taken.{ids_of};

use crate::greedy::choose_greedily;
use crate::prune::prune;
use crate::soles::is_choice;
use crate::ways::{Way, ways_of, willing_of};
use mesh_atoms::{Addr4, Near, NeighbourGraph, Seq};
use std::alloc::{AllocError, Global};

/// The ids of the neighbours that are taken.
fn ids_of(alloc: Global, willing: &[Near], taken: &[bool]) -> Result<Seq<Addr4>, AllocError>
    requires { length taken.now ≡ length willing.now }
    ensures { IfOk result (λ ids. ids ≡ ids_of willing.now taken.now) }
{
    let mut ids = Vec::new(alloc);
    for (place, near) in willing.iter().enumerate() {
        if taken[place] {
            ids.push(near.id)?;
        }
    }
    Ok(Seq::from_vec(ids))
}

/// The ids of those taken, without those that the others make up for.
fn reduced(
    alloc: Global,
    graph: &NeighbourGraph,
    willing: &[Near],
    ways: &[Way],
    taken: &mut [bool],
) -> Result<Seq<Addr4>, AllocError>
    requires distinct { HasDistinctIds graph.now }
    requires willing { AreWilling graph.now willing.now }
    requires ways { AreWays graph.now willing.now ways.now }
    requires length { length taken.old ≡ length willing.now }
    requires covers { Covers graph.now (ids_of willing.now taken.old) }
    ensures covers { IfOk result (Covers graph.now) }
    ensures needed { IfOk result (Needed graph.now) }
    ensures order { IfOk result IsAscending }
{
    prune(graph, willing, ways, taken);
    ids_of(alloc, willing, taken)
}

fn all_flags(alloc: Global, willing: &[Near]) -> Result<Vec<bool>, AllocError>
    ensures { IfOk result (λ taken. taken.items ≡ replicate (length willing.now) true) }
{
    vec![in alloc; true; willing.len()]
}

/// Flags by which all willing neighbours are taken.
fn take_all(
    alloc: Global,
    graph: &NeighbourGraph,
    willing: &[Near],
    ways: &[Way],
) -> Result<Vec<bool>, AllocError>
    requires willing { AreWilling graph.now willing.now }
    requires ways { AreWays graph.now willing.now ways.now }
    ensures length { IfOk result (λ taken. length taken.items ≡ length willing.now) }
    ensures covers { IfOk result (λ taken. Covers graph.now (ids_of willing.now taken.items)) }
{
    all_flags(alloc, willing)
}

/// All willing neighbours, without those that the others make up for.
fn drop_from_all(
    alloc: Global,
    graph: &NeighbourGraph,
    willing: &[Near],
    ways: &[Way],
) -> Result<Seq<Addr4>, AllocError>
    requires distinct { HasDistinctIds graph.now }
    requires willing { AreWilling graph.now willing.now }
    requires ways { AreWays graph.now willing.now ways.now }
    ensures covers { IfOk result (Covers graph.now) }
    ensures needed { IfOk result (Needed graph.now) }
    ensures order { IfOk result IsAscending }
{
    let mut taken = take_all(alloc, graph, willing, ways)?;
    reduced(alloc, graph, willing, ways, &mut taken)
}

/// The ids of those taken, where they cover and each of them is needed; or else a choice by dropping.
fn checked(
    alloc: Global,
    graph: &NeighbourGraph,
    willing: &[Near],
    ways: &[Way],
    taken: &[bool],
) -> Result<Seq<Addr4>, AllocError>
    requires distinct { HasDistinctIds graph.now }
    requires willing { AreWilling graph.now willing.now }
    requires ways { AreWays graph.now willing.now ways.now }
    requires length { length taken.now ≡ length willing.now }
    ensures covers { IfOk result (Covers graph.now) }
    ensures needed { IfOk result (Needed graph.now) }
    ensures order { IfOk result IsAscending }
{
    if is_choice(alloc, graph, willing, ways, taken)? {
        ids_of(alloc, willing, taken)
    } else {
        drop_from_all(alloc, graph, willing, ways)
    }
}

/// Relays for the graph (RFC 7181, sections 18.3 and 18.6): ids in ascending order that cover, each of which is needed. Ids must be
/// distinct. Only an allocation failure refuses. Which such relays are chosen is not promised, nor the time: the neighbours of willingness 15
/// are taken first, then again and again the one by which most addresses come to be reached at their least cost, the least id among
/// equals; then those that the others make up for are left out, the greatest id first. The choice is checked before it is told; were it
/// refused, it would be one by dropping. That takes about n log n steps for n `far` entries, where those by one neighbour stand side by
/// side, and as many as the square of the number of neighbours.
pub fn choose(alloc: Global, graph: &NeighbourGraph) -> Result<Seq<Addr4>, AllocError>
    requires { HasDistinctIds graph.now }
    ensures covers { IfOk result (Covers graph.now) }
    ensures needed { IfOk result (Needed graph.now) }
    ensures order { IfOk result IsAscending }
{
    let willing = willing_of(alloc, graph)?;
    let ways = ways_of(alloc, graph, &willing)?;
    let taken = choose_greedily(alloc, &willing, &ways)?;
    checked(alloc, graph, &willing, &ways, &taken)
}
