//! Leaving out relays that the others make up for (RFC 7181, section 18.6).
ghost use Rattle.std.specs.Prelude.{◌≡◌, ◌+◌, ◌<◌, ◌⊎◌, All, length, slice_set, true, false};
ghost use Rattle.mesh_atoms.specs.Relays.{Covers, Needed, HasDistinctIds};
ghost use Rattle.mesh_relay.specs.Ways.{AreWilling, AreWays};
ghost use Rattle.mesh_relay.specs.Taken.{ids_of, IsTaken, reaches, IsPruned};

use crate::ways::{Way, are_all_reached};
use mesh_atoms::{Near, NeighbourGraph};

/// Leaves out the neighbour at that place where each address is reached without it.
fn leave_out(ways: &[Way], taken: &mut [bool], place: usize)
    requires ways { All (λ w. w.place < length taken.old) ways.now }
    requires place { place < length taken.old }
    requires taken { IsTaken taken.old place }
    ensures { ((taken.new ≡ slice_set taken.old place false) × (reaches ways.now taken.new ≡ true)) ⊎ ((taken.new ≡ taken.old) × (reaches ways.now (slice_set taken.old place false) ≡ false)) }
{
    taken[place] = false;
    if !are_all_reached(ways, taken) {
        taken[place] = true;
    }
}

/// Leaves out the neighbour at that place where its willingness is below 15 and the others make up for it.
fn prune_at(
    graph: &NeighbourGraph,
    willing: &[Near],
    ways: &[Way],
    taken: &mut [bool],
    place: usize,
)
    requires distinct { HasDistinctIds graph.now }
    requires willing { AreWilling graph.now willing.now }
    requires ways { AreWays graph.now willing.now ways.now }
    requires place { place < length willing.now }
    requires later { IsPruned graph.now willing.now taken.old (place + 1) }
    ensures { IsPruned graph.now willing.now taken.new place }
{
    if taken[place] && willing[place].will < 15 {
        leave_out(ways, taken, place);
    }
}

/// Leaves out, the greatest id first, each neighbour of willingness below 15 that the others make up for.
pub fn prune(graph: &NeighbourGraph, willing: &[Near], ways: &[Way], taken: &mut [bool])
    requires distinct { HasDistinctIds graph.now }
    requires willing { AreWilling graph.now willing.now }
    requires ways { AreWays graph.now willing.now ways.now }
    requires length { length taken.old ≡ length willing.now }
    requires covers { Covers graph.now (ids_of willing.now taken.old) }
    ensures length { length taken.new ≡ length willing.now }
    ensures covers { Covers graph.now (ids_of willing.now taken.new) }
    ensures needed { Needed graph.now (ids_of willing.now taken.new) }
{
    let mut left = willing.len();
    while left > 0 {
        left -= 1;
        prune_at(graph, willing, ways, taken, left);
    }
}
