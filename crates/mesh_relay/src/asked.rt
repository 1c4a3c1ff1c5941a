//! Whether a set of relays that someone else chose serves (RFC 7181, section 18.3).
ghost use Rattle.std.specs.Prelude.{◌≡◌, ◌<◌, ◌↔◌, ◌≢◌, IfOk, IsTrue, MatchOption, Contains, AllPairs, length, replicate, nat_lt, true, false};
ghost use Rattle.std.specs.List.Sorted.{IsPartitionPoint};
ghost use Rattle.mesh_atoms.specs.Relays.{Covers, Needed, HasDistinctIds};
ghost use Rattle.mesh_atoms.specs.declared.graphs.Near.{Near};
ghost use Rattle.mesh_relay.specs.Ways.{AreWilling};
ghost use Rattle.mesh_relay.specs.Asked.{HasPlace, AreFlagsOf, AreWillingIds};

use crate::soles::is_choice;
use crate::ways::{ways_of, willing_of};
use mesh_atoms::{Addr4, Near, NeighbourGraph};
use std::alloc::{AllocError, Global};

/// Where the ids that are no lower begin.
fn first_near(willing: &[Near], id: Addr4) -> usize
    requires { AllPairs (λ m n. m.id.0 < n.id.0) willing.now }
    ensures { IsPartitionPoint (λ n. nat_lt n.id.0 id.0 ≡ true) (λ n. nat_lt n.id.0 id.0 ≡ false) willing.now result }
{
    willing.partition_point(|near| near.id.0 < id.0)
}

/// Where the willing neighbour of that id stands.
fn place_of(willing: &[Near], id: Addr4) -> Option<usize>
    requires { AllPairs (λ m n. m.id.0 < n.id.0) willing.now }
    ensures { MatchOption result ((n : Near) → Contains willing.now n → n.id ≢ id) (HasPlace willing.now id) }
{
    let place = first_near(willing, id);
    if place >= willing.len() {
        return None;
    }
    if willing[place].id.0 != id.0 {
        return None;
    }
    Some(place)
}

fn no_flags(alloc: Global, willing: &[Near]) -> Result<Vec<bool>, AllocError>
    ensures { IfOk result (λ flags. flags.items ≡ replicate (length willing.now) false) }
{
    vec![in alloc; false; willing.len()]
}

/// Flags of the willing neighbours with these ids; none where an id is no willing neighbour's.
fn flags_of(alloc: Global, willing: &[Near], ids: &[Addr4]) -> Result<Option<Vec<bool>>, AllocError>
    requires { AllPairs (λ m n. m.id.0 < n.id.0) willing.now }
    ensures { IfOk result (λ found. MatchOption found (AreWillingIds willing.now ids.now → ⊥) (λ flags. AreFlagsOf willing.now ids.now flags.items)) }
{
    let mut flags = no_flags(alloc, willing)?;
    for id in ids {
        match place_of(willing, *id) {
            Some(place) => flags[place] = true,
            None => return Ok(None),
        }
    }
    Ok(Some(flags))
}

/// Whether the neighbours that are taken, those with these ids, cover, and each of them is needed.
fn is_choice_of(
    alloc: Global,
    graph: &NeighbourGraph,
    willing: &[Near],
    ids: &[Addr4],
    taken: &[bool],
) -> Result<bool, AllocError>
    requires distinct { HasDistinctIds graph.now }
    requires willing { AreWilling graph.now willing.now }
    requires flags { AreFlagsOf willing.now ids.now taken.now }
    ensures { IfOk result (λ b. IsTrue b ↔ (Covers graph.now ids.now × Needed graph.now ids.now)) }
{
    let ways = ways_of(alloc, graph, willing)?;
    is_choice(alloc, graph, willing, &ways, taken)
}

/// What `serves` tells, where the willing neighbours are known.
fn serves_among(
    alloc: Global,
    graph: &NeighbourGraph,
    willing: &[Near],
    ids: &[Addr4],
) -> Result<bool, AllocError>
    requires distinct { HasDistinctIds graph.now }
    requires willing { AreWilling graph.now willing.now }
    ensures { IfOk result (λ b. IsTrue b ↔ (Covers graph.now ids.now × Needed graph.now ids.now)) }
{
    match flags_of(alloc, willing, ids)? {
        Some(taken) => is_choice_of(alloc, graph, willing, ids, &taken),
        None => Ok(false),
    }
}

/// Whether the relays cover, and none of them is one too many (RFC 7181, section 18.3): what `covers` and `irredundant` tell
/// together, with memory and in about n log n steps for n entries of the graph, where `far` entries by one neighbour stand side by side. Ids must be
/// distinct. Only an allocation failure refuses.
pub fn serves(alloc: Global, graph: &NeighbourGraph, relays: &[Addr4]) -> Result<bool, AllocError>
    requires { HasDistinctIds graph.now }
    ensures { IfOk result (λ b. IsTrue b ↔ (Covers graph.now relays.now × Needed graph.now relays.now)) }
{
    let willing = willing_of(alloc, graph)?;
    serves_among(alloc, graph, &willing, relays)
}
