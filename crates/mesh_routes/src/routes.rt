//! The routes of a router (RFC 7181, section 19.2).
ghost use Rattle.std.specs.Prelude.{◌≡◌, ℕ, IfOk};
ghost use Rattle.mesh_atoms.specs.declared.addr.Addr4.{Addr4};
ghost use Rattle.mesh_atoms.specs.Routes.{AreRoutes};
ghost use Rattle.mesh_atoms.specs.Sound.{SoundNeighbourhood, SoundTopology};
ghost use Rattle.mesh_atoms.specs.State.{State};

use crate::bases::{graph_of_topology, ways_of};
use crate::firsts::firsts_of;
use crate::hops::RoutingSet;
use crate::owners::owners_of;
use crate::rows::rows_of;
use mesh_atoms::{RouterSettings, host};
use mesh_expire::Bases;
use mesh_nbrs::Near4;
use mesh_paths::search;
use mesh_topo::Topology;
use std::alloc::{AllocError, Global};

/// The routes of a router whose bases are sound at a moment (RFC 7181, section 19.2), which are its routes at each moment at which its neighbourhood
/// is sound, so that nothing is made of the moment: one for each node that a walk over its own graph reaches and that is not its own, at the least
/// cost, with the least parent and the best next hop. Refuses only where an allocation fails. Takes time near n log n in the number n of tuples.
pub fn routes_of<N: Near4, B: Bases>(
    alloc: Global,
    near: &N,
    topology: &Topology<B>,
    settings: &RouterSettings,
    now: u64,
) -> Result<RoutingSet, AllocError>
    requires near { SoundNeighbourhood settings.now now (N.near near.now) }
    requires topology { SoundTopology settings.now now topology.now }
    ensures routes { IfOk result (λ routes. (s : State) (moment : ℕ) → s.settings ≡ settings.now → s.bases.neighbourhood ≡ N.near near.now
        → s.bases.topology ≡ topology.now → s.routes ≡ routes → SoundNeighbourhood settings.now moment (N.near near.now)
        → (self : Addr4) × AreRoutes s moment self) }
{
    let from = host(settings.originator());
    let count = settings.interfaces.len();
    let owners = owners_of(alloc, near)?;
    let graph = graph_of_topology(alloc, near, topology, count, from, &owners)?;
    let certificate = search(alloc, &graph, from)?;
    let firsts = firsts_of(alloc, certificate.rows.as_slice(), from)?;
    let ways = ways_of(alloc, near, count, &owners)?;
    let rows = rows_of(
        alloc,
        settings,
        certificate.rows.as_slice(),
        &firsts,
        &owners,
        &ways,
    )?;
    Ok(RoutingSet::of(rows))
}
