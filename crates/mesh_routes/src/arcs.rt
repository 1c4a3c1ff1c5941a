//! The arcs of a router's own graph (RFC 7181, section 19.1).
ghost use Rattle.std.specs.Prelude.{◌≡◌, ◌+◌, ◌++◌, ◌≤◌, length, IfOk, OnOk, Some};
ghost use Rattle.std.specs.List.{filter_map, cons_option};
ghost use Rattle.std.specs.Prelude.{[]};
ghost use Rattle.mesh_atoms.specs.declared.graphs.Arc4.{Arc4};
ghost use Rattle.mesh_atoms.specs.Base.{base_of, host};
ghost use Rattle.mesh_routes.specs.Hops.Arcs.{arc_at, two_hop_arc};
ghost use Rattle.mesh_routes.specs.Hops.Owners.{addr_cmp};
ghost use Rattle.mesh_routes.specs.Arcs.{own_arc};
ghost use Rattle.std.specs.BTreeMap.{IsOrdered};
ghost use Rattle.mesh_routes.specs.Passes.{Adds, GivenByElement};

use crate::hops::{SymmetricNeighbour, known_arc, two_hop_arc};
use mesh_atoms::{Addr4, Arc4, NetAddr, Seq, host};
use mesh_expire::{Key, Table};
use mesh_nbrs::Near4;
use mesh_topo::TopologyTuple;
use std::alloc::AllocError;
use std::collections::BTreeMap;

// Puts an arc at the end, if there is one.
fn put_arc(arcs: &mut Seq<Arc4>, arc: Option<Arc4>) -> Result<(), AllocError>
    ensures { OnOk result (arcs.new ≡ arcs.old ++ cons_option arc []) }
{
    match arc {
        Some(arc) => arcs.push(arc),
        None => Ok(()),
    }
}

/// Puts the arcs from the router itself to its neighbours' addresses. Takes one pass over the owners.
pub(crate) fn put_own_arcs(
    arcs: &mut Seq<Arc4>,
    from: NetAddr,
    owners: &BTreeMap<Addr4, SymmetricNeighbour>,
) -> Result<(), AllocError>
    ensures arcs { OnOk result (arcs.new ≡ arcs.old ++ filter_map (own_arc from) owners.now.entries) }
    ensures ordered { IsOrdered addr_cmp owners.now }
{
    for (addr, owner) in owners.iter() {
        put_arc(arcs, known_arc(from, host(*addr), owner.metric_out))?;
    }
    Ok(())
}

/// Puts the arcs from neighbours to the 2-hop addresses of an interface. Takes a look-up for each 2-hop tuple.
pub(crate) fn put_two_hop_arcs<N: Near4>(
    arcs: &mut Seq<Arc4>,
    near: &N,
    iface: usize,
    owners: &BTreeMap<Addr4, SymmetricNeighbour>,
) -> Result<(), AllocError>
    ensures adds { OnOk result (Adds (GivenByElement (λ e arc. two_hop_arc owners.now e ≡ Some arc) (base_of (N.near near.now).two_hops iface)) arcs.old arcs.new) }
    ensures few { OnOk result (length arcs.new ≤ length arcs.old + length (base_of (N.near near.now).two_hops iface)) }
{
    for place in 0..near.two_hop_count(iface) {
        if let Some((key, two_hop, _)) = near.two_hop(iface, place) {
            put_arc(arcs, two_hop_arc(owners, key, two_hop))?;
        }
    }
    Ok(())
}

// The arc from the originator that told of a topology tuple to what it told.
fn topology_arc<K: Ord, V: TopologyTuple<K>>(key: &K, tuple: &V) -> Arc4
    ensures { result ≡ arc_at (host (V.kind.origin key.now)) (V.kind.dest key.now) (V.kind.says tuple.now).1 }
{
    let (from, to) = V::ends_of(key);
    Arc4 {
        from: host(from),
        to,
        metric: tuple.metric().value(),
    }
}

/// Puts the arcs of the tuples of a topology set. Takes one pass over it.
pub(crate) fn put_topology_arcs<K: Key + Ord, V: TopologyTuple<K>, T: Table<K, V>>(
    arcs: &mut Seq<Arc4>,
    table: &T,
) -> Result<(), AllocError>
    ensures adds { OnOk result (Adds (GivenByElement (λ e arc. arc_at (host (V.kind.origin e.0)) (V.kind.dest e.0) (V.kind.says e.1.0).1 ≡ arc) (T.content table.now)) arcs.old arcs.new) }
    ensures few { OnOk result (length arcs.new ≤ length arcs.old + length (T.content table.now)) }
{
    for place in 0..table.len() {
        if let Some((key, tuple, _)) = table.at(place) {
            arcs.push(topology_arc(key, tuple))?;
        }
    }
    Ok(())
}
