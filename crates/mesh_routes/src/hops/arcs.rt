//! The arcs of a router's own graph (RFC 7181, section 19.1), one by one.
ghost use Rattle.std.specs.Prelude.{◌≡◌};
ghost use Rattle.mesh_routes.specs.Hops.Arcs.{known_arc, two_hop_arc};

use crate::hops::owners::{SymmetricNeighbour, owner_at};
use mesh_atoms::{Addr4, Arc4, Metric, NetAddr, TwoHop, TwoHopKey, host};
use std::collections::BTreeMap;

/// The arc at a metric, if it is known.
pub fn known_arc(from: NetAddr, to: NetAddr, metric: Option<Metric>) -> Option<Arc4>
    ensures { result ≡ known_arc from to metric }
{
    let metric = metric?;
    Some(Arc4 {
        from,
        to,
        metric: metric.value(),
    })
}

/// The arc of a 2-hop tuple, if its neighbour is willing to route and its metric is known.
pub fn two_hop_arc(
    owners: &BTreeMap<Addr4, SymmetricNeighbour>,
    key: &TwoHopKey,
    two_hop: &TwoHop,
) -> Option<Arc4>
    ensures { (until : _) → result ≡ two_hop_arc owners.now (key.now, (two_hop.now, until)) }
{
    let owner = owner_at(owners, key.link.addr)?;
    if owner.willing.routing == 0 {
        return None;
    }
    known_arc(host(owner.originator), host(key.addr), two_hop.metric_out)
}
