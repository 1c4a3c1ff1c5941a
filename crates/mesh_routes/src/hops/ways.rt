//! The ways to neighbours: their links with a known metric (RFC 7181, sections 18.2 and 19.1).
ghost use Rattle.std.specs.Prelude.{◌≡◌, ◌↔◌, IsTrue, IfSome, IfNone};
ghost use Rattle.mesh_routes.specs.Hops.Ways.{way_of, IsBestLink, IsCutOff};

use crate::hops::owners::{SymmetricNeighbour, owner_at};
use mesh_atoms::{Addr4, Link, LinkKey};
use std::collections::{BTreeMap, BTreeSet};

/// A way to a neighbour: by which interface to which of its addresses, at which cost. Ways are ordered so that those to one
/// neighbour stand together, the best of them first.
#[derive(Clone, Copy, PartialEq, Eq, PartialOrd, Ord)]
pub struct NeighbourLink {
    pub originator: Addr4,
    pub metric: u32,
    pub iface: usize,
    pub next: Addr4,
}

/// The way by a link of an interface, if its metric is known and its neighbour symmetric.
pub fn way_of(
    owners: &BTreeMap<Addr4, SymmetricNeighbour>,
    iface: usize,
    key: &LinkKey,
    link: &Link,
) -> Option<NeighbourLink>
    ensures { (until : _) → result ≡ way_of owners.now iface (key.now, (link.now, until)) }
{
    let owner = owner_at(owners, key.addr)?;
    let metric = link.link_out?;
    Some(NeighbourLink {
        originator: owner.originator,
        metric: metric.value(),
        iface,
        next: key.addr,
    })
}

// No way to the neighbour is better.
fn least_way(originator: Addr4) -> NeighbourLink
    ensures originator { result.originator ≡ originator }
    ensures metric { result.metric ≡ 0 }
    ensures iface { result.iface ≡ 0 }
    ensures next { result.next.0 ≡ 0 }
{
    NeighbourLink {
        originator,
        metric: 0,
        iface: 0,
        next: Addr4(0),
    }
}

// Whether the way leads to the neighbour.
fn is_way_to(way: &NeighbourLink, originator: Addr4) -> bool
    ensures { IsTrue result ↔ (way.now.originator ≡ originator) }
{
    way.originator == originator
}

/// The best way to a neighbour, if one leads there. Takes time near log n in the number n of ways.
pub fn best_way(ways: &BTreeSet<NeighbourLink>, originator: Addr4) -> Option<NeighbourLink>
    ensures best { IfSome result (IsBestLink ways.now.keys originator) }
    ensures none { IfNone result (IsCutOff ways.now.keys originator) }
{
    let Some(&way) = ways.range(least_way(originator)..).next() else {
        return None;
    };
    if is_way_to(&way, originator) {
        return Some(way);
    }
    None
}
