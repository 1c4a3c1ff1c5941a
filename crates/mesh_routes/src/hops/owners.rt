//! A neighbour by one of its addresses (RFC 7181, section 9).
ghost use Rattle.std.specs.Prelude.{◌≡◌};
ghost use Rattle.mesh_routes.specs.Hops.Owners.{owner_at, owner_by};

use mesh_atoms::{Addr4, Metric, Neighbour, Willing};
use std::collections::BTreeMap;

/// A symmetric neighbour, as whoever has one of its addresses looks at it.
#[derive(Clone, Copy)]
pub struct SymmetricNeighbour {
    pub originator: Addr4,
    pub metric_in: Option<Metric>,
    pub metric_out: Option<Metric>,
    pub willing: Willing,
}

/// The neighbour as an owner.
pub fn owner_by(originator: Addr4, neighbour: &Neighbour) -> SymmetricNeighbour
    ensures { result ≡ owner_by originator neighbour.now }
{
    SymmetricNeighbour {
        originator,
        metric_in: neighbour.metric_in,
        metric_out: neighbour.metric_out,
        willing: neighbour.willing,
    }
}

/// The owner of an address.
pub fn owner_at(
    owners: &BTreeMap<Addr4, SymmetricNeighbour>,
    addr: Addr4,
) -> Option<SymmetricNeighbour>
    ensures { result ≡ owner_at owners.now addr }
{
    owners.get(&addr).copied()
}
