//! What the HELLO of a router's interface says of an address (RFC 6130, section 11, and RFC 7181, section 15.1).
ghost use Rattle.std.specs.Prelude.{◌≡◌, ◌↔◌, ◌||◌, IsTrue, Option, Some, None, is_some};
ghost use Rattle.mesh_atoms.specs.declared.settings.RouterSettings.{RouterSettings};
ghost use Rattle.mesh_atoms.specs.Base.{base_of};
ghost use Rattle.mesh_atoms.specs.Sound.{SoundNeighbourhood};
ghost use Rattle.mesh_atoms.specs.State.{State};
ghost use Rattle.mesh_atoms.specs.Words.{IsValue};
ghost use Rattle.mesh_nhdp.specs.expire.Table.{entry_of};
ghost use Rattle.mesh_machine.specs.Said.{IsSaidOf, IsFloodingRelay, is_link_symmetric, link_metric_in, link_metric_out, near_metric_in, near_metric_out, or_else};
ghost use Rattle.mesh_hello.specs.Saying.Said.{IsRelayOf};
ghost use Rattle.mesh_hello.specs.Saying.Said.{IsNeighbourWith};
ghost use Rattle.mesh_hello.specs.Saying.Said.{IsLinkWith};

use mesh_atoms::{Addr4, Link, LinkKey, Metric, Neighbour, Relays, Seq, contains};
use mesh_nbrs::Near4;

/// What the HELLO of a router's interface says of an address: whether it is shown SYMMETRIC, by LINK_STATUS or OTHER_NEIGHB; the
/// metrics that are taken from it; and whether it is a flooding or a routing relay's.
#[derive(Clone, Copy)]
pub struct Said {
    pub symmetric: bool,
    pub metric_in: Option<Metric>,
    pub metric_out: Option<Metric>,
    pub flooding: bool,
    pub routing: bool,
}

// The link of an interface that has the address.
fn link_with<N: Near4>(near: &N, iface: usize, addr: Addr4) -> Option<(&LinkKey, &Link, u64)>
    ensures { IsValue (IsLinkWith (base_of (N.near near.now).links iface) addr) (entry_of result) }
{
    for place in 0..near.link_count(iface) {
        if let Some((key, link, until)) = near.link(iface, place) {
            if contains(link.addrs.as_slice(), addr) {
                return Some((key, link, until));
            }
        }
    }
    None
}

// The symmetric neighbour that has the address.
fn neighbour_with<N: Near4>(near: &N, addr: Addr4) -> Option<(&Addr4, &Neighbour, u64)>
    ensures { IsValue (IsNeighbourWith (N.near near.now).neighbours addr) (entry_of result) }
{
    for place in 0..near.neighbour_count() {
        if let Some((originator, neighbour, until)) = near.neighbour(place) {
            if neighbour.symmetric && contains(neighbour.addrs.as_slice(), addr) {
                return Some((originator, neighbour, until));
            }
        }
    }
    None
}

// Whether there is a link, and it is SYMMETRIC.
fn is_link_symmetric(link: Option<(&LinkKey, &Link, u64)>, now: u64) -> bool
    ensures { result ≡ is_link_symmetric (entry_of link.entry) now }
{
    match link {
        Some((_, link, _)) => link.is_symmetric(now),
        None => false,
    }
}

// The incoming metric of a link that is HEARD or SYMMETRIC.
fn link_metric_in(link: Option<(&LinkKey, &Link, u64)>, now: u64) -> Option<Metric>
    ensures { result ≡ link_metric_in (entry_of link.entry) now }
{
    let Some((_, link, _)) = link else {
        return None;
    };
    if link.is_symmetric(now) {
        return Some(link.link_in);
    }
    if link.is_heard(now) {
        Some(link.link_in)
    } else {
        None
    }
}

// The outgoing metric of a link that is SYMMETRIC.
fn link_metric_out(link: Option<(&LinkKey, &Link, u64)>, now: u64) -> Option<Metric>
    ensures { result ≡ link_metric_out (entry_of link.entry) now }
{
    let Some((_, link, _)) = link else {
        return None;
    };
    if link.is_symmetric(now) {
        link.link_out
    } else {
        None
    }
}

// The incoming metric of a neighbour.
fn near_metric_in(neighbour: Option<(&Addr4, &Neighbour, u64)>) -> Option<Metric>
    ensures { result ≡ near_metric_in (entry_of neighbour.entry) }
{
    match neighbour {
        Some((_, neighbour, _)) => neighbour.metric_in,
        None => None,
    }
}

// The outgoing metric of a neighbour.
fn near_metric_out(neighbour: Option<(&Addr4, &Neighbour, u64)>) -> Option<Metric>
    ensures { result ≡ near_metric_out (entry_of neighbour.entry) }
{
    match neighbour {
        Some((_, neighbour, _)) => neighbour.metric_out,
        None => None,
    }
}

// The first metric, or the second where the first is none.
fn or_else(first: Option<Metric>, second: Option<Metric>) -> Option<Metric>
    ensures { result ≡ or_else first second }
{
    match first {
        Some(metric) => Some(metric),
        None => second,
    }
}

// Whether one of the two holds.
fn is_either(first: bool, second: bool) -> bool
    ensures { result ≡ (first || second) }
{
    first || second
}

// Whether the neighbour is among the relays.
fn is_relay(relays: &[Addr4], neighbour: Option<(&Addr4, &Neighbour, u64)>) -> bool
    ensures { IsTrue result ↔ IsRelayOf relays.now (entry_of neighbour.entry) }
{
    match neighbour {
        Some((originator, _, _)) => contains(relays, *originator),
        None => false,
    }
}

// Whether the neighbour is a flooding relay of the interface, and its link there is SYMMETRIC.
fn is_flooding_relay(
    flooding: &Seq<Seq<Addr4>>,
    iface: usize,
    symmetric: bool,
    neighbour: Option<(&Addr4, &Neighbour, u64)>,
) -> bool
    ensures { IsTrue result ↔ IsFloodingRelay flooding.now iface symmetric (entry_of neighbour.entry) }
{
    match (symmetric, flooding.get(iface)) {
        (true, Some(relays)) => is_relay(relays.as_slice(), neighbour),
        _ => false,
    }
}

/// What the HELLO of interface `iface` at `now` says of an address, with these relays (RFC 6130, section 11, and RFC 7181, section
/// 15.1). Takes a walk over the links of the interface and one over the neighbours, and no memory.
pub fn said_of<N: Near4>(near: &N, relays: &Relays, iface: usize, now: u64, addr: Addr4) -> Said
    requires { (settings : RouterSettings) × SoundNeighbourhood settings now (N.near near.now) }
    ensures { (s : State) → s.bases.neighbourhood ≡ N.near near.now → s.relays ≡ relays.now → IsSaidOf s iface now addr result }
{
    let link = link_with(near, iface, addr);
    let neighbour = neighbour_with(near, addr);
    let symmetric = is_link_symmetric(link, now);
    Said {
        symmetric: is_either(symmetric, neighbour.is_some()),
        metric_in: or_else(near_metric_in(neighbour), link_metric_in(link, now)),
        metric_out: or_else(near_metric_out(neighbour), link_metric_out(link, now)),
        flooding: is_flooding_relay(&relays.flooding, iface, symmetric, neighbour),
        routing: is_relay(relays.routing.as_slice(), neighbour),
    }
}
