//! What a HELLO says of an address (RFC 6130, section 11, and RFC 7181, section 15.1).
ghost use Rattle.std.specs.Prelude.{◌≡◌, ◌↔◌, ◌<◌, IsTrue, Option, Some, None};
ghost use Rattle.mesh_atoms.specs.Words.{IsValue};
ghost use Rattle.mesh_atoms.specs.Base.{HasDistinctKeys, addr_eq};
ghost use Rattle.mesh_atoms.specs.State.{HasAddressOn};
ghost use Rattle.mesh_expire.specs.Table.{entry_of};
ghost use Rattle.mesh_hello.specs.Saying.Said.{IsNeighbourWith, link_status_said, other_said, link_in_said, link_out_said, near_in_said, near_out_said, IsRelayOf, IsFloodingRelayOver, IsLocalOn};

use mesh_atoms::{
    Addr4, Link, LinkKey, LinkStatus, LocalIf, Metric, Neighbour, OtherStatus, RouterSettings, Seq,
    contains,
};
use mesh_expire::Table;
use mesh_nbrs::NeighbourSet;

/// A symmetric neighbour that has the address. Looks at no other neighbour.
pub fn neighbour_with<N: Table<Addr4, Neighbour>>(
    neighbours: &NeighbourSet<N>,
    addr: Addr4,
) -> Option<(&Addr4, &Neighbour, u64)>
    requires { HasDistinctKeys addr_eq neighbours.now }
    ensures { IsValue (IsNeighbourWith neighbours.now addr) (entry_of result) }
{
    let Some((originator, neighbour, until)) = neighbours.with_address(addr) else {
        return None;
    };
    if neighbour.symmetric {
        Some((originator, neighbour, until))
    } else {
        None
    }
}

/// Whether the interface has the address.
fn is_on(settings: &RouterSettings, iface: usize, addr: Addr4) -> bool
    ensures { IsTrue result ↔ HasAddressOn settings.now iface addr }
{
    match settings.interfaces.get(iface) {
        Some(face) => contains(face.addrs.as_slice(), addr),
        None => false,
    }
}

/// Whether another interface has the address.
fn is_on_other(settings: &RouterSettings, iface: usize, addr: Addr4) -> bool
    ensures { IsTrue result ↔ IsLocalOn settings.now iface addr LocalIf.Other }
{
    for place in 0..settings.interfaces.len() {
        if place != iface && is_on(settings, place, addr) {
            return true;
        }
    }
    false
}

/// LOCAL_IF of an address.
pub fn local_of(settings: &RouterSettings, iface: usize, addr: Addr4) -> Option<LocalIf>
    ensures { IsValue (IsLocalOn settings.now iface addr) result }
{
    if is_on(settings, iface, addr) {
        Some(LocalIf::This)
    } else if is_on_other(settings, iface, addr) {
        Some(LocalIf::Other)
    } else {
        None
    }
}

/// LINK_STATUS of an address, by the link that has it.
pub fn link_status_said(link: Option<(&LinkKey, &Link, u64)>, now: u64) -> Option<LinkStatus>
    ensures { result ≡ link_status_said (entry_of link.entry) now }
{
    match link {
        Some((_, link, _)) => link.status(now),
        None => None,
    }
}

/// OTHER_NEIGHB of an address.
pub fn other_said(status: Option<LinkStatus>, neighbour: bool, lost: bool) -> Option<OtherStatus>
    ensures { result ≡ other_said status neighbour lost }
{
    if lost {
        return Some(OtherStatus::Lost);
    }
    if !neighbour {
        return None;
    }
    match status {
        Some(LinkStatus::Symmetric) => None,
        _ => Some(OtherStatus::Symmetric),
    }
}

/// The incoming metric of the link that has an address.
pub fn link_in_said(
    status: Option<LinkStatus>,
    link: Option<(&LinkKey, &Link, u64)>,
) -> Option<Metric>
    ensures { result ≡ link_in_said status (entry_of link.entry) }
{
    match (status, link) {
        (Some(LinkStatus::Symmetric | LinkStatus::Heard), Some((_, link, _))) => Some(link.link_in),
        _ => None,
    }
}

/// The outgoing metric of the link that has an address.
pub fn link_out_said(
    status: Option<LinkStatus>,
    link: Option<(&LinkKey, &Link, u64)>,
) -> Option<Metric>
    ensures { result ≡ link_out_said status (entry_of link.entry) }
{
    match (status, link) {
        (Some(LinkStatus::Symmetric), Some((_, link, _))) => link.link_out,
        _ => None,
    }
}

/// The incoming metric of the neighbour that has an address.
pub fn near_in_said(neighbour: Option<(&Addr4, &Neighbour, u64)>) -> Option<Metric>
    ensures { result ≡ near_in_said (entry_of neighbour.entry) }
{
    match neighbour {
        Some((_, neighbour, _)) => neighbour.metric_in,
        None => None,
    }
}

/// The outgoing metric of the neighbour that has an address.
pub fn near_out_said(neighbour: Option<(&Addr4, &Neighbour, u64)>) -> Option<Metric>
    ensures { result ≡ near_out_said (entry_of neighbour.entry) }
{
    match neighbour {
        Some((_, neighbour, _)) => neighbour.metric_out,
        None => None,
    }
}

/// Whether the neighbour that has an address is among the relays.
pub fn is_relay(relays: &[Addr4], neighbour: Option<(&Addr4, &Neighbour, u64)>) -> bool
    ensures { IsTrue result ↔ IsRelayOf relays.now (entry_of neighbour.entry) }
{
    match neighbour {
        Some((originator, _, _)) => contains(relays, *originator),
        None => false,
    }
}

/// Whether the neighbour that has an address is a flooding relay of the interface, and its link SYMMETRIC.
pub fn is_flooding_relay(
    flooding: &Seq<Seq<Addr4>>,
    iface: usize,
    status: Option<LinkStatus>,
    neighbour: Option<(&Addr4, &Neighbour, u64)>,
) -> bool
    ensures { IsTrue result ↔ IsFloodingRelayOver flooding.now iface status (entry_of neighbour.entry) }
{
    match (status, flooding.get(iface)) {
        (Some(LinkStatus::Symmetric), Some(relays)) => is_relay(relays.as_slice(), neighbour),
        _ => false,
    }
}
