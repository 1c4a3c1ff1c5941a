//! What is the router's own.
ghost use Rattle.std.specs.Prelude.{◌≡◌, ◌↔◌, IsTrue, Contains};
ghost use Rattle.mesh_atoms.specs.NextHop.{HasAddressIn};
ghost use Rattle.mesh_routes.specs.Hops.Own.{HasNetworkIn, IsOwnAddress, IsOutsideOf};

use mesh_atoms::{Addr4, Attached4, Interface, NetAddr, RouterSettings, contains};

// Whether the address is one of the interface's.
fn has_address(interface: &Interface, addr: Addr4) -> bool
    ensures { IsTrue result ↔ Contains interface.now.addrs addr }
{
    contains(interface.addrs.as_slice(), addr)
}

// Whether the address is one of the interfaces'.
fn is_address(interfaces: &[Interface], addr: Addr4) -> bool
    ensures { IsTrue result ↔ HasAddressIn interfaces.now addr }
{
    for interface in interfaces {
        if has_address(interface, addr) {
            return true;
        }
    }
    false
}

// Whether the node is an own address.
fn is_own_address(settings: &RouterSettings, node: NetAddr) -> bool
    ensures { IsTrue result ↔ IsOwnAddress settings.now node }
{
    node.prefix == 32 && is_address(settings.interfaces.as_slice(), node.addr)
}

// Whether the node is the attached network.
fn is_net(attached: &Attached4, node: NetAddr) -> bool
    ensures { IsTrue result ↔ (attached.now.net ≡ node) }
{
    attached.net == node
}

// Whether the node is one of the attached networks.
fn is_network(attached: &[Attached4], node: NetAddr) -> bool
    ensures { IsTrue result ↔ HasNetworkIn attached.now node }
{
    for attached in attached {
        if is_net(attached, node) {
            return true;
        }
    }
    false
}

/// Whether the node is neither an own address nor an own attached network.
pub fn is_outside(settings: &RouterSettings, node: NetAddr) -> bool
    ensures { IsTrue result ↔ IsOutsideOf settings.now node }
{
    !is_own_address(settings, node) && !is_network(settings.attached.as_slice(), node)
}
