//! What one router does with a data packet.
ghost use Rattle.std.specs.Prelude.{◌≡◌, ◌<◌, ◌↔◌, length, map, Contains, IsTrue, IfSome, IfNone};
ghost use Rattle.mesh_atoms.specs.declared.settings.RadioArc.{RadioArc as Arc};
ghost use Rattle.mesh_atoms.specs.NextHop.{Holds};
ghost use Rattle.mesh_atoms.specs.Settled.{AreStates};
ghost use Rattle.mesh_atoms.specs.State.{HasAddress, HasAddressOn};
ghost use Rattle.mesh_data.specs.Trips.{EndsWith};
ghost use Rattle.mesh_data.specs.Decisions.{IsLongestOf, IsLongerOf, longer_of, IsDecisionBy, IsDecision};
ghost use Rattle.mesh_data.specs.Decisions.{IsAddressAt, IsArcOf, IsMoveBy, IsMove};

use crate::{End, Hop};
use mesh_atoms::{
    Addr4, Attached4, Interface, Metric, NetAddr, RadioArc, Route, RouterSettings, Scenario,
    contains,
};
use mesh_machine::RouterView;

/// What a router does with a packet: it has its address, delivers it to a network of its own at that metric, has nowhere to send
/// it, or sends it on by a route.
#[derive(Clone, Copy)]
pub(crate) enum Decision {
    Here,
    Network(Metric),
    Nowhere,
    Via(Route),
}

/// What happens next: the trip ends, with this much added to its metric, or a hop is made.
#[derive(Clone, Copy)]
pub(crate) enum Move {
    Stops(End, u32),
    Hops(Hop),
}

// Whether the network has the address.
fn has_addr(net: NetAddr, addr: Addr4) -> bool
    ensures { IsTrue result ↔ Holds net addr }
{
    NetAddr::of(addr, net.prefix).addr.0 == net.addr.0
}

// Whether the address is one of the interface's.
fn has_address(interface: &Interface, addr: Addr4) -> bool
    ensures { IsTrue result ↔ Contains interface.now.addrs addr }
{
    contains(interface.addrs.as_slice(), addr)
}

// Whether interface j has the address.
fn is_on(settings: &RouterSettings, j: usize, addr: Addr4) -> bool
    ensures { IsTrue result ↔ HasAddressOn settings.now j addr }
{
    match settings.interfaces.get(j) {
        Some(interface) => has_address(interface, addr),
        None => false,
    }
}

// Whether the address is the router's.
fn is_own(settings: &RouterSettings, addr: Addr4) -> bool
    ensures { IsTrue result ↔ HasAddress settings.now addr }
{
    for j in 0..settings.interfaces.len() {
        if is_on(settings, j, addr) {
            return true;
        }
    }
    false
}

// Whether interface j of router y has the address.
fn is_address_at(scenario: &Scenario, y: usize, j: usize, addr: Addr4) -> bool
    ensures { IsTrue result ↔ IsAddressAt scenario.now y j addr }
{
    match scenario.routers.get(y) {
        Some(settings) => is_on(settings, j, addr),
        None => false,
    }
}

// The network with the longer prefix: the longest so far, or the next one where it has the address.
fn longer(longest: Option<Attached4>, attached: &Attached4, addr: Addr4) -> Option<Attached4>
    ensures { IsLongerOf addr longest attached.now result }
{
    if !has_addr(attached.net, addr) {
        return longest;
    }
    match longest {
        Some(so_far) if attached.net.prefix <= so_far.net.prefix => longest,
        _ => Some(*attached),
    }
}

// Of the networks that have the address, one with the longest prefix.
fn longest_of(attached: &[Attached4], addr: Addr4) -> Option<Attached4>
    ensures { IsLongestOf attached.now (length attached.now) addr result }
{
    let mut longest = None;
    for network in attached {
        longest = longer(longest, network, addr);
    }
    longest
}

// By the longest route and the longest own network: the longer of the two. They are never of one length, since a sound router
// has no route to a network that it attaches.
fn longer_of(row: Option<Route>, own: Option<Attached4>) -> Decision
    ensures { result ≡ longer_of row own }
{
    match row {
        Some(row) => match own {
            Some(attached) if row.dest.prefix < attached.net.prefix => Decision::Network(
                attached.metric,
            ),
            _ => Decision::Via(row),
        },
        None => match own {
            Some(attached) => Decision::Network(attached.metric),
            None => Decision::Nowhere,
        },
    }
}

// What a router with these own networks does with the packet.
fn decide_by<R: RouterView>(router: &R, own: &[Attached4], dest: Addr4) -> Decision
    ensures { IsDecisionBy (R.state router.now).routes own.now dest result }
{
    longer_of(router.next_hop(dest).copied(), longest_of(own, dest))
}

// What router x does with the packet.
fn decide_at<R: RouterView>(routers: &[R], scenario: &Scenario, x: usize, dest: Addr4) -> Decision
    requires states { AreStates scenario.now (map R.state routers.now) }
    requires within { x < length scenario.now.routers }
    ensures { IsDecision scenario.now (map R.state routers.now) dest x result }
{
    let settings = &scenario.routers.as_slice()[x];
    if is_own(settings, dest) {
        return Decision::Here;
    }
    decide_by(&routers[x], settings.attached.as_slice(), dest)
}

// Whether the arc leads from that interface of router x.
fn is_from(arc: &RadioArc, x: usize, iface: usize) -> bool
    ensures { IsTrue result ↔ ((arc.now.from ≡ x) × (arc.now.from_iface ≡ iface)) }
{
    arc.from == x && arc.from_iface == iface
}

// Whether the arc leads from router x to the route's next hop.
fn is_arc_of(scenario: &Scenario, x: usize, row: &Route, arc: &RadioArc) -> bool
    ensures { IsTrue result ↔ IsArcOf scenario.now x row.now arc.now }
{
    is_from(arc, x, row.iface) && is_address_at(scenario, arc.to, arc.to_iface, row.next)
}

// An arc from router x to the route's next hop.
fn arc_of(scenario: &Scenario, arcs: &[RadioArc], x: usize, row: &Route) -> Option<RadioArc>
    ensures some { IfSome result (λ arc. Contains arcs.now arc × IsArcOf scenario.now x row.now arc) }
    ensures none { IfNone result ((arc : Arc) → Contains arcs.now arc → IsArcOf scenario.now x row.now arc → ⊥) }
{
    for arc in arcs {
        if is_arc_of(scenario, x, row, arc) {
            return Some(*arc);
        }
    }
    None
}

// The move by a route.
fn move_by(scenario: &Scenario, x: usize, row: &Route) -> Move
    ensures { IsMoveBy scenario.now x row.now result }
{
    match arc_of(scenario, scenario.arcs.as_slice(), x, row) {
        Some(arc) => Move::Hops(Hop {
            from: x,
            iface: row.iface,
            to: arc.to,
            metric: arc.metric.value(),
        }),
        None => Move::Stops(End::NoArc, 0),
    }
}

/// What router x does with the packet while fewer hops were made than there are routers. Takes time near the number of arcs.
pub(crate) fn move_of<R: RouterView>(
    routers: &[R],
    scenario: &Scenario,
    x: usize,
    dest: Addr4,
) -> Move
    requires states { AreStates scenario.now (map R.state routers.now) }
    requires within { x < length scenario.now.routers }
    ensures { IsMove scenario.now (map R.state routers.now) dest x result }
{
    match decide_at(routers, scenario, x, dest) {
        Decision::Here => Move::Stops(End::Arrived, 0),
        Decision::Network(metric) => Move::Stops(End::Arrived, metric.value()),
        Decision::Nowhere => Move::Stops(End::NoRoute, 0),
        Decision::Via(row) => move_by(scenario, x, &row),
    }
}

/// How the trip ends at router x after as many hops as there are routers, and what that adds to its metric.
pub(crate) fn end_of<R: RouterView>(
    routers: &[R],
    scenario: &Scenario,
    x: usize,
    dest: Addr4,
) -> (End, u32)
    requires states { AreStates scenario.now (map R.state routers.now) }
    requires within { x < length scenario.now.routers }
    ensures { EndsWith scenario.now (map R.state routers.now) dest x (length scenario.now.routers) result.0 result.1 }
{
    match decide_at(routers, scenario, x, dest) {
        Decision::Here => (End::Arrived, 0),
        Decision::Network(metric) => (End::Arrived, metric.value()),
        Decision::Nowhere => (End::NoRoute, 0),
        Decision::Via(_) => (End::TooFar, 0),
    }
}
