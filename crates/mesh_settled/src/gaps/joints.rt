//! The interfaces that those of a router are joined with, by the radio graph.
ghost use Rattle.std.specs.Prelude.{◌≡◌, ◌↔◌, IsTrue, Contains, map, option_map, slice_get};
ghost use Rattle.mesh_atoms.specs.declared.addr.Addr4.{Addr4};
ghost use Rattle.mesh_atoms.specs.Words.{IsValue};
ghost use Rattle.mesh_atoms.specs.Radio.{IsRadioGraph};
ghost use Rattle.mesh_atoms.specs.Settled.{IsLeastAddress};
ghost use Rattle.mesh_atoms.specs.State.{HasAddress, HasAddressOn};
ghost use Rattle.mesh_settled.specs.Gaps.Joints.{IsBack, IsLeastOf, IsJointBy, IsJointWith, IsOfSome};
ghost use Rattle.mesh_settled.specs.Gaps.Site.{states};

use crate::gaps::compare::least_missing;
use crate::gaps::site::RouterAt;
use mesh_atoms::{Addr4, Metric, Pair, RouterSettings, contains};
use mesh_machine::RouterView;

/// An interface of a router, both counted from 0, that another is joined with, and the metrics there and back.
#[derive(Clone, Copy)]
pub struct Joint {
    pub to: usize,
    pub iface: usize,
    pub there: Metric,
    pub back: Metric,
}

/// The router at that place.
pub fn router_at<R: RouterView>(routers: &[R], y: usize) -> Option<&R>
    ensures { option_map (λ r. R.state r.now) result ≡ slice_get (map R.state routers.now) y }
{
    match routers.get(y) {
        Some(router) => Some(router),
        None => None,
    }
}

/// The addresses of the interface; none where there is no such interface.
pub fn addrs_of(settings: &RouterSettings, iface: usize) -> &[Addr4]
    ensures { (a : Addr4) → Contains result.now a ↔ HasAddressOn settings.now iface a }
{
    match settings.interfaces.get(iface) {
        Some(face) => face.addrs.as_slice(),
        None => &[],
    }
}

/// The least address of the interface.
pub fn least_address(settings: &RouterSettings, iface: usize) -> Option<Addr4>
    ensures { IsValue (IsLeastAddress settings.now iface) result }
{
    least_missing(addrs_of(settings, iface), &[])
}

// Whether it is the least address of the interface.
fn is_least(settings: &RouterSettings, iface: usize, addr: Addr4) -> bool
    ensures { IsTrue result ↔ IsLeastAddress settings.now iface addr }
{
    match least_address(settings, iface) {
        Some(least) => least.0 == addr.0,
        None => false,
    }
}

// Whether it is the least address of that interface of that router.
fn is_least_of<R: RouterView>(routers: &[R], to: usize, iface: usize, addr: Addr4) -> bool
    ensures { IsTrue result ↔ IsLeastOf (map R.state routers.now) to iface addr }
{
    match router_at(routers, to) {
        Some(other) => is_least(other.settings(), iface, addr),
        None => false,
    }
}

// The metric of the pair that leads back.
fn back_of(pairs: &[Pair], pair: &Pair) -> Option<Metric>
    ensures { IsValue (IsBack pairs.now pair.now) result }
{
    for back in pairs {
        if back.from == pair.to
            && back.from_iface == pair.to_iface
            && back.to == pair.from
            && back.to_iface == pair.from_iface
        {
            return Some(back.metric);
        }
    }
    None
}

// What a pair joins interface i of router x with, if it is an interface with that least address.
fn joint_by<R: RouterView>(
    routers: &[R],
    pairs: &[Pair],
    x: usize,
    i: usize,
    pair: &Pair,
    addr: Addr4,
) -> Option<Joint>
    ensures { IsValue (IsJointBy (map R.state routers.now) pairs.now x i addr pair.now) result }
{
    if pair.from != x || pair.from_iface != i {
        return None;
    }
    if !is_least_of(routers, pair.to, pair.to_iface, addr) {
        return None;
    }
    match back_of(pairs, pair) {
        Some(back) => Some(Joint {
            to: pair.to,
            iface: pair.to_iface,
            there: pair.metric,
            back,
        }),
        None => None,
    }
}

// What the first such pair joins it with.
fn joint_in<R: RouterView>(
    routers: &[R],
    pairs: &[Pair],
    x: usize,
    i: usize,
    addr: Addr4,
) -> Option<Joint>
    ensures { IsValue (IsOfSome (IsJointBy (map R.state routers.now) pairs.now x i addr) pairs.now) result }
{
    for k in 0..pairs.len() {
        let joint = joint_by(routers, pairs, x, i, &pairs[k], addr);
        if joint.is_some() {
            return joint;
        }
    }
    None
}

/// The interface with that least address that interface i of router x is joined with.
pub fn joint_with<R: RouterView>(site: &RouterAt<'_, R>, i: usize, addr: Addr4) -> Option<Joint>
    requires { IsRadioGraph site.now.scenario.now site.now.graph.now }
    ensures { IsValue (IsJointWith site.entry.now.scenario.now (states R.state site.entry.now) site.entry.now.x i addr) result }
{
    joint_in(site.routers, site.graph.pairs.as_slice(), site.x, i, addr)
}

/// Whether it is an address of the router.
pub fn is_address_of(settings: &RouterSettings, addr: Addr4) -> bool
    ensures { IsTrue result ↔ HasAddress settings.now addr }
{
    for i in 0..settings.interfaces.len() {
        if contains(addrs_of(settings, i), addr) {
            return true;
        }
    }
    false
}
