//! The senders of the TCs that a router takes, and stray routers (RFC 7181, section 10.1).
ghost use Rattle.std.specs.Prelude.{◌≡◌, ◌↔◌, IsTrue};
ghost use Rattle.mesh_atoms.specs.Words.{IsValue};
ghost use Rattle.mesh_atoms.specs.Settled.{IsStray};
ghost use Rattle.mesh_settled.specs.Gaps.Peers.{IsPeerOriginator, IsStrayAt, IsOrigin};
ghost use Rattle.mesh_settled.specs.Gaps.Site.{states, IsSite};

use crate::gaps::joints::{is_address_of, router_at};
use crate::gaps::site::RouterAt;
use mesh_atoms::Addr4;
use mesh_machine::RouterView;
use mesh_paths::is_joined;

/// An originator: the router that is joined with router x and has it, and whether it is an address of a stray router.
#[derive(Clone, Copy)]
pub struct Origin {
    pub addr: Addr4,
    pub sender: Option<usize>,
    pub stray: bool,
}

// Whether router w is another one that is joined with router x, and has that originator.
fn is_sender<R: RouterView>(site: &RouterAt<'_, R>, from: Addr4, w: usize) -> bool
    requires { IsSite R.state site.now }
    ensures { IsTrue result ↔ IsPeerOriginator site.entry.now.scenario.now (states R.state site.entry.now) site.entry.now.x from w }
{
    if !is_joined(site.graph, site.x, w) {
        return false;
    }
    match router_at(site.routers, w) {
        Some(other) => other.settings().originator().0 == from.0,
        None => false,
    }
}

// Whether router v is neither x nor joined with it, and has the address.
fn is_stray_at<R: RouterView>(site: &RouterAt<'_, R>, v: usize, addr: Addr4) -> bool
    requires { IsSite R.state site.now }
    ensures { IsTrue result ↔ IsStrayAt site.entry.now.scenario.now site.entry.now.x addr v }
{
    if v == site.x {
        return false;
    }
    if is_joined(site.graph, site.x, v) {
        return false;
    }
    match router_at(site.routers, v) {
        Some(other) => is_address_of(other.settings(), addr),
        None => false,
    }
}

// The router that is joined with router x, and has that originator.
fn sender_of<R: RouterView>(site: &RouterAt<'_, R>, from: Addr4) -> Option<usize>
    requires { IsSite R.state site.now }
    ensures { IsValue (IsPeerOriginator site.entry.now.scenario.now (states R.state site.entry.now) site.entry.now.x from) result }
{
    for w in 0..site.routers.len() {
        if is_sender(site, from, w) {
            return Some(w);
        }
    }
    None
}

// Whether it is an address of a router that is neither x nor joined with it.
fn is_stray<R: RouterView>(site: &RouterAt<'_, R>, addr: Addr4) -> bool
    requires { IsSite R.state site.now }
    ensures { IsTrue result ↔ IsStray site.entry.now.scenario.now site.entry.now.x addr }
{
    for v in 0..site.routers.len() {
        if is_stray_at(site, v, addr) {
            return true;
        }
    }
    false
}

/// The originator, as router x knows it.
pub fn origin_of<R: RouterView>(site: &RouterAt<'_, R>, addr: Addr4) -> Origin
    requires { IsSite R.state site.now }
    ensures addr { result.addr ≡ addr }
    ensures origin { IsOrigin site.entry.now.scenario.now (states R.state site.entry.now) site.entry.now.x result }
{
    let sender = sender_of(site, addr);
    let stray = sender.is_none() && is_stray(site, addr);
    Origin {
        addr,
        sender,
        stray,
    }
}

/// The originator, which may be the one that was asked for before.
pub fn next_origin<R: RouterView>(site: &RouterAt<'_, R>, last: Origin, addr: Addr4) -> Origin
    requires site { IsSite R.state site.now }
    requires last { IsOrigin site.now.scenario.now (states R.state site.now) site.now.x last }
    ensures addr { result.addr ≡ addr }
    ensures origin { IsOrigin site.entry.now.scenario.now (states R.state site.entry.now) site.entry.now.x result }
{
    if last.addr.0 == addr.0 {
        return last;
    }
    origin_of(site, addr)
}
