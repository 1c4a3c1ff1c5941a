//! Gaps among the links of a router (RFC 6130, section 7.1).
ghost use Rattle.std.specs.Prelude.{◌≡◌, ◌↔◌, ◌<◌, List, Some, IsTrue, Contains, map};
ghost use Rattle.mesh_atoms.specs.declared.addr.Addr4.{Addr4};
ghost use Rattle.mesh_atoms.specs.Hello.{Says, Flooding};
ghost use Rattle.mesh_atoms.specs.Words.{IsValue};
ghost use Rattle.mesh_atoms.specs.Sound.{Sound};
ghost use Rattle.mesh_machine.specs.expire.Table.{value_of};
ghost use Rattle.mesh_atoms.specs.declared.gap.GapKey.TheVariants.{Link as Of_link};
ghost use Rattle.mesh_settled.specs.Gaps.Found.{IsSide, IsTestFrom, IsLeastGap};
ghost use Rattle.mesh_settled.specs.Gaps.Gaps.{IsHeldLink, IsPresentLink};
ghost use Rattle.mesh_settled.specs.Gaps.Fields.{Field, link_fields};
ghost use Rattle.mesh_settled.specs.Gaps.Joints.{IsLeastOf};
ghost use Rattle.mesh_settled.specs.Gaps.Links.{held_fields, symmetric_fields, given_fields, given_link, IsGivenBy, IsHeldAt, IsHeldOn, IsLinkHeld, IsGivenAt, IsGiven, IsLinkKey};
ghost use Rattle.mesh_settled.specs.Gaps.Site.{states, seen, IsSite};

use crate::gaps::compare::{Difference, addresses, compared, first_of, flags, known_cost, numbers};
use crate::gaps::found::{Found, found_at, lesser};
use crate::gaps::joints::{Joint, addrs_of, joint_with, least_address, router_at};
use crate::gaps::site::RouterAt;
use mesh_atoms::{Addr4, GapKey, Link, LinkKey, Metric, Pair, RouterSettings};
use mesh_machine::RouterView;

/// The link with a joined interface.
#[derive(Clone, Copy)]
pub struct GivenLink<'a> {
    pub addrs: &'a [Addr4],
    pub link_in: Metric,
    pub link_out: Metric,
    pub selector: bool,
}

// The link, if it is SYMMETRIC.
fn if_symmetric<'a>(found: Option<(&'a Link, u64)>, now: u64) -> Option<&'a Link>
    ensures { held_fields result ≡ symmetric_fields now (value_of found.entry) }
{
    match found {
        Some((link, _)) => {
            if link.is_symmetric(now) {
                Some(link)
            } else {
                None
            }
        }
        None => None,
    }
}

// The SYMMETRIC link with that key.
fn held_link<R: RouterView>(router: &R, i: usize, key: LinkKey, now: u64) -> Option<&Link>
    requires { Sound (R.state router.now) }
    ensures { IsSide (IsHeldLink (R.state router.now) now i key) (held_fields result) }
{
    if_symmetric(router.link_of(i, &key), now)
}

// Whether the HELLO of interface j shows one of these addresses as a flooding relay's.
fn is_selector<R: RouterView>(other: &R, j: usize, addrs: &[Addr4], now: u64) -> bool
    requires sound { Sound (R.state other.now) }
    requires moment { (R.state other.now).last ≡ now }
    ensures { IsTrue result ↔ ((a : Addr4) × Contains addrs.now a × Says (R.state other.now) j now a Flooding) }
{
    for k in 0..addrs.len() {
        if other.said(j, now, addrs[k]).flooding {
            return true;
        }
    }
    false
}

// Where the two links differ.
fn link_difference(held: &Link, given: GivenLink<'_>) -> Option<Difference>
    ensures { IsTestFrom 0 (link_fields held.now) (given_link given.entry) result }
{
    let addrs = addresses(held.addrs.as_slice(), given.addrs);
    let link_in = numbers(
        known_cost(Some(held.link_in)),
        known_cost(Some(given.link_in)),
    );
    let link_out = numbers(known_cost(held.link_out), known_cost(Some(given.link_out)));
    let selector = flags(held.selector, given.selector);
    let last = first_of(3, selector, None);
    let third = first_of(2, link_out, last);
    let second = first_of(1, link_in, third);
    first_of(0, addrs, second)
}

// The link of interface i with that joined interface.
fn given_by<'a, R: RouterView>(
    router: &R,
    i: usize,
    other: &'a R,
    joint: Joint,
    now: u64,
) -> GivenLink<'a>
    requires sound { Sound (R.state other.now) }
    requires moment { (R.state other.now).last ≡ now }
    ensures { IsGivenBy (R.state router.now) (R.state other.now) i now joint result }
{
    let addrs = addrs_of(other.settings(), joint.iface);
    let selector = is_selector(other, joint.iface, addrs_of(router.settings(), i), now);
    GivenLink {
        addrs,
        link_in: joint.back,
        link_out: joint.there,
        selector,
    }
}

// The link with that key of interface i with a joined interface.
fn given_link<'a, R: RouterView>(
    site: &RouterAt<'a, R>,
    i: usize,
    key: LinkKey,
) -> Option<GivenLink<'a>>
    requires { IsSite R.state site.now }
    ensures { IsSide (IsPresentLink (seen R.state site.entry.now) i key) (given_fields result) }
{
    match joint_with(site, i, key.addr) {
        Some(joint) => match router_at(site.routers, joint.to) {
            Some(other) => Some(given_by(site.router, i, other, joint, site.moment)),
            None => None,
        },
        None => None,
    }
}

// Where the two links differ, if there are two.
fn difference_of(held: Option<&Link>, given: Option<GivenLink<'_>>) -> Option<Difference>
    ensures { (fs gs : List Field) → held_fields held.entry ≡ Some fs → given_fields given.entry ≡ Some gs →
        IsTestFrom 0 fs gs result }
{
    match (held, given) {
        (Some(held), Some(given)) => link_difference(held, given),
        _ => None,
    }
}

// The gap at the link of interface i with that key.
fn gap_at<R: RouterView>(site: &RouterAt<'_, R>, i: usize, key: LinkKey) -> Option<Found>
    requires { IsSite R.state site.now }
    ensures { IsLeastGap (seen R.state site.entry.now) (λ k. k ≡ Of_link i key) result }
{
    let held = held_link(site.router, i, key, site.moment);
    let given = given_link(site, i, key);
    let difference = difference_of(held, given);
    let values = compared(held.is_some(), given.is_some(), difference);
    found_at(GapKey::Link { iface: i, key }, values)
}

// The gap at the link of interface i at that place.
fn held_at<R: RouterView>(site: &RouterAt<'_, R>, i: usize, place: usize) -> Option<Found>
    requires { IsSite R.state site.now }
    ensures { IsLeastGap (seen R.state site.entry.now) (IsHeldAt (R.state site.entry.now.router.now) i place) result }
{
    match site.router.link(i, place) {
        Some((key, _, _)) => gap_at(site, i, *key),
        None => None,
    }
}

// The least gap among the links of interface i.
fn held_on<R: RouterView>(site: &RouterAt<'_, R>, i: usize) -> Option<Found>
    requires { IsSite R.state site.now }
    ensures { IsLeastGap (seen R.state site.entry.now) (IsHeldOn (R.state site.entry.now.router.now) i) result }
{
    let mut best = None;
    for place in 0..site.router.links(i) {
        best = lesser(best, held_at(site, i, place));
    }
    best
}

// The least gap among the links.
fn held_links<R: RouterView>(site: &RouterAt<'_, R>) -> Option<Found>
    requires { IsSite R.state site.now }
    ensures { IsLeastGap (seen R.state site.entry.now) (IsLinkHeld (R.state site.entry.now.router.now)) result }
{
    let mut best = None;
    for i in 0..site.router.settings().interfaces.len() {
        best = lesser(best, held_on(site, i));
    }
    best
}

// The least address of the interface that a pair leads to.
fn end_of<R: RouterView>(routers: &[R], pair: &Pair) -> Option<Addr4>
    ensures { IsValue (IsLeastOf (map R.state routers.now) pair.now.to pair.now.to_iface) result }
{
    match router_at(routers, pair.to) {
        Some(other) => least_address(other.settings(), pair.to_iface),
        None => None,
    }
}

// The gap at the link that a pair gives the router.
fn given_at<R: RouterView>(site: &RouterAt<'_, R>, pair: &Pair) -> Option<Found>
    requires { IsSite R.state site.now }
    ensures { IsLeastGap (seen R.state site.entry.now) (IsGivenAt (states R.state site.entry.now) site.entry.now.x pair.now) result }
{
    if pair.from != site.x {
        return None;
    }
    match end_of(site.routers, pair) {
        Some(addr) => gap_at(site, pair.from_iface, LinkKey { addr }),
        None => None,
    }
}

// The least gap among the links that these pairs give the router.
fn given_links<R: RouterView>(site: &RouterAt<'_, R>, pairs: &[Pair]) -> Option<Found>
    requires { IsSite R.state site.now }
    ensures { IsLeastGap (seen R.state site.entry.now) (IsGiven (states R.state site.entry.now) site.entry.now.x pairs.now) result }
{
    let mut best = None;
    for place in 0..pairs.len() {
        best = lesser(best, given_at(site, &pairs[place]));
    }
    best
}

/// The least gap among the links.
pub fn link_gap<R: RouterView>(site: &RouterAt<'_, R>) -> Option<Found>
    requires { IsSite R.state site.now }
    ensures { IsLeastGap (seen R.state site.entry.now) IsLinkKey result }
{
    let held = held_links(site);
    let given = given_links(site, site.graph.pairs.as_slice());
    lesser(held, given)
}
