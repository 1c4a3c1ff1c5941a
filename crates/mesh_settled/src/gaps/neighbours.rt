//! Gaps among the neighbours of a router (RFC 6130, section 8.1).
ghost use Rattle.std.specs.Prelude.{◌≡◌, ◌↔◌, ◌+◌, ◌*◌, List, Some, IsTrue, Contains, length};
ghost use Rattle.mesh_atoms.specs.declared.addr.Addr4.{Addr4};
ghost use Rattle.mesh_atoms.specs.Hello.{Says, Routing};
ghost use Rattle.mesh_atoms.specs.Settled.{At};
ghost use Rattle.mesh_atoms.specs.Sound.{Sound};
ghost use Rattle.mesh_atoms.specs.State.{HasAddress};
ghost use Rattle.mesh_machine.specs.expire.Table.{value_of};
ghost use Rattle.mesh_atoms.specs.declared.gap.GapKey.TheVariants.{Neighbour as Of_neighbour};
ghost use Rattle.mesh_settled.specs.Gaps.Fields.{Field, neighbour_fields};
ghost use Rattle.mesh_settled.specs.Gaps.Found.{IsSide, IsTestFrom, IsLeastGap};
ghost use Rattle.mesh_settled.specs.Gaps.Gaps.{IsHeldNeighbour, IsPresentNeighbour};
ghost use Rattle.mesh_settled.specs.Gaps.Neighbours.{held_fields, symmetric_fields, given_tuple, given_fields, IsGivenNear, IsGivenAt, IsHeldAt, IsNeighbourHeld, IsOriginatorOf, IsOriginatorBelow, IsNeighbourKey};
ghost use Rattle.mesh_settled.specs.Gaps.Site.{states, seen, IsSite};

use crate::gaps::compare::{Difference, compared, first_of, flags, known_cost, numbers};
use crate::gaps::found::{Found, found_at, lesser};
use crate::gaps::joints::{addrs_of, router_at};
use crate::gaps::metrics::metric_to;
use crate::gaps::owned::owned;
use crate::gaps::site::RouterAt;
use mesh_atoms::{Addr4, GapKey, Metric, Neighbour, RouterSettings, Willing};
use mesh_machine::RouterView;

/// The neighbour that an adjacent router is.
#[derive(Clone, Copy)]
pub struct GivenNeighbour<'a> {
    pub settings: &'a RouterSettings,
    pub metric_in: Metric,
    pub metric_out: Metric,
    pub selector: bool,
}

// The neighbour, if it is symmetric.
fn if_symmetric<'a>(found: Option<(&'a Neighbour, u64)>) -> Option<&'a Neighbour>
    ensures { held_fields result ≡ symmetric_fields (value_of found.entry) }
{
    match found {
        Some((neighbour, _)) => {
            if neighbour.symmetric {
                Some(neighbour)
            } else {
                None
            }
        }
        None => None,
    }
}

// The symmetric neighbour with that originator.
fn held_neighbour<R: RouterView>(router: &R, originator: Addr4) -> Option<&Neighbour>
    requires { Sound (R.state router.now) }
    ensures { IsSide (IsHeldNeighbour (R.state router.now) originator) (held_fields result) }
{
    if_symmetric(router.neighbour_of(&originator))
}

// Whether the HELLOs show one of these addresses as a routing relay's.
fn is_any_relay<R: RouterView>(other: &R, addrs: &[Addr4], now: u64) -> bool
    requires sound { Sound (R.state other.now) }
    requires moment { (R.state other.now).last ≡ now }
    ensures { IsTrue result ↔ ((a : Addr4) × Contains addrs.now a × Says (R.state other.now) 0 now a Routing) }
{
    for k in 0..addrs.len() {
        if other.said(0, now, addrs[k]).routing {
            return true;
        }
    }
    false
}

// Whether the HELLOs show one of the router's addresses as a routing relay's.
fn is_selector<R: RouterView>(other: &R, settings: &RouterSettings, now: u64) -> bool
    requires sound { Sound (R.state other.now) }
    requires moment { (R.state other.now).last ≡ now }
    ensures { IsTrue result ↔ ((a : Addr4) × HasAddress settings.now a × Says (R.state other.now) 0 now a Routing) }
{
    for i in 0..settings.interfaces.len() {
        if is_any_relay(other, addrs_of(settings, i), now) {
            return true;
        }
    }
    false
}

// The neighbour that router y is, if it is adjacent.
fn given_near<'a, R: RouterView>(
    site: &RouterAt<'a, R>,
    y: usize,
    other: &'a R,
) -> Option<GivenNeighbour<'a>>
    requires site { IsSite R.state site.now }
    requires other { At (states R.state site.now) y (R.state other.now) }
    ensures { IsGivenNear (seen R.state site.entry.now) y (R.state other.now) result }
{
    let there = metric_to(site, site.x, y);
    match there {
        Some(metric_out) => {
            let back = metric_to(site, y, site.x);
            match back {
                Some(metric_in) => Some(GivenNeighbour {
                    settings: other.settings(),
                    metric_in,
                    metric_out,
                    selector: is_selector(other, site.router.settings(), site.moment),
                }),
                None => None,
            }
        }
        None => None,
    }
}

// The neighbour that router y is, if it is adjacent and has that originator.
fn given_at<'a, R: RouterView>(
    site: &RouterAt<'a, R>,
    addr: Addr4,
    y: usize,
) -> Option<GivenNeighbour<'a>>
    requires { IsSite R.state site.now }
    ensures { IsGivenAt (seen R.state site.entry.now) addr y result }
{
    match router_at(site.routers, y) {
        Some(other) => {
            let own = other.settings().originator();
            if own.0 == addr.0 {
                given_near(site, y, other)
            } else {
                None
            }
        }
        None => None,
    }
}

// The neighbour with that originator that an adjacent router is.
fn given_neighbour<'a, R: RouterView>(
    site: &RouterAt<'a, R>,
    addr: Addr4,
) -> Option<GivenNeighbour<'a>>
    requires { IsSite R.state site.now }
    ensures { IsSide (IsPresentNeighbour (seen R.state site.entry.now) addr) (given_fields result) }
{
    for y in 0..site.routers.len() {
        let given = given_at(site, addr, y);
        if given.is_some() {
            return given;
        }
    }
    None
}

// Both kinds of willingness as one number.
fn willing(willing: Willing) -> Option<u64>
    ensures { result ≡ Some (16 * willing.flooding + willing.routing) }
{
    Some(16 * u64::from(willing.flooding) + u64::from(willing.routing))
}

// Where the two neighbours differ.
fn difference_between(held: &Neighbour, given: GivenNeighbour<'_>) -> Option<Difference>
    ensures { IsTestFrom 0 (neighbour_fields held.now) (neighbour_fields (given_tuple given.entry)) result }
{
    let addrs = owned(held.addrs.as_slice(), given.settings);
    let ready = numbers(willing(held.willing), willing(given.settings.willing));
    let metric_in = numbers(
        known_cost(held.metric_in),
        known_cost(Some(given.metric_in)),
    );
    let metric_out = numbers(
        known_cost(held.metric_out),
        known_cost(Some(given.metric_out)),
    );
    let selector = flags(held.selector, given.selector);
    let last = first_of(4, selector, None);
    let fourth = first_of(3, metric_out, last);
    let third = first_of(2, metric_in, fourth);
    let second = first_of(1, ready, third);
    first_of(0, addrs, second)
}

// Where the two neighbours differ, if there are two.
fn difference_of(held: Option<&Neighbour>, given: Option<GivenNeighbour<'_>>) -> Option<Difference>
    ensures { (fs gs : List Field) → held_fields held.entry ≡ Some fs → given_fields given.entry ≡ Some gs →
        IsTestFrom 0 fs gs result }
{
    match (held, given) {
        (Some(held), Some(given)) => difference_between(held, given),
        _ => None,
    }
}

// The gap at the neighbour with that originator.
fn gap_at<R: RouterView>(site: &RouterAt<'_, R>, addr: Addr4) -> Option<Found>
    requires { IsSite R.state site.now }
    ensures { IsLeastGap (seen R.state site.entry.now) (λ k. k ≡ Of_neighbour addr) result }
{
    let held = held_neighbour(site.router, addr);
    let given = given_neighbour(site, addr);
    let difference = difference_of(held, given);
    let values = compared(held.is_some(), given.is_some(), difference);
    found_at(GapKey::Neighbour(addr), values)
}

// The gap at the neighbour at that place.
fn held_at<R: RouterView>(site: &RouterAt<'_, R>, place: usize) -> Option<Found>
    requires { IsSite R.state site.now }
    ensures { IsLeastGap (seen R.state site.entry.now) (IsHeldAt (R.state site.entry.now.router.now) place) result }
{
    match site.router.neighbour(place) {
        Some((addr, _, _)) => gap_at(site, *addr),
        None => None,
    }
}

// The least gap among the neighbours that the router holds.
fn held_gap<R: RouterView>(site: &RouterAt<'_, R>) -> Option<Found>
    requires { IsSite R.state site.now }
    ensures { IsLeastGap (seen R.state site.entry.now) (IsNeighbourHeld (R.state site.entry.now.router.now)) result }
{
    let mut best = None;
    for place in 0..site.router.neighbours() {
        best = lesser(best, held_at(site, place));
    }
    best
}

// The gap at the neighbour with the originator of router y.
fn gap_of<R: RouterView>(site: &RouterAt<'_, R>, y: usize) -> Option<Found>
    requires { IsSite R.state site.now }
    ensures { IsLeastGap (seen R.state site.entry.now) (IsOriginatorOf (states R.state site.entry.now) y) result }
{
    match router_at(site.routers, y) {
        Some(other) => gap_at(site, other.settings().originator()),
        None => None,
    }
}

// The least gap among the neighbours with the originators of all routers.
fn given_gap<R: RouterView>(site: &RouterAt<'_, R>) -> Option<Found>
    requires { IsSite R.state site.now }
    ensures { IsLeastGap (seen R.state site.entry.now) (IsOriginatorBelow (states R.state site.entry.now)
        (length site.entry.now.routers.now)) result }
{
    let mut best = None;
    for y in 0..site.routers.len() {
        best = lesser(best, gap_of(site, y));
    }
    best
}

/// The least gap among the neighbours of router x.
pub fn neighbour_gap<R: RouterView>(site: &RouterAt<'_, R>) -> Option<Found>
    requires { IsSite R.state site.now }
    ensures { IsLeastGap (seen R.state site.entry.now) IsNeighbourKey result }
{
    lesser(held_gap(site), given_gap(site))
}
