//! Gaps among the 2-hop tuples of a router (RFC 6130, section 7.2).
ghost use Rattle.std.specs.Prelude.{◌≡◌, None, Contains, option_map};
ghost use Rattle.mesh_machine.specs.expire.Table.{value_of};
ghost use Rattle.mesh_settled.specs.Gaps.Fields.{two_hop_fields};
ghost use Rattle.mesh_settled.specs.Gaps.Found.{IsLeastGap};
ghost use Rattle.mesh_settled.specs.Gaps.Links.{IsLinkKey};
ghost use Rattle.mesh_settled.specs.Gaps.Site.{states, seen, IsSite, IsEndAt};
ghost use Rattle.mesh_settled.specs.Gaps.TwoHops.{if_far, key_by, IsTwoHopAt, IsHeldBy, IsGivenIn, IsKeyNear, IsGivenBy, IsKeyBy, IsKeyOf, IsKeyOfSome, IsTwoHopKey};

use crate::gaps::compare::{
    ComparedTuple, Difference, compared, difference_of, first_of, known_cost, numbers,
};
use crate::gaps::found::{Found, found_at, lesser};
use crate::gaps::joints::{is_address_of, least_address, router_at};
use crate::gaps::site::{JoinedPeer, RouterAt};
use mesh_atoms::{Addr4, GapKey, LinkKey, Pair, TwoHop, TwoHopKey};
use mesh_machine::{RouterView, Said};

// The 2-hop tuple of an address of which that is said, if it is shown SYMMETRIC and is neither router's own.
fn if_far(said: Said, mine: bool, theirs: bool) -> Option<TwoHop>
    ensures { result ≡ if_far said mine theirs }
{
    if said.symmetric && (!mine && !theirs) {
        Some(TwoHop {
            metric_in: said.metric_in,
            metric_out: said.metric_out,
        })
    } else {
        None
    }
}

// The tuple that a look-up finds.
fn found_tuple(found: Option<(&TwoHop, u64)>) -> Option<TwoHop>
    ensures { result ≡ option_map (λ e. e.0) (value_of found.entry) }
{
    match found {
        Some((tuple, _)) => Some(*tuple),
        None => None,
    }
}

impl ComparedTuple for TwoHop {
    ghost fields = { two_hop_fields };

    fn difference_between(held: TwoHop, given: TwoHop) -> Option<Difference> {
        let metric_in = numbers(known_cost(held.metric_in), known_cost(given.metric_in));
        let metric_out = numbers(known_cost(held.metric_out), known_cost(given.metric_out));
        first_of(0, metric_in, first_of(1, metric_out, None))
    }
}

// The gap at the 2-hop tuple of that address by the link to that end.
fn gap_at<R: RouterView>(
    site: &RouterAt<'_, R>,
    end: &JoinedPeer<'_, R>,
    addr: Addr4,
) -> Option<Found>
    requires site { IsSite R.state site.now }
    requires end { IsEndAt R.state site.now end.now }
    ensures { IsLeastGap (seen R.state site.entry.now) (λ k. k ≡ key_by end.entry.now.i end.entry.now.link addr) result }
{
    let key = TwoHopKey {
        link: LinkKey { addr: end.link },
        addr,
    };
    let held = found_tuple(site.router.two_hop_of(end.i, &key));
    let mine = is_address_of(site.router.settings(), addr);
    let theirs = is_address_of(end.other.settings(), addr);
    let given = if_far(end.other.said(end.j, site.moment, addr), mine, theirs);
    let difference = difference_of(held, given);
    let values = compared(held.is_some(), given.is_some(), difference);
    found_at(GapKey::TwoHop { iface: end.i, key }, values)
}

// The gap at the 2-hop tuple that the router holds at that place, if it is by the link to that end.
fn held_at<R: RouterView>(
    site: &RouterAt<'_, R>,
    end: &JoinedPeer<'_, R>,
    place: usize,
) -> Option<Found>
    requires site { IsSite R.state site.now }
    requires end { IsEndAt R.state site.now end.now }
    ensures { IsLeastGap (seen R.state site.entry.now) (IsTwoHopAt
        (R.state site.entry.now.router.now) end.entry.now.i end.entry.now.link place) result }
{
    match site.router.two_hop(end.i, place) {
        Some((key, _, _)) => {
            if key.link.addr.0 == end.link.0 {
                gap_at(site, end, key.addr)
            } else {
                None
            }
        }
        None => None,
    }
}

// The least gap at the 2-hop tuples that the router holds by the link to that end.
fn held_by<R: RouterView>(site: &RouterAt<'_, R>, end: &JoinedPeer<'_, R>) -> Option<Found>
    requires site { IsSite R.state site.now }
    requires end { IsEndAt R.state site.now end.now }
    ensures { IsLeastGap (seen R.state site.entry.now) (IsHeldBy
        (R.state site.entry.now.router.now) end.entry.now.i end.entry.now.link) result }
{
    let mut best = None;
    for place in 0..site.router.two_hops(end.i) {
        best = lesser(best, held_at(site, end, place));
    }
    best
}

// The least gap at the 2-hop tuples of these addresses by the link to that end.
fn given_in<R: RouterView>(
    site: &RouterAt<'_, R>,
    end: &JoinedPeer<'_, R>,
    addrs: &[Addr4],
) -> Option<Found>
    requires site { IsSite R.state site.now }
    requires end { IsEndAt R.state site.now end.now }
    ensures { IsLeastGap (seen R.state site.entry.now) (IsGivenIn end.entry.now.i end.entry.now.link addrs.now) result }
{
    let mut best = None;
    for n in 0..addrs.len() {
        best = lesser(best, gap_at(site, end, addrs[n]));
    }
    best
}

// The least gap at the 2-hop tuples of the addresses of the neighbour at that place of the router at that end.
fn given_near<R: RouterView>(
    site: &RouterAt<'_, R>,
    end: &JoinedPeer<'_, R>,
    place: usize,
) -> Option<Found>
    requires site { IsSite R.state site.now }
    requires end { IsEndAt R.state site.now end.now }
    ensures { IsLeastGap (seen R.state site.entry.now) (IsKeyNear end.entry.now.i end.entry.now.link
        (R.state end.entry.now.other.now) place) result }
{
    match end.other.neighbour(place) {
        Some((_, neighbour, _)) => given_in(site, end, neighbour.addrs.as_slice()),
        None => None,
    }
}

// The least gap at the 2-hop tuples of the addresses of all neighbours of the router at that end.
fn given_by<R: RouterView>(site: &RouterAt<'_, R>, end: &JoinedPeer<'_, R>) -> Option<Found>
    requires site { IsSite R.state site.now }
    requires end { IsEndAt R.state site.now end.now }
    ensures { IsLeastGap (seen R.state site.entry.now) (IsGivenBy end.entry.now.i end.entry.now.link
        (R.state end.entry.now.other.now)) result }
{
    let mut best = None;
    for place in 0..end.other.neighbours() {
        best = lesser(best, given_near(site, end, place));
    }
    best
}

// The least gap at the 2-hop tuples by the link to that end.
fn gap_by<R: RouterView>(site: &RouterAt<'_, R>, end: &JoinedPeer<'_, R>) -> Option<Found>
    requires site { IsSite R.state site.now }
    requires end { IsEndAt R.state site.now end.now }
    ensures { IsLeastGap (seen R.state site.entry.now) (IsKeyBy end.entry.now.i end.entry.now.link) result }
{
    let held = held_by(site, end);
    let given = given_by(site, end);
    lesser(held, given)
}

// The least gap at the 2-hop tuples by the link to the end of that pair.
fn gap_of<R: RouterView>(site: &RouterAt<'_, R>, pair: &Pair) -> Option<Found>
    requires site { IsSite R.state site.now }
    requires pair { Contains site.now.graph.now.pairs pair.now }
    ensures { IsLeastGap (seen R.state site.entry.now) (IsKeyOf (states R.state site.entry.now) site.entry.now.x pair.now) result }
{
    if pair.from != site.x {
        return None;
    }
    match router_at(site.routers, pair.to) {
        Some(other) => match least_address(other.settings(), pair.to_iface) {
            Some(link) => {
                let end = JoinedPeer {
                    i: pair.from_iface,
                    y: pair.to,
                    other,
                    j: pair.to_iface,
                    link,
                };
                gap_by(site, &end)
            }
            None => None,
        },
        None => None,
    }
}

// The least gap at the 2-hop tuples by the links to the ends of these pairs.
fn gap_in<R: RouterView>(site: &RouterAt<'_, R>, pairs: &[Pair]) -> Option<Found>
    requires site { IsSite R.state site.now }
    requires pairs { site.now.graph.now.pairs ≡ pairs.now }
    ensures { IsLeastGap (seen R.state site.entry.now) (IsKeyOfSome
        (states R.state site.entry.now) site.entry.now.x pairs.now) result }
{
    let mut best = None;
    for place in 0..pairs.len() {
        best = lesser(best, gap_of(site, &pairs[place]));
    }
    best
}

/// The least gap among the 2-hop tuples of a router that has no gap among its links.
pub fn two_hop_gap<R: RouterView>(site: &RouterAt<'_, R>) -> Option<Found>
    requires site { IsSite R.state site.now }
    requires links { IsLeastGap (seen R.state site.now) IsLinkKey None }
    ensures { IsLeastGap (seen R.state site.entry.now) IsTwoHopKey result }
{
    gap_in(site, site.graph.pairs.as_slice())
}
