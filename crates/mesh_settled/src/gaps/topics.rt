//! Gaps among the topology tuples of a router, of any kind (RFC 7181, section 10).
ghost use Rattle.std.specs.Prelude.{◌≡◌, Some, length, option_map, nat_eq, ◌&&◌};
ghost use Rattle.mesh_atoms.specs.declared.addr.Addr4.{Addr4};
ghost use Rattle.mesh_atoms.specs.Words.{IsValue};
ghost use Rattle.mesh_atoms.specs.Sound.{Sound};
ghost use Rattle.mesh_atoms.specs.State.{IsOriginator};
ghost use Rattle.mesh_machine.specs.expire.Table.{entry_of, value_of};
ghost use Rattle.mesh_settled.specs.Gaps.Found.{IsSide, IsLeastGap};
ghost use Rattle.mesh_settled.specs.Gaps.Joints.{IsOfSome};
ghost use Rattle.mesh_settled.specs.Gaps.Peers.{IsOrigin, IsValueOf};
ghost use Rattle.mesh_settled.specs.Gaps.Site.{states, seen, IsSite};
ghost use Rattle.mesh_settled.specs.Gaps.Topics.{claim, claim_fields, key_at, ends_at, is_row_of, claim_if, held_claim, held_count, IsPresentClaim, IsClaimBy, IsHeldAt, IsTupleHeld, IsToRows, IsByRows, IsByAllRows, IsTopicKey};

use crate::gaps::compare::{
    ComparedTuple, Difference, compared, difference_of, first_of, known_cost, numbers,
};
use crate::gaps::found::{Found, found_at, lesser};
use crate::gaps::joints::router_at;
use crate::gaps::peers::{Origin, next_origin, origin_of};
use crate::gaps::site::RouterAt;
use mesh_atoms::{
    Addr4, AddressKey, AddressTuple, GapKey, Metric, NetAddr, NetworkKey, NetworkTuple, RouterKey,
    RouterTuple, TcRow,
};
use mesh_machine::RouterView;
use mesh_topo::{KeyedTuple, TopologyTuple};

/// A kind of topology tuples.
#[derive(Clone, Copy)]
pub enum TopologyKind {
    Routers,
    Addresses,
    Networks,
}

/// A topology tuple that is sought on both sides: its kind, its originator and its destination.
#[derive(Clone, Copy)]
pub struct SoughtTuple {
    pub topic: TopologyKind,
    pub origin: Origin,
    pub net: NetAddr,
}

/// What a topology tuple says; of a network also its distance.
#[derive(Clone, Copy)]
pub struct Claim {
    pub ansn: u16,
    pub metric: Metric,
    pub distance: Option<u8>,
}

// The key of a tuple of that kind.
fn key_at(topic: TopologyKind, from: Addr4, net: NetAddr) -> GapKey
    ensures { result ≡ key_at topic from net }
{
    match topic {
        TopologyKind::Routers => GapKey::Router { from, to: net.addr },
        TopologyKind::Addresses => GapKey::Address {
            from,
            addr: net.addr,
        },
        TopologyKind::Networks => GapKey::Network { from, net },
    }
}

fn is_net(dest: NetAddr, addr: Addr4, prefix: u8) -> bool
    ensures { result ≡ (nat_eq dest.addr.0 addr.0 && nat_eq dest.prefix prefix) }
{
    dest.addr.0 == addr.0 && dest.prefix == prefix
}

// Whether the row gives a tuple of that kind and destination.
fn is_row_of(topic: TopologyKind, net: NetAddr, row: &TcRow) -> bool
    ensures { result ≡ is_row_of topic net row.now }
{
    match topic {
        TopologyKind::Routers => row.origin && is_net(row.dest, net.addr, 32),
        TopologyKind::Addresses => row.routable && is_net(row.dest, net.addr, 32),
        TopologyKind::Networks => !row.routable && is_net(row.dest, net.addr, net.prefix),
    }
}

// What the row says of that destination.
fn claim_if(topic: TopologyKind, net: NetAddr, ansn: u16, row: &TcRow) -> Option<Claim>
    ensures { result ≡ claim_if topic net ansn row.now }
{
    if !is_row_of(topic, net, row) {
        return None;
    }
    Some(Claim {
        ansn,
        metric: row.metric?,
        distance: row.gateway,
    })
}

// What the first of the rows says that is of that destination.
fn claim_in(rows: &[TcRow], topic: TopologyKind, net: NetAddr, ansn: u16) -> Option<Claim>
    ensures { IsValue (IsOfSome (λ row t. claim_if topic net ansn row ≡ Some t) rows.now) result }
{
    for k in 0..rows.len() {
        let claim = claim_if(topic, net, ansn, &rows[k]);
        if claim.is_some() {
            return claim;
        }
    }
    None
}

// What the TC of a router says of that destination.
fn claim_of<R: RouterView>(other: &R, topic: TopologyKind, net: NetAddr) -> Option<Claim>
    requires { Sound (R.state other.now) }
    ensures { (from : Addr4) → IsOriginator (R.state other.now).settings from →
        IsValueOf (IsClaimBy (R.state other.now) topic from net) result }
{
    claim_in(other.rows(), topic, net, other.ansn())
}

// What the TC of a router says of it that is joined with router x, and has that originator.
fn given_claim<R: RouterView>(site: &RouterAt<'_, R>, at: SoughtTuple) -> Option<Claim>
    requires site { IsSite R.state site.now }
    requires origin { IsOrigin site.now.scenario.now (states R.state site.now) site.now.x at.origin }
    ensures { IsSide (IsPresentClaim (seen R.state site.entry.now) at.topic at.origin.addr at.net) (option_map claim_fields result) }
{
    match at.origin.sender {
        Some(w) => match router_at(site.routers, w) {
            Some(other) => claim_of(other, at.topic, at.net),
            None => None,
        },
        None => None,
    }
}

// What the tuple says that a look-up finds.
fn found_claim<K: Ord, T: TopologyTuple<K>>(found: Option<(&T, u64)>) -> Option<Claim>
    ensures { result ≡ option_map (λ e. claim (T.kind.number e.0) (T.kind.says e.0)) (value_of found.entry) }
{
    let (tuple, _) = found?;
    let (ansn, (distance, metric)) = tuple.number_and_rest();
    Some(Claim {
        ansn,
        metric,
        distance,
    })
}

// What the router's own tuple says.
fn held_claim<R: RouterView>(
    router: &R,
    topic: TopologyKind,
    from: Addr4,
    net: NetAddr,
) -> Option<Claim>
    ensures { result ≡ held_claim (R.state router.now) topic from net }
{
    match topic {
        TopologyKind::Routers => found_claim::<RouterKey, RouterTuple>(router.router_of(
            &RouterTuple::key_to(from, net),
        )),
        TopologyKind::Addresses => found_claim::<AddressKey, AddressTuple>(router.address_of(
            &AddressTuple::key_to(from, net),
        )),
        TopologyKind::Networks => found_claim::<NetworkKey, NetworkTuple>(router.network_of(
            &NetworkTuple::key_to(from, net),
        )),
    }
}

fn number(distance: Option<u8>) -> Option<u64>
    ensures { result ≡ distance }
{
    Some(u64::from(distance?))
}

impl ComparedTuple for Claim {
    ghost fields = { claim_fields };

    fn difference_between(held: Claim, given: Claim) -> Option<Difference> {
        let ansn = numbers(Some(u64::from(held.ansn)), Some(u64::from(given.ansn)));
        let metric = numbers(
            known_cost(Some(held.metric)),
            known_cost(Some(given.metric)),
        );
        let distance = numbers(number(held.distance), number(given.distance));
        let last = first_of(2, distance, None);
        let second = first_of(1, metric, last);
        first_of(0, ansn, second)
    }
}

// The gap at the tuple of that kind, originator and destination.
fn gap_at<R: RouterView>(site: &RouterAt<'_, R>, at: SoughtTuple) -> Option<Found>
    requires site { IsSite R.state site.now }
    requires origin { IsOrigin site.now.scenario.now (states R.state site.now) site.now.x at.origin }
    ensures { IsLeastGap (seen R.state site.entry.now) (λ k. k ≡ key_at at.topic at.origin.addr at.net) result }
{
    if at.origin.stray {
        return None;
    }
    let held = held_claim(site.router, at.topic, at.origin.addr, at.net);
    let given = given_claim(site, at);
    let difference = difference_of(held, given);
    let values = compared(held.is_some(), given.is_some(), difference);
    found_at(key_at(at.topic, at.origin.addr, at.net), values)
}

// How many tuples of that kind the router holds.
fn held_count<R: RouterView>(router: &R, topic: TopologyKind) -> usize
    ensures { result ≡ held_count (R.state router.now) topic }
{
    match topic {
        TopologyKind::Routers => router.routers(),
        TopologyKind::Addresses => router.addresses(),
        TopologyKind::Networks => router.networks(),
    }
}

// The originator and the destination of the tuple at a place.
fn found_ends<K: Ord, T: TopologyTuple<K>>(found: Option<(&K, &T, u64)>) -> Option<(Addr4, NetAddr)>
    ensures { result ≡ option_map (λ e. (T.kind.origin e.0, T.kind.dest e.0)) (entry_of found.entry) }
{
    let (key, _, _) = found?;
    Some(T::ends_of(key))
}

// The originator and the destination of the tuple at that place that the router holds.
fn held_ends<R: RouterView>(
    router: &R,
    topic: TopologyKind,
    place: usize,
) -> Option<(Addr4, NetAddr)>
    ensures { result ≡ ends_at (R.state router.now) topic place }
{
    match topic {
        TopologyKind::Routers => found_ends::<RouterKey, RouterTuple>(router.router(place)),
        TopologyKind::Addresses => found_ends::<AddressKey, AddressTuple>(router.address(place)),
        TopologyKind::Networks => found_ends::<NetworkKey, NetworkTuple>(router.network(place)),
    }
}

// The gap at the tuple at that place, and its originator, which may be that of the tuple before.
fn held_at<R: RouterView>(
    site: &RouterAt<'_, R>,
    last: &mut Origin,
    topic: TopologyKind,
    place: usize,
) -> Option<Found>
    requires site { IsSite R.state site.now }
    requires last { IsOrigin site.now.scenario.now (states R.state site.now) site.now.x last.old }
    ensures gap { IsLeastGap (seen R.state site.entry.now) (IsHeldAt (R.state site.entry.now.router.now) topic place) result }
    ensures last { IsOrigin site.entry.now.scenario.now (states R.state site.entry.now) site.entry.now.x last.new }
{
    match held_ends(site.router, topic, place) {
        Some((from, net)) => {
            let origin = next_origin(site, *last, from);
            *last = origin;
            gap_at(site, SoughtTuple { topic, origin, net })
        }
        None => None,
    }
}

// The least gap at the tuples that the router holds.
fn held_gap<R: RouterView>(site: &RouterAt<'_, R>, topic: TopologyKind) -> Option<Found>
    requires { IsSite R.state site.now }
    ensures { IsLeastGap (seen R.state site.entry.now) (IsTupleHeld (R.state site.entry.now.router.now) topic) result }
{
    let mut best = None;
    let mut last = origin_of(site, site.router.settings().originator());
    for place in 0..held_count(site.router, topic) {
        best = lesser(best, held_at(site, &mut last, topic, place));
    }
    best
}

// The least gap at the tuples from that originator to the destinations of these rows.
fn rows_gap<R: RouterView>(
    site: &RouterAt<'_, R>,
    topic: TopologyKind,
    origin: &Origin,
    rows: &[TcRow],
) -> Option<Found>
    requires site { IsSite R.state site.now }
    requires origin { IsOrigin site.now.scenario.now (states R.state site.now) site.now.x origin.now }
    ensures { IsLeastGap (seen R.state site.entry.now) (IsToRows topic origin.now.addr rows.now) result }
{
    let mut best = None;
    for n in 0..rows.len() {
        let at = SoughtTuple {
            topic,
            origin: *origin,
            net: rows[n].dest,
        };
        best = lesser(best, gap_at(site, at));
    }
    best
}

// The least gap at the tuples that the rows of router w give.
fn gap_by<R: RouterView>(site: &RouterAt<'_, R>, topic: TopologyKind, w: usize) -> Option<Found>
    requires { IsSite R.state site.now }
    ensures { IsLeastGap (seen R.state site.entry.now) (IsByRows (states R.state site.entry.now) topic w) result }
{
    match router_at(site.routers, w) {
        Some(other) => {
            let origin = origin_of(site, other.settings().originator());
            rows_gap(site, topic, &origin, other.rows())
        }
        None => None,
    }
}

// The least gap at the tuples that the rows of all routers give.
fn given_gap<R: RouterView>(site: &RouterAt<'_, R>, topic: TopologyKind) -> Option<Found>
    requires { IsSite R.state site.now }
    ensures { IsLeastGap (seen R.state site.entry.now) (IsByAllRows (states R.state site.entry.now) topic
        (length site.entry.now.routers.now)) result }
{
    let mut best = None;
    for w in 0..site.routers.len() {
        best = lesser(best, gap_by(site, topic, w));
    }
    best
}

/// The least gap among the topology tuples of that kind of router x.
pub fn topology_gap<R: RouterView>(site: &RouterAt<'_, R>, topic: TopologyKind) -> Option<Found>
    requires { IsSite R.state site.now }
    ensures { IsLeastGap (seen R.state site.entry.now) (IsTopicKey topic) result }
{
    lesser(held_gap(site, topic), given_gap(site, topic))
}
