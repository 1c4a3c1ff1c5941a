//! Whether a network is settled.
ghost use Rattle.std.specs.Prelude.{◌≡◌, ◌≢◌, ◌↔◌, map, IfSome, IsNone};
ghost use Rattle.mesh_atoms.specs.Settled.{Settled};
ghost use Rattle.mesh_settled.specs.Gaps.Found.{IsLeastGap};
ghost use Rattle.mesh_settled.specs.Gaps.Gaps.{gap_kind, IsFirstGap};
ghost use Rattle.mesh_settled.specs.Gaps.Network.{IsNetwork};
ghost use Rattle.mesh_settled.specs.LeastRoutes.{AreLeastRoutes, NextHopsLeadOn};
ghost use Rattle.mesh_settled.specs.Kinds.{IsTopologyKey, IsFirstFound, IsFirstAt, IsFirstOf, reported};
ghost use Rattle.mesh_settled.specs.Gaps.Site.{seen, IsSite};

use crate::gaps::{
    Found, RouterAt, TopologyKind, lesser, link_gap, neighbour_gap, router_at, topology_gap,
    two_hop_gap,
};
use mesh_atoms::{Gap, GapKey, GapKind, RadioGraph, Scenario};
use mesh_machine::RouterView;

// The least gap among the topology tuples of all kinds.
fn topology_gaps<R: RouterView>(site: &RouterAt<'_, R>) -> Option<Found>
    requires { IsSite R.state site.now }
    ensures { IsLeastGap (seen R.state site.entry.now) IsTopologyKey result }
{
    let routers = topology_gap(site, TopologyKind::Routers);
    let addresses = topology_gap(site, TopologyKind::Addresses);
    let networks = topology_gap(site, TopologyKind::Networks);
    let rest = lesser(addresses, networks);
    lesser(routers, rest)
}

// The first gap of a router. Its 2-hop tuples are by links, so they are looked at where no link has a gap.
fn first_gap<R: RouterView>(site: &RouterAt<'_, R>) -> Option<Found>
    requires { IsSite R.state site.now }
    ensures { IsFirstFound (seen R.state site.entry.now) result }
{
    let links = link_gap(site);
    if links.is_some() {
        return links;
    }
    let neighbours = neighbour_gap(site);
    let two_hops = two_hop_gap(site);
    let topology = topology_gaps(site);
    let rest = lesser(two_hops, topology);
    lesser(neighbours, rest)
}

// The kind of a key.
fn gap_kind(key: &GapKey) -> GapKind
    ensures { result ≡ gap_kind key.now }
{
    match *key {
        GapKey::Link { .. } => GapKind::Link,
        GapKey::Neighbour(_) => GapKind::Neighbour,
        GapKey::TwoHop { .. } => GapKind::TwoHop,
        _ => GapKind::Topology,
    }
}

// The gap as one of router x.
fn reported(x: usize, found: Option<Found>) -> Option<Gap>
    ensures { result ≡ reported x found }
{
    match found {
        Some(found) => Some(Gap {
            router: x,
            kind: gap_kind(&found.key),
            key: found.key,
            held: found.held,
            present: found.present,
        }),
        None => None,
    }
}

// The first gap of the router at that place.
fn gap_at<R: RouterView>(
    routers: &[R],
    scenario: &Scenario,
    graph: &RadioGraph,
    now: u64,
    x: usize,
) -> Option<Gap>
    requires { IsNetwork scenario.now graph.now (map R.state routers.now) now }
    ensures { IsFirstAt scenario.now (map R.state routers.now) now x result }
{
    match router_at(routers, x) {
        Some(router) => {
            let site = RouterAt {
                scenario,
                graph,
                routers,
                x,
                router,
                moment: now,
            };
            reported(x, first_gap(&site))
        }
        None => None,
    }
}

// The first gap of a network.
fn first_of<R: RouterView>(
    routers: &[R],
    scenario: &Scenario,
    graph: &RadioGraph,
    now: u64,
) -> Option<Gap>
    requires { IsNetwork scenario.now graph.now (map R.state routers.now) now }
    ensures { IsFirstOf scenario.now (map R.state routers.now) now result }
{
    for x in 0..routers.len() {
        let gap = gap_at(routers, scenario, graph, now, x);
        if gap.is_some() {
            return gap;
        }
    }
    None
}

/// The first gap of a network at a moment, in ticks of 1/8192 s: of the first router that has one, at the first key of the first
/// kind; none exactly where the network is settled. The routers are the scenario's, in order, each sound and at that moment.
/// Takes no memory.
pub fn settled<R: RouterView>(
    routers: &[R],
    scenario: &Scenario,
    graph: &RadioGraph,
    now: u64,
) -> Option<Gap>
    requires { IsNetwork scenario.now graph.now (map R.state routers.now) now }
    ensures none { IsNone result ↔ Settled scenario.now (map R.state routers.now) now }
    ensures first { IfSome result (λ gap. IsFirstGap scenario.now (map R.state routers.now) now gap) }
    ensures differ { IfSome result (λ gap. gap.held ≢ gap.present) }
    ensures rows { IsNone result → AreLeastRoutes scenario.now (map R.state routers.now) }
    ensures next_hops { IsNone result → NextHopsLeadOn scenario.now (map R.state routers.now) }
{
    first_of(routers, scenario, graph, now)
}
