//! What a neighbour costs in the choice of relays (RFC 7181, sections 18.4 and 18.5).
ghost use Rattle.std.specs.Prelude.{◌≡◌, ℕ, IfSome, IfNone, Option};
ghost use Rattle.mesh_atoms.specs.declared.addr.Addr4.{Addr4};
ghost use Rattle.mesh_atoms.specs.declared.codes.metric.Metric.{Metric};
ghost use Rattle.mesh_atoms.specs.declared.tuples.Neighbour.{Neighbour};
ghost use Rattle.mesh_atoms.specs.declared.tuples.TwoHop.{TwoHop};

use crate::hops::ways::{NeighbourLink, best_way};
use mesh_atoms::{Addr4, Metric, Neighbour, TwoHop};
use std::collections::BTreeSet;

/// What relays are chosen for: what a neighbour costs, how willing it is, and which metric of a 2-hop tuple counts.
pub trait Purpose: Sized {
    ghost cost: { Self → Addr4 → Neighbour → ℕ → Type 0 };

    ghost will: { Neighbour → ℕ };

    ghost hop: { TwoHop → Option Metric };

    /// What the neighbour with that originator costs, if that is known.
    fn cost_of(&self, originator: Addr4, neighbour: &Neighbour) -> Option<u32>
        ensures some { IfSome result (cost self.now originator neighbour.now) }
        ensures only { IfSome result (λ c. (d : ℕ) → cost self.now originator neighbour.now d → c ≡ d) }
        ensures none { IfNone result ((d : ℕ) → cost self.now originator neighbour.now d → ⊥) };

    /// How willing the neighbour is to relay.
    fn will_of(neighbour: &Neighbour) -> u8
        ensures { result ≡ will neighbour.now };

    /// The metric of a 2-hop tuple that counts, if it is known.
    fn metric_of(two_hop: &TwoHop) -> Option<Metric>
        ensures { result ≡ hop two_hop.now };
}

/// For routing, a neighbour costs its metric to the router (RFC 7181, section 18.5).
#[derive(Drop)]
pub struct Routing {}

impl Purpose for Routing {
    ghost use Rattle.std.specs.Prelude.{◌≡◌};
    ghost use Rattle.mesh_routes.specs.Hops.Costs.{CostsIn};

    ghost cost = { λ _ originator neighbour c. CostsIn neighbour c };

    ghost will = { λ neighbour. neighbour.willing.routing };

    ghost hop = { λ tuple. tuple.metric_in };

    fn cost_of(&self, _originator: Addr4, neighbour: &Neighbour) -> Option<u32> {
        let metric = neighbour.metric_in?;
        Some(metric.value())
    }

    fn will_of(neighbour: &Neighbour) -> u8 {
        neighbour.willing.routing
    }

    fn metric_of(two_hop: &TwoHop) -> Option<Metric> {
        two_hop.metric_in
    }
}

/// For flooding on an interface, a neighbour costs the least metric to it over the interface (RFC 7181, section 18.4).
#[derive(Drop)]
pub struct Flooding {
    pub ways: BTreeSet<NeighbourLink>,
}

impl Purpose for Flooding {
    ghost use Rattle.mesh_routes.specs.Hops.Costs.{CostsOver};

    ghost cost = { λ s originator neighbour c. CostsOver s.ways.keys originator c };

    ghost will = { λ neighbour. neighbour.willing.flooding };

    ghost hop = { λ tuple. tuple.metric_out };

    fn cost_of(&self, originator: Addr4, _neighbour: &Neighbour) -> Option<u32> {
        let way = best_way(&self.ways, originator)?;
        Some(way.metric)
    }

    fn will_of(neighbour: &Neighbour) -> u8 {
        neighbour.willing.flooding
    }

    fn metric_of(two_hop: &TwoHop) -> Option<Metric> {
        two_hop.metric_out
    }
}
