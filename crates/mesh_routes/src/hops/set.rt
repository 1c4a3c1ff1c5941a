//! The routing set of a router (RFC 7181, section 10.5).
ghost use Rattle.std.specs.Prelude.{◌≡◌, ◌≢◌, [], Contains, IfOk, IfErr, IfSome, IfNone};
ghost use Rattle.std.specs.List.{AllPairs};
ghost use Rattle.mesh_atoms.specs.declared.graphs.Route.{Route};
ghost use Rattle.mesh_atoms.specs.Nodes.{IsBefore};
ghost use Rattle.mesh_atoms.specs.NextHop.{IsLongest, HasNoRouteTo};
ghost use Rattle.mesh_routes.specs.Hops.NextHop.{IsPlaceOf, IsLongestAt};

use mesh_atoms::{Addr4, NetAddr, Route, Seq};
use std::alloc::Global;
use std::marker::Model;

/// The routes of a router, in ascending order of destination. Contracts see them as the list.
#[derive(Drop)]
pub struct RoutingSet {
    rows: Seq<Route>,
}

impl Model for RoutingSet {
    ghost use Rattle.std.specs.Prelude.{List};
    ghost use Rattle.std.specs.List.{AllPairs};
    ghost use Rattle.mesh_atoms.specs.declared.graphs.Route.{Route as Row};
    ghost use Rattle.mesh_atoms.specs.Nodes.{IsBefore};

    ghost Value = { List Row };

    ghost view = { λ s. s.rows };

    ghost invariant = { λ s. AllPairs (λ r t. IsBefore r.dest t.dest) s.rows };
}

// Where the route to a node stands. Takes time near log n in the number n of routes.
fn place_of(rows: &[Route], node: NetAddr) -> Result<usize, usize>
    requires { AllPairs (λ r t. IsBefore r.dest t.dest) rows.now }
    ensures found { IfOk result (IsPlaceOf rows.now node) }
    ensures none { IfErr result (λ _. (r : Route) → Contains rows.now r → r.dest ≢ node) }
{
    rows.binary_search_by_key(&node, |row| row.dest)
}

// Where the route with the longest prefix that has the address stands.
fn longest_place(rows: &[Route], dest: Addr4) -> Option<usize>
    requires { AllPairs (λ r t. IsBefore r.dest t.dest) rows.now }
    ensures some { IfSome result (IsLongestAt rows.now dest) }
    ensures none { IfNone result (HasNoRouteTo rows.now dest) }
{
    for less in 0..33 {
        if let Ok(place) = place_of(rows, NetAddr::of(dest, 32 - less)) {
            return Some(place);
        }
    }
    None
}

impl RoutingSet {
    /// No routes. Takes no memory.
    pub fn new(alloc: Global) -> RoutingSet
        ensures { result ≡ [] }
    {
        RoutingSet {
            rows: Seq::new(alloc),
        }
    }

    /// These routes, which must ascend by destination.
    pub fn of(rows: Seq<Route>) -> RoutingSet
        requires { AllPairs (λ r t. IsBefore r.dest t.dest) rows }
        ensures { result ≡ rows }
    {
        RoutingSet { rows }
    }

    /// The routes, in ascending order of destination.
    pub fn rows(&self) -> &[Route]
        ensures rows { result.now ≡ self.now }
        ensures ascending { AllPairs (λ r t. IsBefore r.dest t.dest) result.now }
    {
        self.rows.as_slice()
    }

    /// The route with the longest prefix that has the address; `None` exactly where no route has it. Takes no memory, and a
    /// search for each prefix.
    pub fn next_hop(&self, dest: Addr4) -> Option<&Route>
        ensures some { IfSome result (λ r. IsLongest self.now dest r.now) }
        ensures none { IfNone result (HasNoRouteTo self.now dest) }
    {
        let place = longest_place(self.rows.as_slice(), dest)?;
        self.rows.get(place)
    }
}
