//! Laws of the definitions (RFC 7181, sections 18 and 19).
ghost use Rattle.mesh_routes.specs.Existing.{RoutersHaveRoutes};
ghost use Rattle.mesh_routes.specs.Staying.{BasesGiveSame, GraphsStay, RoutesStay};

/// Routes, and the graphs from which relays are chosen, stay where all that they are made of is the same, whatever the moment. The
/// same arcs of the own graph, symmetric neighbours and ways to them keep the routes (RFC 7181, section 19); the same neighbours,
/// ways and 2-hop tuples keep the graphs (section 18). Where the settings are as they were, the neighbourhood is so but for moments,
/// and others advertise the same, all of that is the same. It does nothing.
pub fn routes_and_graphs_stay()
    ensures routes { RoutesStay }
    ensures graphs { GraphsStay }
    ensures bases { BasesGiveSame }
{}

/// A router whose bases are sound at a moment has routes at that moment (RFC 7181, section 19.2): there is a list that has a route for
/// each node outside that a walk over the router's own graph reaches, and nothing else. It does nothing.
pub fn routers_have_routes()
    ensures { RoutersHaveRoutes }
{}
