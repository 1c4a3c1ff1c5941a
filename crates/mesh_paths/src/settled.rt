//! The law of settled routes, over the definitions of a router and of the radio graph (RFC 7181, section 19).
ghost use Rattle.mesh_paths.specs.SettledRoutes.{RowsAreLeast, NextHopsLead, TripsEnd, EveryScenarioIsSound};

/// The law of settled routes. In a network of sound routers that hold exactly what their neighbours' HELLOs and the TCs say at
/// present, each router's rows are those of the radio graph's least metrics, over inner routers that are willing to route, to the
/// addresses of other routers and to networks that the router doesn't attach (`rows`). Each row's interface and next hop name joined
/// interfaces whose arc costs exactly the metric to the next router. That router has the destination at the row's metric, or has a row
/// for the rest of it; or it attaches the network, and the row's metric is no more than the arc's and its own together (`next_hops`).
/// Trips end, at no less than the row's metric, and at exactly that where a router has the address (`trips`). It does nothing.
pub fn settled_routes()
    ensures rows { RowsAreLeast }
    ensures next_hops { NextHopsLead }
    ensures trips { TripsEnd }
{}

/// Each scenario's addresses are distinct, and no network of it is a router's address: its type keeps so. So the law of
/// settled routes asks for no more than sound states of the scenario's routers at one moment, that of their last events, that are
/// settled. It does nothing.
pub fn scenarios_are_sound()
    ensures { EveryScenarioIsSound }
{}
