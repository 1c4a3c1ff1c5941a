//! The laws of trips, over the definitions.
ghost use Rattle.mesh_data.specs.Laws.{OfEachTrip, IsOnly, ReachesRouter, ReachesNetwork, NeverStrays};

use mesh_paths::settled_routes;

/// The laws of trips. Over sound routers one trip alone leads from a router to an address. In a settled network a packet to
/// another router's address, to which the radio graph has a way over routers that are willing to route, arrives there at the least
/// cost. Where all routers are willing to route, no router has the address, and a router joined with the first one attaches a network
/// that has it, a packet arrives at a router that attaches the longest such network. No such packet ends for want of an arc, or goes too
/// far. It does nothing.
pub fn settled_trips()
    ensures only { OfEachTrip IsOnly }
    ensures routers { OfEachTrip ReachesRouter }
    ensures networks { OfEachTrip ReachesNetwork }
    ensures never_strays { OfEachTrip NeverStrays }
{
    settled_routes();
}
