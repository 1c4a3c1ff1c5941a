//! What the text of every emulation tells.
ghost use Rattle.mesh_emulate.specs.Laws.{RunsMachines, TellsSettled, PrintsLeastRoutes, PrintsNextHops};
ghost use Rattle.mesh_emulate.specs.Laws.{TripsAreOnly, TripsReachRouters, TripsReachNetworks, TripsNeverStray};
ghost use Rattle.mesh_emulate.specs.Laws.{ProbesReachJoined, ProbesTellAll, EmulatedProbesSendOnce};

use mesh_data::settled_trips;
use mesh_probe::probes_reach;

/// In every emulation each router is a run of the machine with its settings. A line of the text is `settled yes` exactly where the
/// network is settled at the end; then exactly the least routes of the radio graph stand under the name of each router, and the
/// next hop of each leads there. No trip is but the one that is told. Where the text says `settled yes`, a packet to another router's
/// address, to which the radio graph has a way over routers that are willing to route, arrives there at the least metric. Where besides
/// all routers are willing to route, no router has the address, and a router joined with the first one attaches a network that has it,
/// the packet arrives at a router that attaches the longest such network, at the least metric where one joined router alone attaches it
/// and the packet starts elsewhere. Neither strays. There a probe that has a number reaches each router that is joined with its own, and
/// its text says so, where all routers are willing to flood and have room for messages and the hop limit is no less than the number of
/// routers. In no network does a router send twice on an interface in a probe.
pub fn emulations_tell()
    ensures machines { RunsMachines }
    ensures settled { TellsSettled }
    ensures routes { PrintsLeastRoutes }
    ensures next_hops { PrintsNextHops }
    ensures trips { TripsAreOnly }
    ensures trips_reach_routers { TripsReachRouters }
    ensures trips_reach_networks { TripsReachNetworks }
    ensures trips_never_stray { TripsNeverStray }
    ensures probes_reach { ProbesReachJoined }
    ensures probes_tell { ProbesTellAll }
    ensures probes_once { EmulatedProbesSendOnce }
{
    settled_trips();
    probes_reach();
}
