//! The trip of a data packet.
ghost use Rattle.std.specs.Prelude.{◌≡◌, ◌+◌, ◌<◌, ◌^◌, length, map, IfOk};
ghost use Rattle.mesh_atoms.specs.Settled.{AreStates};
ghost use Rattle.mesh_data.specs.Laws.{IsOnly, ReachesRouter, ReachesNetwork, NeverStrays};
ghost use Rattle.mesh_data.specs.Trips.{IsTrip};

use crate::decisions::{Move, end_of, move_of};
use crate::{Trip, settled_trips};
use mesh_atoms::{Addr4, Scenario, Seq};
use mesh_machine::RouterView;
use std::alloc::{AllocError, Global};

// What a trip costs with one hop more at that metric.
fn with_hop(metric: u64, hop: u32) -> u64
    requires { metric < 2 ^ 63 }
    ensures { result ≡ metric + hop }
{
    metric + u64::from(hop)
}

// The trip of a packet from router `from` to an address. It keeps one cursor.
fn trip_of<R: RouterView>(
    alloc: Global,
    routers: &[R],
    scenario: &Scenario,
    from: usize,
    dest: Addr4,
) -> Result<Trip, AllocError>
    requires states { AreStates scenario.now (map R.state routers.now) }
    requires from { from < length scenario.now.routers }
    ensures { IfOk result (λ trip. IsTrip scenario.now (map R.state routers.now) from dest trip) }
{
    let mut hops = Seq::new(alloc);
    let mut last = from;
    let mut metric = 0;
    for _ in 0..scenario.routers.len() {
        match move_of(routers, scenario, last, dest) {
            Move::Stops(end, added) => {
                return Ok(Trip {
                    hops,
                    last,
                    end,
                    metric: metric + u64::from(added),
                });
            }
            Move::Hops(hop) => {
                hops.push(hop)?;
                last = hop.to;
                metric = with_hop(metric, hop.metric);
            }
        }
    }
    let (end, added) = end_of(routers, scenario, last, dest);
    Ok(Trip {
        hops,
        last,
        end,
        metric: metric + u64::from(added),
    })
}

/// The trip of a packet from router `from` to an address, over the routes that the routers have now. Losses play no part. Where
/// the routers are sound, it is the only one. In a settled network a packet to another router's address, to which the radio graph has
/// a way over routers that are willing to route, arrives there at the least cost. Where all routers are willing to route, no router has
/// the address, and a router joined with `from` attaches a network that has it, the packet arrives at a router that attaches the longest
/// such network. No such packet ends for want of an arc, or goes too far. Only an allocation failure is an error. Not promised: it takes time
/// near the number of arcs for each hop.
pub fn send<R: RouterView>(
    alloc: Global,
    routers: &[R],
    scenario: &Scenario,
    from: usize,
    dest: Addr4,
) -> Result<Trip, AllocError>
    requires states { AreStates scenario.now (map R.state routers.now) }
    requires from { from < length scenario.now.routers }
    ensures trip { IfOk result (λ trip. IsTrip scenario.now (map R.state routers.now) from dest trip) }
    ensures only { IfOk result (λ trip. IsOnly scenario.now (map R.state routers.now) from dest trip) }
    ensures reaches_router { IfOk result (λ trip. ReachesRouter scenario.now (map R.state routers.now) from dest trip) }
    ensures reaches_network { IfOk result (λ trip. ReachesNetwork scenario.now (map R.state routers.now) from dest trip) }
    ensures never_strays { IfOk result (λ trip. NeverStrays scenario.now (map R.state routers.now) from dest trip) }
{
    settled_trips();
    trip_of(alloc, routers, scenario, from, dest)
}
