//! The turns of a running router, up to its end.
ghost use Rattle.std.specs.Prelude.{◌≡◌, ◌<◌, ◌≤◌, ◌^◌, length, OnErr, IfOk};
ghost use Rattle.mesh_atoms.specs.State.{State};
ghost use Rattle.mesh_core.specs.Deferred.{IsKeptOf};
ghost use Rattle.mesh_texts.specs.machine.Machine.{IsOpening};
ghost use Rattle.mesh_run.specs.Turns.Parts.{IsReady, Turning, Stopped, at};
ghost use Rattle.mesh_run.specs.Turns.Turns.{moment_of, DoesTurns, StopsTurns};

use crate::turns::buffers::Buffers;
use crate::turns::tally::{Ended, Tally};
use crate::turns::turn::turn;
use mesh_atoms::{LONGEST_DATAGRAM, RunSetup};
use mesh_core::{DeferringRouter, Outbox};
use mesh_io::{Air, Clock};
use std::alloc::{AllocError, Global};

// Where turns stopped: how many there were, and the greatest moment told.
#[derive(Drop)]
struct StopPoint {
    turns: u32,
    greatest: u64,
}

// At most so many turns, up to the first at or behind the end.
fn turn_on<M: DeferringRouter, A: Air, C: Clock>(
    router: &mut M,
    setup: &RunSetup,
    most: u32,
    buffers: &mut Buffers,
    air: &mut A,
    clock: &mut C,
    tally: &mut Tally,
) -> Result<StopPoint, AllocError>
    requires attached { A.attached air.old ≡ length setup.now.ports }
    requires longest { length buffers.old.frame.items ≡ LONGEST_DATAGRAM }
    requires ready { IsReady (M.state router.old) (A.attached air.old) 0 }
    ensures turns { IfOk result (λ stop. Turning setup.now.end (length setup.now.ports) (at (M.state router.old) 0 (length setup.now.ports))
        (at (M.state router.new) (moment_of 0 stop.greatest) (length setup.now.ports)) stop.turns 0 stop.greatest
        (C.moments clock.old) (C.moments clock.new) (A.reports air.old) (A.reports air.new) tally.old tally.new) }
    ensures most { IfOk result (λ stop. stop.turns ≤ most) }
    ensures spent { IfOk result (λ stop. stop.greatest < setup.now.end → stop.turns ≡ most) }
    ensures stops { OnErr result (Stopped most setup.now.end (length setup.now.ports) (at (M.state router.old) 0 (length setup.now.ports))
        (C.moments clock.old) (C.moments clock.new) (A.reports air.old) (A.reports air.new)) }
    ensures attached { A.attached air.new ≡ A.attached air.old }
    ensures later { A.faults air.old ≤ A.faults air.new }
{
    let mut greatest = 0;
    for done in 0..most {
        greatest = turn(router, setup, greatest, buffers, air, clock, tally)?;
        if setup.end <= greatest {
            return Ok(StopPoint {
                turns: done + 1,
                greatest,
            });
        }
    }
    Ok(StopPoint {
        turns: most,
        greatest,
    })
}

/// Does at most so many turns of a router that was made with the setup, over an air with its interfaces: up to the first turn whose
/// moment is at or above the setup's end. In a turn the clock is asked, the router ticks where it is due, and each interface is heard
/// once, in order; what the router sends is handed over at once. The router may put routes off up to the end, and relays up to its next
/// tick; at the end it has those of its bases.
pub fn do_turns<M: DeferringRouter, A: Air, C: Clock>(
    alloc: Global,
    router: &mut M,
    setup: &RunSetup,
    most: u32,
    air: &mut A,
    clock: &mut C,
) -> Result<Ended, AllocError>
    requires opening { IsOpening setup.now.router (M.state router.old) }
    requires attached { A.attached air.old ≡ length setup.now.ports }
    // What is said of the turns is said of a state of which the router keeps all but relays and routes, and at the end these too.
    ensures done { IfOk result (λ ended. (whole : State) × DoesTurns setup.now whole ended
        (C.moments clock.old) (C.moments clock.new) (A.reports air.old) (A.reports air.new) × IsKeptOf setup.now.end whole (M.state router.new)) }
    // It ended, or all turns were done.
    ensures most { IfOk result (λ ended. ended.turns ≤ most) }
    ensures spent { IfOk result (λ ended. ended.greatest < setup.now.end → ended.turns ≡ most) }
    ensures stops { OnErr result (StopsTurns setup.now most
        (C.moments clock.old) (C.moments clock.new) (A.reports air.old) (A.reports air.new)) }
    ensures attached { A.attached air.new ≡ A.attached air.old }
    ensures later { A.faults air.old ≤ A.faults air.new }
{
    let frame = vec![in alloc; 0; LONGEST_DATAGRAM]?;
    let mut buffers = Buffers {
        frame,
        outbox: Outbox::new(alloc),
    };
    let mut tally = Tally {
        heard: 0,
        sent: 0,
        faults: 0,
    };
    let stop = turn_on(router, setup, most, &mut buffers, air, clock, &mut tally)?;
    Ok(Ended {
        turns: stop.turns,
        greatest: stop.greatest,
        tally,
    })
}
