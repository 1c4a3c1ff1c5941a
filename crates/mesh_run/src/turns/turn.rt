//! One turn of a running router.
ghost use Rattle.std.specs.Prelude.{◌≡◌, ◌<◌, ◌≤◌, ◌^◌, length, OnErr, IfOk};
ghost use Rattle.mesh_atoms.specs.declared.limits.TheConstants.{LONGEST_DATAGRAM};
ghost use Rattle.mesh_run.specs.Turns.Parts.{IsReady, Turning, Stopped, at};
ghost use Rattle.mesh_run.specs.Turns.Turns.{moment_of};

use crate::turns::buffers::Buffers;
use crate::turns::events::tick_due;
use crate::turns::listen::listen_all;
use crate::turns::moment::TurnMoment;
use crate::turns::tally::Tally;
use mesh_atoms::RunSetup;
use mesh_core::DeferringRouter;
use mesh_io::{Air, Clock};
use std::alloc::AllocError;

// The greatest moment of a turn, 2^62 - 1.
const LAST_MOMENT: u64 = 4_611_686_018_427_387_903;

/// One turn: the clock tells a moment, the router ticks where it is due, and each interface is heard once; at the end none is.
/// The answer is the greatest moment told, in ticks. `greatest` is that of the turns before, which is before the end. Routes are put off
/// up to the end.
pub fn turn<M: DeferringRouter, A: Air, C: Clock>(
    router: &mut M,
    setup: &RunSetup,
    greatest: u64,
    buffers: &mut Buffers,
    air: &mut A,
    clock: &mut C,
    tally: &mut Tally,
) -> Result<u64, AllocError>
    requires going { greatest < setup.now.end }
    requires attached { A.attached air.old ≡ length setup.now.ports }
    requires longest { length buffers.old.frame.items ≡ LONGEST_DATAGRAM }
    requires ready { IsReady (M.state router.old) (A.attached air.old) greatest }
    ensures turns { IfOk result (λ new. Turning setup.now.end (length setup.now.ports) (at (M.state router.old) greatest (length setup.now.ports))
        (at (M.state router.new) (moment_of 0 new) (length setup.now.ports)) 1 greatest new
        (C.moments clock.old) (C.moments clock.new) (A.reports air.old) (A.reports air.new) tally.old tally.new) }
    ensures stops { OnErr result (Stopped 1 setup.now.end (length setup.now.ports) (at (M.state router.old) greatest (length setup.now.ports))
        (C.moments clock.old) (C.moments clock.new) (A.reports air.old) (A.reports air.new)) }
    ensures ready { IfOk result (λ new. IsReady (M.state router.new) (A.attached air.new) (moment_of 0 new)) }
    ensures attached { A.attached air.new ≡ A.attached air.old }
    ensures later { A.faults air.old ≤ A.faults air.new }
    ensures longest { length buffers.new.frame.items ≡ LONGEST_DATAGRAM }
{
    let told = clock.now();
    let greatest = u64::max(greatest, told);
    let now = u64::min(greatest, LAST_MOMENT);
    let moment = TurnMoment {
        now,
        end: setup.end,
    };
    tick_due(router, moment, &mut buffers.outbox, air, tally)?;
    if setup.end <= now {
        return Ok(greatest);
    }
    let count = setup.ports.len();
    listen_all(router, moment, count, buffers, air, tally)?;
    Ok(greatest)
}
