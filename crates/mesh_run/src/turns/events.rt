//! Events of a running router, with what it sends handed over.
ghost use Rattle.std.specs.Prelude.{◌≡◌, ◌<◌, ◌≤◌, ◌^◌, [], Some, OnOk, OnErr};
ghost use Rattle.mesh_io.specs.Told.{TellsMore};
ghost use Rattle.mesh_texts.specs.machine.Machine.{Event};
ghost use Rattle.mesh_run.specs.Turns.Parts.{IsReady, Acts};
ghost use Rattle.mesh_run.specs.Turns.Turns.{tick_of};

use crate::turns::hand::{hand_over, has_room};
use crate::turns::moment::TurnMoment;
use crate::turns::tally::Tally;
use mesh_core::{Arrival, DeferringRouter, Outbox, TypedFrame};
use mesh_io::Air;
use std::alloc::AllocError;

// The clock of the router ticks. Routes may be put off up to the end.
fn tick<M: DeferringRouter, A: Air>(
    router: &mut M,
    end: u64,
    now: u64,
    out: &mut Outbox,
    air: &mut A,
    tally: &mut Tally,
) -> Result<(), AllocError>
    requires now { now < 2 ^ 62 }
    requires ready { IsReady (M.state router.old) (A.attached air.old) now }
    ensures acts { OnOk result (Acts end (M.state router.old) (Some (Event.Tick now)) (M.state router.new)
        (A.reports air.old) (A.reports air.new) tally.old tally.new) }
    ensures silent { OnErr result (TellsMore (A.reports air.old) (A.reports air.new) []) }
    ensures ready { OnOk result (IsReady (M.state router.new) (A.attached air.new) now) }
    ensures attached { A.attached air.new ≡ A.attached air.old }
    ensures later { A.faults air.old ≤ A.faults air.new }
{
    router.tick_until(end, now, out)?;
    has_room(tally, out.len())?;
    hand_over(air, out, tally);
    Ok(())
}

/// The clock of the router ticks: at the end, where the end has come; else at the moment, where the router is due. What the router
/// sends is handed over.
pub fn tick_due<M: DeferringRouter, A: Air>(
    router: &mut M,
    moment: TurnMoment,
    out: &mut Outbox,
    air: &mut A,
    tally: &mut Tally,
) -> Result<(), AllocError>
    requires now { moment.now < 2 ^ 62 }
    requires going { (M.state router.old).last ≤ moment.end }
    requires ready { IsReady (M.state router.old) (A.attached air.old) moment.now }
    ensures acts { OnOk result (Acts moment.end (M.state router.old) (tick_of moment.end moment.now (M.state router.old)) (M.state router.new)
        (A.reports air.old) (A.reports air.new) tally.old tally.new) }
    ensures silent { OnErr result (TellsMore (A.reports air.old) (A.reports air.new) []) }
    ensures ready { OnOk result (IsReady (M.state router.new) (A.attached air.new) moment.now) }
    ensures attached { A.attached air.new ≡ A.attached air.old }
    ensures later { A.faults air.old ≤ A.faults air.new }
{
    if moment.end <= moment.now {
        return tick(router, moment.end, moment.end, out, air, tally);
    }
    if router.due_next() <= moment.now {
        return tick(router, moment.end, moment.now, out, air, tally);
    }
    Ok(())
}

/// The router hears a frame, and what it sends is handed over. Relays and routes may be put off up to the end.
pub fn hear<M: DeferringRouter, A: Air>(
    router: &mut M,
    end: u64,
    arrival: Arrival,
    frame: &TypedFrame,
    out: &mut Outbox,
    air: &mut A,
    tally: &mut Tally,
) -> Result<(), AllocError>
    requires now { arrival.now < 2 ^ 62 }
    requires iface { arrival.iface < A.attached air.old }
    requires ready { IsReady (M.state router.old) (A.attached air.old) arrival.now }
    ensures acts { OnOk result (Acts end (M.state router.old) (Some (Event.Hear arrival frame.now)) (M.state router.new)
        (A.reports air.old) (A.reports air.new) tally.old tally.new) }
    ensures silent { OnErr result (TellsMore (A.reports air.old) (A.reports air.new) []) }
    ensures ready { OnOk result (IsReady (M.state router.new) (A.attached air.new) arrival.now) }
    ensures attached { A.attached air.new ≡ A.attached air.old }
    ensures later { A.faults air.old ≤ A.faults air.new }
{
    router.hear_until(end, arrival, frame, out)?;
    has_room(tally, out.len())?;
    hand_over(air, out, tally);
    Ok(())
}
