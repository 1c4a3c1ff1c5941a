//! The router of a run.
ghost use Rattle.std.specs.Prelude.{◌≡◌, ◌≤◌, ℕ, List, length, IfOk};
ghost use Rattle.mesh_texts.specs.machine.Machine.{IsOpening};
ghost use Rattle.mesh_run.specs.Attaching.{AttachesAtOnce};
ghost use Rattle.mesh_run.specs.Ends.{RouterEnds, EndsRun};
ghost use Rattle.mesh_run.specs.Run.{StatesSetup, told};

use crate::fault::RunFault;
use crate::report::tell_report;
use crate::router_of_run::RouterOfRun;
use crate::turns::{attach_all, do_turns};
use mesh_atoms::RunSetup;
use mesh_io::{Air, Clock, Sink, Stop};
use std::alloc::{AllocError, Global};

// Does the turns of a router that was made with the setup, and writes its report. Routes are put off up to the end, and relays up to the
// next tick: at the end the router has those of its bases.
fn run_router<M: RouterOfRun, O: Sink, A: Air, C: Clock>(
    alloc: Global,
    mut router: M,
    setup: &RunSetup,
    turns: u32,
    out: &mut O,
    air: &mut A,
    clock: &mut C,
) -> Result<(), RunFault>
    requires opening { IsOpening setup.now.router (M.state router) }
    requires attached { A.attached air.old ≡ length setup.now.ports }
    ensures ends { RouterEnds setup.now turns (C.moments clock.old) (C.moments clock.new) (A.reports air.old) (A.reports air.new)
        (O.content out.old) (O.content out.new) (O.faults out.old) (O.faults out.new) result }
    ensures attached { A.attached air.new ≡ A.attached air.old }
    ensures later_out { O.faults out.old ≤ O.faults out.new }
    ensures later_air { A.faults air.old ≤ A.faults air.new }
{
    let ended = match do_turns(alloc, &mut router, setup, turns, air, clock) {
        Ok(ended) => ended,
        Err(_) => return Err(RunFault::Stopped(Stop::Memory)),
    };
    if ended.greatest < setup.end {
        return Err(RunFault::Turns {
            turns: ended.turns,
            moment: ended.greatest,
            end: setup.end,
        });
    }
    let whole = router.into_whole();
    match tell_report(alloc, &whole, setup.end, &ended, out) {
        Ok(()) => Ok(()),
        Err(stop) => Err(RunFault::Stopped(stop)),
    }
}

// The router of a setup, before its first event.
fn make_router<M: RouterOfRun>(alloc: Global, setup: &RunSetup) -> Result<M, AllocError>
    ensures { IfOk result (λ router. IsOpening setup.now.router (M.state router)) }
{
    let settings = setup.router.copy()?;
    M::make(alloc, settings)
}

// Makes the router of a setup, whose ports are attached, does its turns, and writes its report.
fn start<M: RouterOfRun, O: Sink, A: Air, C: Clock>(
    alloc: Global,
    setup: &RunSetup,
    turns: u32,
    out: &mut O,
    air: &mut A,
    clock: &mut C,
) -> Result<(), RunFault>
    requires { A.attached air.old ≡ length setup.now.ports }
    ensures ends { RouterEnds setup.now turns (C.moments clock.old) (C.moments clock.new) (A.reports air.old) (A.reports air.new)
        (O.content out.old) (O.content out.new) (O.faults out.old) (O.faults out.new) result }
    ensures attached { A.attached air.new ≡ A.attached air.old }
    ensures later_out { O.faults out.old ≤ O.faults out.new }
    ensures later_air { A.faults air.old ≤ A.faults air.new }
{
    match make_router::<M>(alloc, setup) {
        Ok(router) => run_router(alloc, router, setup, turns, out, air, clock),
        Err(_) => Err(RunFault::Stopped(Stop::Memory)),
    }
}

/// Attaches the ports of a setup, makes its router, does its turns, at most so many, and writes its report. Nothing is written
/// where a port can't be attached, or where the turns don't come to the setup's end.
pub fn run_setup<M: RouterOfRun, O: Sink, A: Air, C: Clock>(
    alloc: Global,
    setup: &RunSetup,
    turns: u32,
    out: &mut O,
    air: &mut A,
    clock: &mut C,
) -> Result<(), RunFault>
    requires { A.attached air.old ≡ 0 }
    ensures ends { (input : List ℕ) → StatesSetup input setup.now → EndsRun input turns
        (told (C.moments clock.old) (C.moments clock.new) (A.reports air.old) (A.reports air.new) (A.attached air.new))
        (O.content out.old) (O.content out.new) (O.faults out.old) (O.faults out.new) (A.faults air.old) (A.faults air.new) result }
    ensures first_try { AttachesAtOnce A A.attached A.faults air.old air.new }
    ensures later_out { O.faults out.old ≤ O.faults out.new }
    ensures later_air { A.faults air.old ≤ A.faults air.new }
{
    match attach_all(air, setup.ports.as_slice()) {
        Ok(()) => start::<M, O, A, C>(alloc, setup, turns, out, air, clock),
        Err(interface) => Err(RunFault::Attach { interface }),
    }
}
