//! A run of the router that an input states.
ghost use Rattle.std.specs.Prelude.{◌≡◌, ◌≤◌, ℕ, List, Err, OnOk, None, length};
ghost use Rattle.std.specs.Io.KnownBytes.{Keeps};
ghost use Rattle.mesh_atoms.specs.declared.settings.RunSetup.{RunSetup};
ghost use Rattle.mesh_config.specs.RunSettings.{run_refusals, FirstRunRefusal};
ghost use Rattle.mesh_io.specs.Faults.{Rose, RoseByOne};
ghost use Rattle.mesh_io.specs.Pieces.{PutsAll, PutsFront, PutsSome};
ghost use Rattle.mesh_run.specs.Attaching.{AttachesAtOnce};
ghost use Rattle.mesh_run.specs.Ends.{EndsRun, Completes};
ghost use Rattle.mesh_run.specs.Run.{StatesSetup, told, IsUntold, RouterRunMakes, SpendsTurns, FailsToAttach};
ghost use Rattle.mesh_run.specs.declared.fault.RunFault.TheVariants.{Refused, Attach, Turns, Stopped};
ghost use Rattle.mesh_config.specs.Keys.Faults.{first};

use crate::fault::RunFault;
use crate::router::run_setup;
use crate::router_of_run::RouterOfRun;
use mesh_config::{ConfigFault, router_of};
use mesh_core::DeferredCore;
use mesh_expire::Bases;
use mesh_io::{Air, Clock, Sink, Stop};
use std::alloc::Global;

// Runs the router that the input states.
fn run_stated<M: RouterOfRun, O: Sink, A: Air, C: Clock>(
    alloc: Global,
    input: &[u8],
    turns: u32,
    out: &mut O,
    air: &mut A,
    clock: &mut C,
) -> Result<(), RunFault>
    requires { A.attached air.old ≡ 0 }
    ensures ends { EndsRun input.now turns
        (told (C.moments clock.old) (C.moments clock.new) (A.reports air.old) (A.reports air.new) (A.attached air.new))
        (O.content out.old) (O.content out.new) (O.faults out.old) (O.faults out.new) (A.faults air.old) (A.faults air.new) result }
    ensures first_try { AttachesAtOnce A A.attached A.faults air.old air.new }
    ensures later_out { O.faults out.old ≤ O.faults out.new }
    ensures later_air { A.faults air.old ≤ A.faults air.new }
{
    match router_of(alloc, input) {
        Ok(setup) => run_setup::<M, O, A, C>(alloc, &setup, turns, out, air, clock),
        Err(ConfigFault::Refused { number, key }) => Err(RunFault::Refused { number, key }),
        Err(ConfigFault::Memory(_)) => Err(RunFault::Stopped(Stop::Memory)),
    }
}

/// Runs the router that the input states, over an air without interfaces: attaches its ports in order, makes the router, with tables
/// over these bases, does at most so many turns, and where one of them comes to the end writes the router's report on `out`, by one
/// write. A frame that can't be heard or sent is counted, and the run goes on.
pub fn run<B: Bases, O: Sink, A: Air, C: Clock>(
    alloc: Global,
    input: &[u8],
    turns: u32,
    out: &mut O,
    air: &mut A,
    clock: &mut C,
) -> Result<(), RunFault>
    requires { A.attached air.old ≡ 0 }

    // The text of a run, by the moments that the clock told and the reports of the air, was put on `out`.
    ensures done { OnOk result (PutsAll (RouterRunMakes input.now turns
        (told (C.moments clock.old) (C.moments clock.new) (A.reports air.old) (A.reports air.new) (A.attached air.new)))
        (O.content out.old) (O.content out.new) tt) }

    // The input states no setup; nothing was attached or told, and nothing put on `out`.
    ensures refused { (number : ℕ) (key : List ℕ) → result ≡ Err (Refused number key) → FirstRunRefusal input.now number key
        × IsUntold (told (C.moments clock.old) (C.moments clock.new) (A.reports air.old) (A.reports air.new) (A.attached air.new))
        × Keeps (O.content out.old) (O.content out.new) }

    // An attach failed, and the air counted that one fault; nothing else was told, and nothing put on `out`.
    ensures attach { (interface : ℕ) → result ≡ Err (Attach interface) → FailsToAttach input.now interface
        (told (C.moments clock.old) (C.moments clock.new) (A.reports air.old) (A.reports air.new) (A.attached air.new))
        × RoseByOne (A.faults air.old) (A.faults air.new) × Keeps (O.content out.old) (O.content out.new) }

    // Whatever is answered, each interface that there is was attached at the first try, and none behind a failed attach.
    ensures first_try { AttachesAtOnce A A.attached A.faults air.old air.new }

    // All turns were done, each at a moment below the end; nothing was put on `out`.
    ensures turns { (count greatest end : ℕ) → result ≡ Err (Turns count greatest end) → (count ≡ turns)
        × SpendsTurns input.now count greatest end
        (told (C.moments clock.old) (C.moments clock.new) (A.reports air.old) (A.reports air.new) (A.attached air.new))
        × Keeps (O.content out.old) (O.content out.new) }

    // The sink counted a fault; a prefix of the text of a run was put on `out`.
    ensures write { result ≡ Err (Stopped Stop.Write) → PutsFront (RouterRunMakes input.now turns
        (told (C.moments clock.old) (C.moments clock.new) (A.reports air.old) (A.reports air.new) (A.attached air.new)))
        (O.content out.old) (O.content out.new) (O.faults out.old) (O.faults out.new) }

    // What was told and handed over is that of some first turns, at most as many as were asked for; nothing was put on `out`.
    ensures memory { result ≡ Err (Stopped Stop.Memory) → PutsSome (RouterRunMakes input.now turns
        (told (C.moments clock.old) (C.moments clock.new) (A.reports air.old) (A.reports air.new) (A.attached air.new)))
        (O.content out.old) (O.content out.new) }

    // Where the input states a setup, all its ports are attached, and the sink counts no fault, it is done, or its turns are, or memory
    // was wanting.
    ensures complete { first (run_refusals input.now) ≡ None
        → ((setup : RunSetup) → StatesSetup input.now setup → A.attached air.new ≡ length setup.ports)
        → (Rose (O.faults out.old) (O.faults out.new) → ⊥) → Completes result }
    ensures later_out { O.faults out.old ≤ O.faults out.new }
    ensures later_air { A.faults air.old ≤ A.faults air.new }
{
    run_stated::<DeferredCore<B>, O, A, C>(alloc, input, turns, out, air, clock)
}
