//! A router that may put its relays and routes off.
ghost use Rattle.std.specs.Prelude.{◌≡◌, ◌<◌, ◌≤◌, ◌^◌, length, All, OnOk};
ghost use Rattle.mesh_atoms.specs.State.{State};
ghost use Rattle.mesh_core.specs.Deferred.{IsKeptOf};
ghost use Rattle.mesh_machine.specs.Machine.{Event, Step, due};
ghost use Rattle.mesh_machine.specs.Sendable.{IsSendable};

use crate::deferred::DeferredCore;
use crate::event::{hear_until, tick_until};
use crate::router::Core;
use mesh_bases::{Outbox, TypedFrame};
use mesh_expire::Bases;
use mesh_machine::Arrival;
use std::alloc::AllocError;

/// A router that may put off relays and routes up to a moment, as those of an emulated network and of a run do: each event is one step
/// of its machine. After an allocation failure it may only be dropped.
pub trait DeferringRouter: Sized + Drop {
    ghost state: { Self → State };

    /// Hears a frame that was read before, at a moment below 2^62 that isn't before the last event. From the moment `until` on nothing
    /// is put off. What is sent stands in `out` alone.
    fn hear_until(
        &mut self,
        until: u64,
        arrival: Arrival,
        frame: &TypedFrame,
        out: &mut Outbox,
    ) -> Result<(), AllocError>
        requires now { arrival.now < 2 ^ 62 }
        requires later { (state self.old).last ≤ arrival.now }
        requires iface { arrival.iface < length (state self.old).settings.interfaces }
        ensures step { OnOk result ((whole : State) × Step (state self.old) (Event.Hear arrival frame.now) out.new whole × IsKeptOf until whole (state self.new)) }
        ensures sendable { OnOk result (All (IsSendable (state self.old).settings) out.new) }
        ensures settings { OnOk result ((state self.new).settings ≡ (state self.old).settings) }
        ensures last { OnOk result ((state self.new).last ≤ arrival.now) }
        ensures no_earlier { OnOk result ((state self.old).last ≤ (state self.new).last) }
        ensures due { OnOk result (due (state self.new) ≡ due (state self.old)) };

    /// The clock ticks, at a moment below 2^62 that isn't before the last event. From the moment `until` on nothing is put off. What is
    /// sent stands in `out` alone.
    fn tick_until(&mut self, until: u64, now: u64, out: &mut Outbox) -> Result<(), AllocError>
        requires now { now < 2 ^ 62 }
        requires later { (state self.old).last ≤ now }
        ensures step { OnOk result ((whole : State) × Step (state self.old) (Event.Tick now) out.new whole × IsKeptOf until whole (state self.new)) }
        ensures sendable { OnOk result (All (IsSendable (state self.old).settings) out.new) }
        ensures settings { OnOk result ((state self.new).settings ≡ (state self.old).settings) }
        ensures last { OnOk result ((state self.new).last ≡ now) }
        ensures due { OnOk result (now < due (state self.new)) };

    /// The moment at which the next HELLO or TC is due.
    fn due_next(&self) -> u64
        ensures { result ≡ due (state self.now) };
}

// A core puts nothing off, whatever moment the call names.
impl<B: Bases> DeferringRouter for Core<B> {
    ghost state = { λ c. c.state };

    fn hear_until(
        &mut self,
        until: u64,
        arrival: Arrival,
        frame: &TypedFrame,
        out: &mut Outbox,
    ) -> Result<(), AllocError> {
        let _ = until;
        hear_until(&mut self.router, &mut self.spent, 0, arrival, frame, out)
    }

    fn tick_until(&mut self, until: u64, now: u64, out: &mut Outbox) -> Result<(), AllocError> {
        let _ = until;
        tick_until(&mut self.router, &mut self.spent, 0, now, out)
    }

    fn due_next(&self) -> u64 {
        self.due()
    }
}

impl<B: Bases> DeferringRouter for DeferredCore<B> {
    ghost state = { λ c. c.state };

    fn hear_until(
        &mut self,
        until: u64,
        arrival: Arrival,
        frame: &TypedFrame,
        out: &mut Outbox,
    ) -> Result<(), AllocError> {
        hear_until(
            &mut self.router,
            &mut self.spent,
            until,
            arrival,
            frame,
            out,
        )
    }

    fn tick_until(&mut self, until: u64, now: u64, out: &mut Outbox) -> Result<(), AllocError> {
        tick_until(&mut self.router, &mut self.spent, until, now, out)
    }

    fn due_next(&self) -> u64 {
        self.router.due()
    }
}
