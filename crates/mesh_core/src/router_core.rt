//! A router that hears frames and shows what it then holds, whatever tables it has.
ghost use Rattle.std.specs.Prelude.{◌≡◌, ◌<◌, ◌≤◌, ◌^◌, length, All, OnOk};
ghost use Rattle.mesh_machine.specs.Machine.{Event, Step, due};
ghost use Rattle.mesh_machine.specs.Sendable.{IsSendable};

use crate::deferring_router::DeferringRouter;
use crate::router::Core;
use mesh_bases::{Outbox, TypedFrame};
use mesh_expire::Bases;
use mesh_machine::{Arrival, RouterView};
use std::alloc::AllocError;

/// A router that hears frames and shows what it then holds: each frame is one step of its machine. What sends a probe through a network
/// needs no more than this, and knows nothing of tables. After an allocation failure a router may only be dropped.
pub trait RouterCore: RouterView + Sized + Drop {
    /// Hears a frame that was read before, at a moment below 2^62 that isn't before the last event. What is sent stands in `out` alone.
    fn hear_frame(
        &mut self,
        arrival: Arrival,
        frame: &TypedFrame,
        out: &mut Outbox,
    ) -> Result<(), AllocError>
        requires now { arrival.now < 2 ^ 62 }
        requires later { (Self.state self.old).last ≤ arrival.now }
        requires iface { arrival.iface < length (Self.state self.old).settings.interfaces }
        ensures step { OnOk result (Step (Self.state self.old) (Event.Hear arrival frame.now) out.new (Self.state self.new)) }
        // Each frame that is sent is a packet, on an interface.
        ensures sendable { OnOk result (All (IsSendable (Self.state self.old).settings) out.new) }
        ensures settings { OnOk result ((Self.state self.new).settings ≡ (Self.state self.old).settings) }
        ensures last { OnOk result ((Self.state self.new).last ≤ arrival.now) }
        ensures due { OnOk result (due (Self.state self.new) ≡ due (Self.state self.old)) };
}

impl<B: Bases> RouterCore for Core<B> {
    fn hear_frame(
        &mut self,
        arrival: Arrival,
        frame: &TypedFrame,
        out: &mut Outbox,
    ) -> Result<(), AllocError> {
        // From the first moment on nothing is put off.
        self.hear_until(0, arrival, frame, out)
    }
}
