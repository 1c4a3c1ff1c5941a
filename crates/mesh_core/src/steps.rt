//! One step of the machine a call: a router hears a frame, or its clock ticks (RFC 6130 and RFC 7181).
ghost use Rattle.std.specs.Prelude.{◌≡◌, ◌<◌, ◌≤◌, ◌^◌, ◌++◌, ℕ, length, is_err, All, IfOk, OnOk, OnErr, IsErr, IsTrue};
ghost use Rattle.mesh_atoms.specs.Sound.{Sound};
ghost use Rattle.mesh_core.specs.Event.Promises.{TakesBack};
ghost use Rattle.mesh_machine.specs.Frames.{sent_since};
ghost use Rattle.mesh_machine.specs.Machine.{Event, Step, Hears, due};
ghost use Rattle.mesh_machine.specs.Sendable.{IsSendable};
ghost use Rattle.mesh_packet.specs.Grammar.{FirstFault};

use crate::event::{EventWants, hear_content, tick};
use crate::router::Core;
use mesh_atoms::Addr4;
use mesh_bases::{Outbox, read_content};
use mesh_expire::Bases;
use mesh_machine::{Arrival, Heard};
use std::alloc::AllocError;

// Takes out what an event that met an allocation failure has put behind so many frames.
fn take_back<T>(came: &Result<T, AllocError>, out: &mut Outbox, count: usize)
    ensures { TakesBack came.now count out.old out.new }
{
    if came.is_err() {
        out.truncate(count);
    }
}

impl<B: Bases> Core<B> {
    /// Hears a frame on an interface from that sender, at a moment below 2^62 that isn't before the last event (RFC 5444, RFC 6130 and
    /// RFC 7181). A frame with a fault changes nothing, not even by expiry. What is sent is put at the end of `out`. An allocation failure
    /// leaves `out` as it was, and the router spent: it then answers with an allocation failure to each event.
    pub fn hear(
        &mut self,
        now: u64,
        iface: usize,
        sender: Addr4,
        bytes: &[u8],
        out: &mut Outbox,
    ) -> Result<Heard, AllocError>
        requires now { now < 2 ^ 62 }
        requires later { self.old.state.last ≤ now }
        requires iface { iface < length self.old.state.settings.interfaces }
        // One step of the router.
        ensures step { IfOk result (λ answer. Step self.old.state (Event.Hear (record { now = now; iface = iface; sender = sender }) bytes.now) (sent_since out.old out.new) self.new.state) }
        // What is answered.
        ensures answer { IfOk result (λ answer. Hears self.old.state (record { now = now; iface = iface; sender = sender }) bytes.now answer (sent_since out.old out.new) self.new.state) }
        ensures refused { (place reason : ℕ) → FirstFault bytes.now place reason → IfOk result (λ answer. answer ≡ Heard.Refused (record { place = place; reason = reason })) }
        ensures appended { out.new ≡ out.old ++ sent_since out.old out.new }
        // Each frame that is sent is a packet, on an interface.
        ensures sendable { OnOk result (All (IsSendable self.old.state.settings) (sent_since out.old out.new)) }
        ensures settings { OnOk result (self.new.state.settings ≡ self.old.state.settings) }
        ensures last { OnOk result (self.new.state.last ≤ now) }
        ensures due { OnOk result (due self.new.state ≡ due self.old.state) }
        ensures sound { OnOk result (Sound self.new.state) }
        ensures spent { self.new.is_spent ≡ is_err result }
        ensures stays { IsTrue self.old.is_spent → IsErr result }
        ensures wanting { OnErr result (out.new ≡ out.old) }
    {
        if self.spent {
            return Err(AllocError);
        }
        // Up to the end of the event, of which each part may meet an allocation failure.
        self.spent = true;
        let alloc = self.router.holding.settings().interfaces.allocator();
        let content = read_content(alloc, bytes)?;
        let arrival = Arrival { now, iface, sender };
        let wants = EventWants {
            relays: true,
            routes: true,
            fates: true,
        };
        let before = out.len();
        let came = hear_content(&mut self.router, wants, arrival, bytes, &content, out);
        self.spent = came.is_err();
        take_back(&came, out, before);
        came
    }

    /// The clock ticks, at a moment below 2^62 that isn't before the last event: what is due is sent, put at the end of `out`. An
    /// allocation failure leaves `out` as it was, and the router spent: it then answers with an allocation failure to each event.
    pub fn tick(&mut self, now: u64, out: &mut Outbox) -> Result<(), AllocError>
        requires now { now < 2 ^ 62 }
        requires later { self.old.state.last ≤ now }
        // One step of the router.
        ensures step { OnOk result (Step self.old.state (Event.Tick now) (sent_since out.old out.new) self.new.state) }
        ensures appended { out.new ≡ out.old ++ sent_since out.old out.new }
        // Each frame that is sent is a packet, on an interface.
        ensures sendable { OnOk result (All (IsSendable self.old.state.settings) (sent_since out.old out.new)) }
        ensures settings { OnOk result (self.new.state.settings ≡ self.old.state.settings) }
        ensures last { OnOk result (self.new.state.last ≡ now) }
        ensures due { OnOk result (now < due self.new.state) }
        ensures sound { OnOk result (Sound self.new.state) }
        ensures spent { self.new.is_spent ≡ is_err result }
        ensures stays { IsTrue self.old.is_spent → IsErr result }
        ensures wanting { OnErr result (out.new ≡ out.old) }
    {
        if self.spent {
            return Err(AllocError);
        }
        let wants = EventWants {
            relays: true,
            routes: true,
            fates: false,
        };
        let before = out.len();
        let came = tick(&mut self.router, wants, now, out);
        self.spent = came.is_err();
        take_back(&came, out, before);
        came
    }
}
