//! A router of which a trace is checked.
ghost use Rattle.std.specs.Prelude.{◌≡◌, ◌<◌, ◌^◌, length, IfOk};
ghost use Rattle.mesh_atoms.specs.Hello.{IsHelloNow};
ghost use Rattle.mesh_atoms.specs.State.{State};
ghost use Rattle.mesh_bases.specs.Reading.Content.{IsPacketOf};
ghost use Rattle.mesh_atoms.specs.Relays.{HasDistinctIds};
ghost use Rattle.mesh_trace.specs.machine.Machine.{IsOpening, due};
ghost use Rattle.mesh_trace.specs.Positions.Due.{HearsBy, TicksBy};
ghost use Rattle.mesh_replay.specs.Checking.Events.{BeginsEvent};
ghost use Rattle.mesh_replay.specs.Checking.Kept.{IsAtRest, IsSoundRouter, event_items, with_relays};
ghost use Rattle.mesh_replay.specs.Checking.RelayLines.{IsGraphFor};

use mesh_atoms::{Hello, NeighbourGraph, Relays, RouterSettings, Seq, TcRow};
use mesh_bases::{Outbox, ReadPacket};
use mesh_machine::Arrival;
use mesh_topo::PartSpan;
use std::alloc::{AllocError, Global};

/// The relays of the event before, and whether they are for sure good again.
#[derive(Drop)]
pub(crate) struct Before {
    pub(crate) relays: Relays,
    pub(crate) stand: bool,
}

/// What is to be told of an event behind its line: relays, of which those of the event before are known; whether HELLOs are due; the parts
/// of the rows for which TCs are, and the sequence number of the first of these; and the frames that are forwarded.
#[derive(Drop)]
pub(crate) struct EventLines {
    pub(crate) before: Before,
    pub(crate) hellos: bool,
    pub(crate) parts: Seq<PartSpan>,
    pub(crate) sequence: u16,
    pub(crate) out: Outbox,
}

/// A router of which a trace is checked. Its relays are those that were told of the event at hand. What checks lines needs no more than
/// this, and knows nothing of tables. After an allocation failure a router may only be dropped.
pub(crate) trait RouterOfTrace: Sized + Drop {
    ghost state: { Self → State };

    /// A router with these settings before its first event.
    fn make(alloc: Global, settings: &RouterSettings) -> Result<Self, AllocError>
        ensures { IfOk result (λ router. IsOpening settings.now (state router)) };

    /// The moment at which the next HELLO or TC is due.
    fn due_next(&self) -> u64
        ensures { result ≡ due (state self.now) };

    /// The clock ticks: what is expired goes, and what follows but relays is renewed.
    fn tick(&mut self, alloc: Global, now: u64) -> Result<EventLines, AllocError>
        requires now { now < 2 ^ 62 }
        requires kept { IsAtRest (state self.old) }
        ensures ticks { IfOk result (λ lines. TicksBy (state self.old) now (state self.new) (event_items (state self.new) lines)) }
        ensures begins { IfOk result (BeginsEvent (state self.old) now (state self.new)) };

    /// A frame is heard that reads as a packet: what is expired goes, its messages are taken, and what follows but relays is renewed.
    fn hear(
        &mut self,
        alloc: Global,
        arrival: Arrival,
        bytes: &[u8],
        packet: &ReadPacket,
    ) -> Result<EventLines, AllocError>
        requires now { arrival.now < 2 ^ 62 }
        requires iface { arrival.iface < length (state self.old).settings.interfaces }
        requires kept { IsAtRest (state self.old) }
        requires packet { IsPacketOf bytes.now packet.now }
        ensures hears { IfOk result (λ lines. HearsBy (state self.old) arrival bytes.now (state self.new) (event_items (state self.new) lines)) }
        ensures begins { IfOk result (BeginsEvent (state self.old) arrival.now (state self.new)) };

    /// The graph from which it chooses relays, for an interface or for routing.
    fn graph(&self, alloc: Global, iface: Option<usize>) -> Result<NeighbourGraph, AllocError>
        requires { IsSoundRouter (state self.now) }
        ensures graph { IfOk result (IsGraphFor (state self.now) iface) }
        ensures distinct { IfOk result HasDistinctIds };

    /// The HELLO that it has on an interface.
    fn hello(&self, alloc: Global, iface: usize) -> Result<Hello, AllocError>
        requires iface { iface < length (state self.now).settings.interfaces }
        requires sound { IsSoundRouter (state self.now) }
        ensures { IfOk result (IsHelloNow (state self.now) iface (state self.now).last) };

    /// The rows that it advertises.
    fn rows(&self) -> &[TcRow]
        ensures { result.now ≡ (state self.now).rows };

    /// The ANSN of its rows.
    fn ansn(&self) -> u16
        ensures { result ≡ (state self.now).ansn };

    /// Takes the relays that were told.
    fn take_relays(&mut self, relays: Relays)
        ensures { state self.new ≡ with_relays (state self.old) relays };
}
