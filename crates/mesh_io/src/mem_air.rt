//! An air in memory, which hears by scripts, and whose calls fail by lists.
ghost use Rattle.std.specs.Prelude.{◌≡◌, ℕ, ◌<◌, [], ◌∷◌, length, replicate, Some, IfOk, if◌then◌else◌};
ghost use Rattle.mesh_atoms.specs.declared.limits.TheConstants.{LONGEST_DATAGRAM};
ghost use Rattle.mesh_io.specs.Airs.{AttachesInterface, FitsBuffer, report_of_ear, IsAttachCaused, IsEarCaused, IsSentCaused};
ghost use Rattle.mesh_io.specs.Airs.Report.{Handed, Heard_fault};
ghost use Rattle.mesh_io.specs.Faults.{Rose, one_more};
ghost use Rattle.mesh_io.specs.MemAir.{told_ear, next_ear, IsAttached, IsHeard, IsSent};
ghost use Rattle.mesh_io.specs.Told.{TellsMore};

use crate::air_log::AirLog;
use crate::air_room::{AirFails, AirRoom, MemEar};
use crate::{Air, Attached, Ear, Sent};
use mesh_atoms::{Endpoint, Seq};
use std::alloc::{AllocError, Global};
use std::marker::Model;

/// An air in memory: interface k hears the ears of script k, and then silence. The calls with the numbers in its lists fail, and
/// those for which there is no room left.
#[derive(Drop)]
pub struct MemAir {
    log: AirLog,
    attaches: u64,
    hears: u64,
    sends: u64,
    fails: AirFails,
    faults: u64,
}

impl Model for MemAir {
    ghost use Rattle.mesh_io.specs.MemAir.{AirState};

    ghost Value = { AirState };

    ghost view = { λ a. record {
      log = a.log;
      attaches = a.attaches;
      hears = a.hears;
      sends = a.sends;
      fails = a.fails;
      faults = a.faults;
    } };
}

impl MemAir {
    /// No interfaces. Takes all the memory that it will need.
    pub fn new(
        alloc: Global,
        scripts: Seq<Seq<MemEar>>,
        fails: AirFails,
        room: AirRoom,
    ) -> Result<MemAir, AllocError>
        ensures { IfOk result (λ air. air ≡ record {
          log = record { attached = 0; told = Some []; scripts = scripts; places = replicate (length scripts) 0; left = room };
          attaches = 0;
          hears = 0;
          sends = 0;
          fails = fails;
          faults = 0;
        }) }
    {
        Ok(MemAir {
            log: AirLog::new(alloc, scripts, room)?,
            attaches: 0,
            hears: 0,
            sends: 0,
            fails,
            faults: 0,
        })
    }
}

impl Air for MemAir {
    ghost attached = { λ a. a.log.attached };

    ghost reports = { λ a. a.log.told };

    ghost faults = { λ a. a.faults };

    /// Makes the next interface, or counts a fault where the call is to fail or there is no room for it.
    fn attach(&mut self, local: Endpoint, peers: &[Endpoint]) -> Attached
        ensures attaches { AttachesInterface self.old.log.attached self.new.log.attached self.old.log.told self.new.log.told local peers.now result }
        ensures cause { IsAttachCaused self.old.faults self.new.faults result }
        ensures exact { IsAttached self.old local peers.now self.new result }
    {
        self.attaches = self.attaches.saturating_add(1);
        if self.fails.attach.as_slice().contains(&self.attaches)
            || !self.log.has_room_for_attach(peers.len())
        {
            self.faults = self.faults.saturating_add(1);
            return Attached::Failed;
        }
        self.log.attach(local, peers);
        Attached::Done
    }

    /// Gives the next ear of the interface's script, or counts a fault where the call is to fail or there is no room for it. Where
    /// there is none, nothing is told any more.
    fn hear(&mut self, iface: usize, buf: &mut [u8]) -> Ear
        requires iface { iface < self.old.log.attached }
        requires longest { length buf.old ≡ LONGEST_DATAGRAM }
        ensures attached { self.new.log.attached ≡ self.old.log.attached }
        ensures within { FitsBuffer buf.new result }
        ensures told { TellsMore self.old.log.told self.new.log.told (report_of_ear iface buf.new result ∷ []) }
        ensures cause { IsEarCaused self.old.faults self.new.faults result }
        ensures exact { IsHeard self.old iface self.new (report_of_ear iface buf.new result) }
    {
        self.hears = self.hears.saturating_add(1);
        if !self.log.has_room_for_ear() {
            self.log.tell_nothing();
            self.faults = self.faults.saturating_add(1);
            return Ear::Failed;
        }
        if self.fails.hear.as_slice().contains(&self.hears) {
            self.log.fail(iface);
            self.faults = self.faults.saturating_add(1);
            return Ear::Failed;
        }
        self.log.hear(iface, buf)
    }

    /// Takes the frame, or counts a fault where the call is to fail or there is no room for it. Where there is none, nothing is told
    /// any more.
    fn send(&mut self, iface: usize, bytes: &[u8]) -> Sent
        requires iface { iface < self.old.log.attached }
        ensures attached { self.new.log.attached ≡ self.old.log.attached }
        ensures told { TellsMore self.old.log.told self.new.log.told (Handed iface bytes.now result ∷ []) }
        ensures cause { IsSentCaused self.old.faults self.new.faults result }
        ensures exact { IsSent self.old iface bytes.now self.new result }
    {
        self.sends = self.sends.saturating_add(1);
        if !self.log.has_room_for_frame(bytes.len()) {
            self.log.tell_nothing();
            self.faults = self.faults.saturating_add(1);
            return Sent::Failed;
        }
        if self.fails.send.as_slice().contains(&self.sends) {
            self.log.send(iface, bytes, Sent::Failed);
            self.faults = self.faults.saturating_add(1);
            return Sent::Failed;
        }
        self.log.send(iface, bytes, Sent::Done);
        Sent::Done
    }
}
