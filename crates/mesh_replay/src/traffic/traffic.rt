//! The sending of frames.
ghost use Rattle.std.specs.Prelude.{◌≡◌, ◌+◌, ◌≤◌, ◌<◌, [], length, slice_get, All, IfOk, OnOk, Some, MatchOption};
ghost use Rattle.mesh_atoms.specs.Settings.{one_hour};
ghost use Rattle.mesh_atoms.specs.declared.settings.RouterSettings.{RouterSettings};
ghost use Rattle.mesh_trace.specs.machine.Traffic.{Spreads, Sends};
ghost use Rattle.mesh_replay.specs.Traffic.Air.{delivery_of};
ghost use Rattle.mesh_replay.specs.Traffic.Traffic.{HasTaken};
ghost use Rattle.mesh_trace.specs.machine.Ways.{AreArcsOut};

use crate::traffic::air::{AwaitedFrames, Delivered};
use mesh_atoms::{Bytes, Counts, RadioArc, Scenario, Seq};
use mesh_machine::{ArcsOut, Draws, leaving_of, loses};
use std::alloc::{AllocError, Global};
use std::marker::Model;
use std::rc::Rc;

/// What flies, what was counted, and the draws.
#[derive(Drop)]
pub(crate) struct TraceTraffic {
    air: AwaitedFrames,
    counts: Counts,
    draws: Draws,
}

impl Model for TraceTraffic {
    ghost use Rattle.mesh_replay.specs.Traffic.Traffic.{SeededTraffic};

    ghost Value = { SeededTraffic };

    ghost view = { λ t. record { seed = t.draws.seed; traffic = record { air = t.air; counts = t.counts; draws = t.draws.drawn } } };
}

impl TraceTraffic {
    /// Nothing flies, nothing was counted, and no word of the seed was drawn.
    pub(crate) fn new(alloc: Global, seed: u64) -> TraceTraffic
        ensures seed { result.seed ≡ seed }
        ensures traffic { result.traffic ≡ record { air = []; counts = record { sent = 0; delivered = 0; lost = 0 }; draws = 0 } }
    {
        TraceTraffic {
            air: AwaitedFrames::new(alloc),
            counts: Counts {
                sent: 0,
                delivered: 0,
                lost: 0,
            },
            draws: Draws::new(seed),
        }
    }

    /// Takes the frame out of the air that is heard first, if that is no later than a moment, and counts it as heard.
    pub(crate) fn take(&mut self, limit: u64) -> Option<Delivered>
        ensures seed { self.new.seed ≡ self.old.seed }
        ensures first { MatchOption result (self.new ≡ self.old)
            (λ landed. HasTaken self.old.traffic (delivery_of landed) self.new.traffic) }
        ensures limit { MatchOption result (All (λ d. limit < d.moment) self.old.traffic.air) (λ landed. landed.moment ≤ limit) }
    {
        let landed = self.air.take(limit)?;
        self.counts.delivered = self.counts.delivered.wrapping_add(1);
        Some(landed)
    }

    /// Sends a frame by an interface of a router: once on each arc that leaves it, in order. Gives the numbers of the arcs on which it is
    /// lost.
    pub(crate) fn send(
        &mut self,
        scenario: &Scenario,
        ways: &Seq<Seq<ArcsOut>>,
        now: u64,
        router: usize,
        iface: usize,
        frame: &Rc<Bytes>,
    ) -> Result<Seq<usize>, AllocError>
        requires ways { AreArcsOut scenario.now.arcs scenario.now.routers (length scenario.now.routers) ways.now }
        requires face { (settings : RouterSettings) × (slice_get scenario.now.routers router ≡ Some settings)
            × (iface < length settings.interfaces) }
        requires seed { self.old.seed ≡ scenario.now.seed }
        requires early { now ≤ one_hour }
        ensures sends { IfOk result (λ lost. Sends scenario.now now router
            (record { iface = iface; frame = frame.now.value; lost = lost }) self.old.traffic self.new.traffic) }
        ensures seed { OnOk result (self.new.seed ≡ self.old.seed) }
        ensures flying { OnOk result (All (λ d. d.arc < length scenario.now.arcs) self.old.traffic.air
            → All (λ d. d.arc < length scenario.now.arcs) self.new.traffic.air) }
    {
        self.counts.sent = self.counts.sent.wrapping_add(1);
        let arcs = leaving_of(scenario, ways, router, iface);
        self.spread(ways.allocator(), scenario, now, frame, arcs)
    }

    // Sends a frame on arcs in order, and gives the numbers of those on which it is lost.
    fn spread(
        &mut self,
        alloc: Global,
        scenario: &Scenario,
        now: u64,
        frame: &Rc<Bytes>,
        ways: &[(usize, RadioArc)],
    ) -> Result<Seq<usize>, AllocError>
        requires seed { self.old.seed ≡ scenario.now.seed }
        requires early { now ≤ one_hour }
        ensures spreads { IfOk result (λ lost. Spreads scenario.now now frame.now.value ways.now lost self.old.traffic self.new.traffic) }
        ensures seed { OnOk result (self.new.seed ≡ self.old.seed) }
    {
        let mut lost = Seq::new(alloc);
        for (number, arc) in ways {
            if loses(scenario, now, arc, &mut self.draws) {
                self.counts.lost = self.counts.lost.wrapping_add(1);
                lost.push(*number)?;
            } else {
                let share = frame.clone()?;
                self.air.put(now + arc.delay, *number, share)?;
            }
        }
        Ok(lost)
    }
}
