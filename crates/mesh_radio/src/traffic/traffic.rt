//! The sending of frames.
ghost use Rattle.std.specs.Prelude.{◌≡◌, ◌+◌, ◌≤◌, ◌<◌, ◌^◌, length, map, slice_get, All, IfOk, OnOk, Some};
ghost use Rattle.mesh_atoms.specs.Settings.{one_hour};
ghost use Rattle.mesh_atoms.specs.declared.settings.RouterSettings.{RouterSettings};
ghost use Rattle.mesh_machine.specs.Sendable.{IsSendable};
ghost use Rattle.mesh_machine.specs.Traffic.{Spreads, Sends, SendsAll, frame_of};
ghost use Rattle.mesh_radio.specs.Occurrences.{emission_of};
ghost use Rattle.mesh_radio.specs.Traffic.Traffic.{traffic_of};
ghost use Rattle.mesh_machine.specs.Ways.{AreArcsOut};

use crate::occurrences::SentFrame;
use crate::traffic::air::FramesInAir;
use mesh_atoms::{Bytes, Counts, RadioArc, Scenario, Seq};
use mesh_core::{Outbox, TypedFrame};
use mesh_machine::{ArcsOut, Draws, leaving_of, loses};
use std::alloc::{AllocError, Global};
use std::rc::Rc;

/// What is in the air, what was counted, and the draws.
#[derive(Drop)]
pub struct RadioTraffic {
    pub air: FramesInAir,
    pub counts: Counts,
    pub draws: Draws,
}

/// Sends what is in an outbox, in order.
pub(crate) fn send_all(
    alloc: Global,
    scenario: &Scenario,
    ways: &Seq<Seq<ArcsOut>>,
    now: u64,
    router: usize,
    outbox: &Outbox,
    traffic: &mut RadioTraffic,
) -> Result<Vec<SentFrame>, AllocError>
    requires ways { AreArcsOut scenario.now.arcs scenario.now.routers (length scenario.now.routers) ways.now }
    requires sendable { (settings : RouterSettings) × (slice_get scenario.now.routers router ≡ Some settings) × All (IsSendable settings) outbox.now }
    requires seed { traffic.old.draws.seed ≡ scenario.now.seed }
    requires early { now ≤ one_hour }
    ensures frames { IfOk result (λ sent. map frame_of (map emission_of sent.items) ≡ outbox.now) }
    ensures sends { IfOk result (λ sent. SendsAll scenario.now now router (map emission_of sent.items)
        (traffic_of traffic.old) (traffic_of traffic.new)) }
    ensures seed { OnOk result (traffic.new.draws.seed ≡ traffic.old.draws.seed) }
{
    let mut sent = Vec::new(alloc);
    for i in 0..outbox.len() {
        let Some((iface, frame)) = outbox.frame(i) else {
            break;
        };
        sent.push(send(scenario, ways, now, router, iface, frame, traffic)?)?;
    }
    Ok(sent)
}

/// Sends a frame by an interface: once on each arc that leaves it, in order.
fn send(
    scenario: &Scenario,
    ways: &Seq<Seq<ArcsOut>>,
    now: u64,
    router: usize,
    iface: usize,
    frame: &[u8],
    traffic: &mut RadioTraffic,
) -> Result<SentFrame, AllocError>
    requires ways { AreArcsOut scenario.now.arcs scenario.now.routers (length scenario.now.routers) ways.now }
    requires face { (settings : RouterSettings) × (slice_get scenario.now.routers router ≡ Some settings) × (iface < length settings.interfaces) }
    requires seed { traffic.old.draws.seed ≡ scenario.now.seed }
    requires early { now ≤ one_hour }
    ensures frame { IfOk result (λ sent. frame_of (emission_of sent) ≡ record { iface = iface; bytes = frame.now }) }
    ensures sends { IfOk result (λ sent. Sends scenario.now now router (emission_of sent)
        (traffic_of traffic.old) (traffic_of traffic.new)) }
    ensures seed { OnOk result (traffic.new.draws.seed ≡ traffic.old.draws.seed) }
{
    traffic.counts.sent = traffic.counts.sent.wrapping_add(1);
    let arcs = leaving_of(scenario, ways, router, iface);
    let alloc = ways.allocator();
    let shared = Rc::new(alloc, TypedFrame::new(alloc, bytes_of(alloc, frame)?)?)?;
    let lost = spread(alloc, scenario, now, &shared, arcs, traffic)?;
    Ok(SentFrame {
        iface,
        frame: shared,
        lost,
    })
}

/// Sends a frame on arcs in order, and gives the numbers of those on which it is lost.
fn spread(
    alloc: Global,
    scenario: &Scenario,
    now: u64,
    frame: &Rc<TypedFrame>,
    ways: &[(usize, RadioArc)],
    traffic: &mut RadioTraffic,
) -> Result<Seq<usize>, AllocError>
    requires seed { traffic.old.draws.seed ≡ scenario.now.seed }
    requires early { now ≤ one_hour }
    ensures spreads { IfOk result (λ lost. Spreads scenario.now now frame.now.value ways.now lost (traffic_of traffic.old) (traffic_of traffic.new)) }
    ensures seed { OnOk result (traffic.new.draws.seed ≡ traffic.old.draws.seed) }
{
    let mut lost = Seq::new(alloc);
    for (number, arc) in ways {
        if loses(scenario, now, arc, &mut traffic.draws) {
            traffic.counts.lost = traffic.counts.lost.wrapping_add(1);
            lost.push(*number)?;
        } else {
            let share = frame.clone()?;
            traffic.air.put(now + arc.delay, *number, share)?;
        }
    }
    Ok(lost)
}

/// The same octets.
fn bytes_of(alloc: Global, octets: &[u8]) -> Result<Bytes, AllocError>
    ensures { IfOk result (λ bytes. bytes ≡ octets.now) }
{
    let mut bytes = Bytes::new(alloc);
    bytes.append(octets)?;
    Ok(bytes)
}
