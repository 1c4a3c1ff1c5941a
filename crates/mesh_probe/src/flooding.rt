//! A flood: frames are heard one after the other, until none waits (RFC 7181, section 14.3).
ghost use Rattle.std.specs.Prelude.{◌≡◌, ◌<◌, ◌≤◌, ◌^◌, ℕ, List, All, map, length, IfOk, OnOk};
ghost use Rattle.mesh_atoms.specs.Settled.{At};
ghost use Rattle.mesh_atoms.specs.State.{State};
ghost use Rattle.mesh_probe.specs.Flood.{is_arc_from, hearers_of, IsInterfaceSender, AllHear, Flood};
ghost use Rattle.mesh_probe.specs.Hearing.{CanHear, IsOfInterface, HearsFrame, SendsOnceFrom};

use crate::frames::put_sent;
use crate::transmission::Transmission;
use mesh_atoms::{Addr4, Bytes, RadioArc, Scenario};
use mesh_bases::{Outbox, TypedFrame};
use mesh_core::{Arrival, RouterCore};
use mesh_machine::Frame;
use std::alloc::{AllocError, Global};

// Whether the arc leads from that interface of the router.
fn is_arc_from(arc: &RadioArc, router: usize, iface: usize) -> bool
    ensures { result ≡ is_arc_from arc.now router iface }
{
    arc.from == router && arc.from_iface == iface
}

// The first address of the interface that sends a frame.
fn sender_of(scenario: &Scenario, frame: &Transmission) -> Addr4
    requires { IsOfInterface scenario.now frame.now }
    ensures { IsInterfaceSender scenario.now frame.now.router frame.now.frame.iface result }
{
    let settings = &scenario.routers.as_slice()[frame.router];
    let interface = &settings.interfaces.as_slice()[frame.frame.iface];
    interface.addrs.as_slice()[0]
}

// The frame, read once for all that hear it.
fn typed(alloc: Global, frame: &Frame) -> Result<TypedFrame, AllocError>
    ensures { IfOk result (λ typed. typed ≡ frame.now.bytes) }
{
    let mut octets = Bytes::new(alloc);
    octets.append(frame.bytes.as_slice())?;
    TypedFrame::new(alloc, octets)
}

// The router at the end of an arc hears the frame from that sender, and what it sends is put at the end.
fn hear_one<R: RouterCore>(
    alloc: Global,
    routers: &mut [R],
    arc: &RadioArc,
    now: u64,
    sender: Addr4,
    frame: &TypedFrame,
    sent: &mut Vec<Transmission>,
) -> Result<(), AllocError>
    requires early { now < 2 ^ 62 }
    requires router { (p : State) × At (map R.state routers.old) arc.now.to p × (p.last ≤ now) × (arc.now.to_iface < length p.settings.interfaces) }
    ensures { OnOk result (HearsFrame now sender frame.now arc.now.to arc.now.to_iface (map R.state routers.old) (map R.state routers.new) sent.old.items sent.new.items) }
{
    let arrival = Arrival {
        now,
        iface: arc.to_iface,
        sender,
    };
    let mut frames = Outbox::new(alloc);
    routers[arc.to].hear_frame(arrival, frame, &mut frames)?;
    put_sent(alloc, sent, arc.to, &frames)?;
    Ok(())
}

// The routers at the ends of a frame's arcs hear it, in the order of the arcs: the frames that they send.
fn hear_all<R: RouterCore>(
    alloc: Global,
    routers: &mut [R],
    scenario: &Scenario,
    now: u64,
    sender: Addr4,
    frame: &Transmission,
) -> Result<Vec<Transmission>, AllocError>
    requires early { now < 2 ^ 62 }
    requires routers { CanHear scenario.now (map R.state routers.old) now }
    ensures hear { IfOk result (λ sent. AllHear now sender frame.now.frame.bytes
        (hearers_of scenario.now.arcs frame.now.router frame.now.frame.iface) (map R.state routers.old) (map R.state routers.new) sent.items) }
    ensures routers { OnOk result (CanHear scenario.now (map R.state routers.new) now) }
    ensures sent { IfOk result (λ sent. All (IsOfInterface scenario.now) sent.items) }
{
    let heard = typed(alloc, &frame.frame)?;
    let mut sent = Vec::new(alloc);
    for arc in scenario.arcs.as_slice() {
        if is_arc_from(arc, frame.router, frame.frame.iface) {
            hear_one(alloc, routers, arc, now, sender, &heard, &mut sent)?;
        }
    }
    Ok(sent)
}

/// The frames that wait are heard at one moment, first sent first, and what is sent waits behind them, until all are heard. There
/// are never more frames than there are interfaces.
pub(crate) fn flood<R: RouterCore>(
    alloc: Global,
    routers: &mut [R],
    scenario: &Scenario,
    now: u64,
    frames: &mut Vec<Transmission>,
) -> Result<(), AllocError>
    requires early { now < 2 ^ 62 }
    requires routers { CanHear scenario.now (map R.state routers.old) now }
    requires frames { All (IsOfInterface scenario.now) frames.old.items }
    requires once { SendsOnceFrom scenario.now now (map R.state routers.old) frames.old.items }
    ensures { OnOk result (Flood scenario.now now (map R.state routers.old) frames.old.items (map R.state routers.new) frames.new.items) }
{
    let mut next = 0;
    while next < frames.len() {
        let frame = &frames[next];
        let sender = sender_of(scenario, frame);
        let mut sent = hear_all(alloc, routers, scenario, now, sender, frame)?;
        frames.append(&mut sent)?;
        next += 1;
    }
    Ok(())
}
