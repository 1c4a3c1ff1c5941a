//! The lines of an event of an emulated network, put behind other octets.
ghost use Rattle.std.specs.Prelude.{◌≡◌, ◌++◌, codes, decimal, OnOk, Some};
ghost use Rattle.std.specs.List.{flat_map, enumerate_from};
ghost use Rattle.mesh_settled.specs.machine.packet.Least.{Wrote};
ghost use Rattle.mesh_settled.specs.machine.tlv.Least.{Grows};
ghost use Rattle.mesh_settled.specs.machine.Names.{router_name};
ghost use Rattle.mesh_texts.specs.Lines.Marks.{face_name, faces_of};
ghost use Rattle.mesh_texts.specs.Trace.{tick_line, frame_line, event_line, flooding_relays_line, routing_relays_line, relays_lines, arc_line, lost_line, sent_lines, event_text, IsFrameTaken, IsEventText};

use crate::lines::Piece::{Address, Hex, Number, Text};
use crate::lines::{
    face_name, faces_of, put_flooding_line, put_labelled, put_line, put_routing_line,
};
use mesh_atoms::{
    Addr4, Bytes, Emission, Interface, NetEvent, RadioArc, RouterSettings, Scenario, Seq,
};
use mesh_settled::{RouterView, router_name};
use std::alloc::AllocError;

/// Puts the line of a tick.
#[tactic(auto, unfolding(crate::specs::Trace::tick_line))]
pub fn put_tick_line(out: &mut Bytes, moment: u64, router: &[u8]) -> Result<(), AllocError>
    ensures ok { OnOk result (out.new ≡ out.old ++ tick_line moment router.now) }
    ensures kept { Grows out.old out.new }
{
    put_line(out, &[(b"tick ", Number(moment)), (b" ", Text(router))])
}

/// What the line of a frame tells: the moment in ticks of 1/8192 s, the router, the number of its interface, the sender from whom the
/// router heard the frame there, or none where it sent the frame, and the frame's octets.
#[derive(Clone, Copy)]
pub struct FrameLine<'a> {
    pub moment: u64,
    pub router: &'a RouterSettings,
    pub iface: usize,
    pub sender: Option<Addr4>,
    pub frame: &'a [u8],
}

// Puts how the line of a frame begins: its kind, its moment, and the names of the router and of the interface.
fn put_frame_front(out: &mut Bytes, kind: &[u8], line: &FrameLine) -> Result<(), AllocError>
    ensures ok { OnOk result (out.new ≡ out.old ++ (kind.now ++ decimal line.now.moment ++ codes " " ++ line.now.router.now.name
        ++ codes " " ++ face_name line.now.router.now.interfaces line.now.iface)) }
    ensures kept { Grows out.old out.new }
{
    let router = line.router;
    let face = face_name(router.interfaces.as_slice(), line.iface);
    put_labelled(out, kind, Number(line.moment))?;
    put_labelled(out, b" ", Text(router.name.as_slice()))?;
    put_labelled(out, b" ", Text(face))
}

/// Puts the line of a frame that a router hears or sends.
#[tactic(auto, unfolding(crate::specs::Trace::heard_line, crate::specs::Trace::sent_line))]
pub fn put_frame_line(out: &mut Bytes, line: &FrameLine) -> Result<(), AllocError>
    ensures ok { OnOk result (out.new ≡ out.old ++ frame_line line.now) }
    ensures kept { Grows out.old out.new }
{
    match line.sender {
        Some(sender) => {
            put_frame_front(out, b"heard ", line)?;
            put_line(out, &[(b" ", Address(sender)), (b" ", Hex(line.frame))])
        }
        None => {
            put_frame_front(out, b"sent ", line)?;
            put_line(out, &[(b" ", Hex(line.frame))])
        }
    }
}

// Puts what happened to the router with these settings.
#[tactic(auto, unfolding(crate::specs::Trace::event_line))]
fn put_event_line(
    out: &mut Bytes,
    event: &NetEvent,
    router: &RouterSettings,
) -> Result<(), AllocError>
    ensures ok { OnOk result (out.new ≡ out.old ++ event_line event.now router.now) }
    ensures kept { Grows out.old out.new }
{
    match &event.heard {
        None => put_tick_line(out, event.moment, router.name.as_slice()),
        Some((iface, sender, frame)) => put_frame_line(
            out,
            &FrameLine {
                moment: event.moment,
                router,
                iface: *iface,
                sender: Some(*sender),
                frame: frame.as_slice(),
            },
        ),
    }
}

/// Puts the line of the flooding relays of an interface, by its number among the lists of all interfaces.
#[tactic(auto, unfolding(crate::specs::Trace::flooding_relays_line, crate::specs::Lines::Lines::flooding_line))]
pub fn put_flooding_relays_line<'a>(
    out: &mut Bytes,
    router: &'a [u8],
    relays: &'a [Seq<Addr4>],
    iface: usize,
    face: &'a Interface,
) -> Result<(), AllocError>
    ensures ok { OnOk result (out.new ≡ out.old ++ flooding_relays_line router.now relays.now (iface, face.now)) }
    ensures kept { Grows out.old out.new }
{
    put_labelled(out, b"relays ", Text(router))?;
    put_flooding_line(out, relays, iface, face)
}

/// Puts the line of the routing relays.
#[tactic(auto, unfolding(crate::specs::Trace::routing_relays_line, crate::specs::Lines::Lines::routing_line))]
pub fn put_routing_relays_line<'a>(
    out: &mut Bytes,
    router: &'a [u8],
    relays: &'a [Addr4],
) -> Result<(), AllocError>
    ensures ok { OnOk result (out.new ≡ out.old ++ routing_relays_line router.now relays.now) }
    ensures kept { Grows out.old out.new }
{
    put_labelled(out, b"relays ", Text(router))?;
    put_routing_line(out, relays)
}

// Puts the flooding relays of all interfaces.
fn put_all_flooding_relays(
    out: &mut Bytes,
    router: &[u8],
    relays: &[Seq<Addr4>],
    faces: &[Interface],
) -> Result<(), AllocError>
    ensures ok { OnOk result (out.new ≡ out.old
        ++ flat_map (flooding_relays_line router.now relays.now) (enumerate_from 0 faces.now)) }
    ensures kept { Grows out.old out.new }
{
    for iface in 0..faces.len() {
        put_flooding_relays_line(out, router, relays, iface, &faces[iface])?;
    }
    Ok(())
}

// Puts the relays that a router has: of each interface, then for routing.
#[tactic(auto, unfolding(crate::specs::Trace::relays_lines))]
fn put_relays_lines<R: RouterView>(out: &mut Bytes, router: &R) -> Result<(), AllocError>
    ensures ok { OnOk result (out.new ≡ out.old ++ relays_lines (R.state router.now)) }
    ensures kept { Grows out.old out.new }
{
    let settings = router.settings();
    let name = settings.name.as_slice();
    let relays = router.relays();
    put_all_flooding_relays(
        out,
        name,
        relays.flooding.as_slice(),
        settings.interfaces.as_slice(),
    )?;
    put_routing_relays_line(out, name, relays.routing.as_slice())
}

// Puts that a frame was lost on an arc between these routers.
#[tactic(auto, unfolding(crate::specs::Trace::loss_line))]
fn put_arc_line(
    out: &mut Bytes,
    routers: &[RouterSettings],
    moment: u64,
    arc: RadioArc,
) -> Result<(), AllocError>
    ensures ok { OnOk result (out.new ≡ out.old ++ arc_line routers.now moment (Some arc)) }
    ensures kept { Grows out.old out.new }
{
    let from = router_name(routers, arc.from);
    let from_face = face_name(faces_of(routers, arc.from), arc.from_iface);
    let to = router_name(routers, arc.to);
    let to_face = face_name(faces_of(routers, arc.to), arc.to_iface);
    put_line(
        out,
        &[
            (b"lost ", Number(moment)),
            (b" ", Text(from)),
            (b".", Text(from_face)),
            (b" ", Text(to)),
            (b".", Text(to_face)),
        ],
    )
}

/// Puts the line of a frame that is lost on the arc of that number; nothing where the scenario has no such arc.
#[tactic(auto, unfolding(crate::specs::Trace::lost_line))]
pub fn put_lost_line(
    out: &mut Bytes,
    scenario: &Scenario,
    moment: u64,
    arc: usize,
) -> Result<(), AllocError>
    ensures ok { OnOk result (out.new ≡ out.old ++ lost_line scenario.now moment arc) }
    ensures kept { Grows out.old out.new }
{
    match scenario.arcs.as_slice().get(arc) {
        Some(arc) => put_arc_line(out, scenario.routers.as_slice(), moment, *arc),
        None => Ok(()),
    }
}

// Puts on which arcs a frame was lost.
fn put_lost_lines(
    out: &mut Bytes,
    scenario: &Scenario,
    moment: u64,
    lost: &[usize],
) -> Result<(), AllocError>
    ensures ok { OnOk result (out.new ≡ out.old ++ flat_map (lost_line scenario.now moment) lost.now) }
    ensures kept { Grows out.old out.new }
{
    for arc in lost {
        put_lost_line(out, scenario, moment, *arc)?;
    }
    Ok(())
}

// Puts a frame that was sent, and on which arcs it was lost.
#[tactic(auto, unfolding(crate::specs::Trace::sent_lines))]
fn put_sent_lines(
    out: &mut Bytes,
    scenario: &Scenario,
    moment: u64,
    router: &RouterSettings,
    sent: &Emission,
) -> Result<(), AllocError>
    ensures ok { OnOk result (out.new ≡ out.old ++ sent_lines scenario.now moment router.now sent.now) }
    ensures kept { Grows out.old out.new }
{
    let line = FrameLine {
        moment,
        router,
        iface: sent.iface,
        sender: None,
        frame: sent.frame.as_slice(),
    };
    put_frame_line(out, &line)?;
    put_lost_lines(out, scenario, moment, sent.lost.as_slice())
}

// Puts the frames that were sent.
fn put_all_sent(
    out: &mut Bytes,
    scenario: &Scenario,
    moment: u64,
    router: &RouterSettings,
    sent: &[Emission],
) -> Result<(), AllocError>
    ensures ok { OnOk result (out.new ≡ out.old ++ flat_map (sent_lines scenario.now moment router.now) sent.now) }
    ensures kept { Grows out.old out.new }
{
    for emission in sent {
        put_sent_lines(out, scenario, moment, router, emission)?;
    }
    Ok(())
}

// Puts what happened to a router, its relays, and what it sent.
#[tactic(auto, unfolding(crate::specs::Trace::event_text))]
fn put_happening<R: RouterView>(
    out: &mut Bytes,
    scenario: &Scenario,
    event: &NetEvent,
    router: &R,
) -> Result<(), AllocError>
    ensures ok { OnOk result (out.new ≡ out.old ++ event_text scenario.now event.now (R.state router.now)) }
    ensures kept { Grows out.old out.new }
{
    let settings = router.settings();
    put_event_line(out, event, settings)?;
    put_relays_lines(out, router)?;
    put_all_sent(out, scenario, event.moment, settings, event.sent.as_slice())
}

/// Puts the lines of an event of an emulated network, after which its router is so: what happened to it, the relays that it then
/// has, and each frame that it sent with the arcs on which it was lost. What is heard spells a packet, as all frames of a run do.
/// An allocation failure leaves a part of it behind what was there.
pub fn put_event<R: RouterView>(
    out: &mut Bytes,
    scenario: &Scenario,
    event: &NetEvent,
    router: &R,
) -> Result<(), AllocError>
    requires { IsFrameTaken event.now }
    ensures ok { OnOk result (Wrote (IsEventText scenario.now event.now (R.state router.now)) out.old out.new) }
    ensures kept { Grows out.old out.new }
{
    put_happening(out, scenario, event, router)
}
