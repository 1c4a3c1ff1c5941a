//! Frames that an event sends: the lines of those whose octets are fixed, and of the arcs on which frames are lost.
ghost use Rattle.std.specs.Prelude.{◌∷◌, ◌<◌, [], map, drop, length, IfOk};
ghost use Rattle.mesh_trace.specs.machine.Frames.{on_each};
ghost use Rattle.mesh_trace.specs.Positions.Standing.{Lost};
ghost use Rattle.mesh_replay.specs.Checking.Cases.{AnyState, IsEventOf, IsProgress, TellsItems};
ghost use Rattle.mesh_replay.specs.Checking.Sending.{AreOnFaces, GoesOut, TellsSentFrames};

use crate::checking::case::{Case, CheckedEvent, Progress};
use crate::checking::lines::{DueLine, take_due};
use mesh_atoms::Bytes;
use mesh_bases::Outbox;
use mesh_texts::FrameLine;
use std::alloc::{AllocError, Global};
use std::rc::Rc;

// Takes the lines of the losses of a frame on these arcs.
fn tell_losses(
    case: &Case,
    event: &CheckedEvent,
    lost: &[usize],
    progress: &mut Progress,
) -> Result<bool, AllocError>
    requires { IsProgress case.now progress.old }
    ensures { IfOk result (TellsItems case.now progress.old progress.new event.now AnyState (λ s. map Lost lost.now) (λ s. [])) }
{
    for arc in lost {
        let line = DueLine::Lost {
            moment: event.moment,
            scenario: case.scenario,
            arc: *arc,
        };
        if !take_due(case.trace, &line, &mut progress.reader)? {
            return Ok(false);
        }
    }
    Ok(true)
}

/// Sends a frame on an interface, and takes the lines of the arcs on which it is lost.
pub(crate) fn send_out(
    case: &Case,
    event: &CheckedEvent,
    iface: usize,
    frame: &Rc<Bytes>,
    progress: &mut Progress,
) -> Result<bool, AllocError>
    requires event { IsEventOf case.now event.now }
    requires progress { IsProgress case.now progress.old }
    requires iface { iface < length event.now.settings.now.interfaces }
    ensures { IfOk result (GoesOut case.now progress.old progress.new event.now (record { iface = iface; bytes = frame.now.value })) }
{
    let lost = progress.traffic.send(
        case.scenario,
        &case.ways,
        event.moment,
        event.router,
        iface,
        frame,
    )?;
    tell_losses(case, event, lost.as_slice(), progress)
}

// Takes the lines of a frame of these very octets on an interface: the line of the frame, and those of the arcs on which it is lost.
fn tell_frame(
    case: &Case,
    event: &CheckedEvent,
    iface: usize,
    frame: &Rc<Bytes>,
    progress: &mut Progress,
) -> Result<bool, AllocError>
    requires event { IsEventOf case.now event.now }
    requires progress { IsProgress case.now progress.old }
    requires iface { iface < length event.now.settings.now.interfaces }
    ensures { IfOk result (TellsSentFrames case.now progress.old progress.new event.now (record { iface = iface; bytes = frame.now.value } ∷ [])) }
{
    let line = DueLine::Frame(FrameLine {
        moment: event.moment,
        router: event.settings,
        iface,
        sender: None,
        frame: frame.as_ref().as_slice(),
    });
    if !take_due(case.trace, &line, &mut progress.reader)? {
        return Ok(false);
    }
    send_out(case, event, iface, frame, progress)
}

/// Takes the lines of a frame of these very octets on each interface but the first.
pub(crate) fn tell_further(
    case: &Case,
    event: &CheckedEvent,
    frame: &Rc<Bytes>,
    progress: &mut Progress,
) -> Result<bool, AllocError>
    requires event { IsEventOf case.now event.now }
    requires progress { IsProgress case.now progress.old }
    ensures { IfOk result (TellsSentFrames case.now progress.old progress.new event.now
        (drop 1 (on_each (length event.now.settings.now.interfaces) frame.now.value))) }
{
    for iface in 1..event.settings.interfaces.len() {
        if !tell_frame(case, event, iface, frame, progress)? {
            return Ok(false);
        }
    }
    Ok(true)
}

// Takes the lines of a frame of these octets, which the router forwards.
fn tell_forwarded(
    alloc: Global,
    case: &Case,
    event: &CheckedEvent,
    iface: usize,
    octets: &[u8],
    progress: &mut Progress,
) -> Result<bool, AllocError>
    requires event { IsEventOf case.now event.now }
    requires progress { IsProgress case.now progress.old }
    requires iface { iface < length event.now.settings.now.interfaces }
    ensures { IfOk result (TellsSentFrames case.now progress.old progress.new event.now (record { iface = iface; bytes = octets.now } ∷ [])) }
{
    let mut bytes = Bytes::new(alloc);
    bytes.append(octets)?;
    let frame = Rc::new(alloc, bytes)?;
    tell_frame(case, event, iface, &frame, progress)
}

/// Takes the lines of the frames that the router forwards.
pub(crate) fn tell_outbox(
    alloc: Global,
    case: &Case,
    event: &CheckedEvent,
    out: &Outbox,
    progress: &mut Progress,
) -> Result<bool, AllocError>
    requires event { IsEventOf case.now event.now }
    requires progress { IsProgress case.now progress.old }
    requires faces { AreOnFaces event.now.settings.now out.now }
    ensures { IfOk result (TellsSentFrames case.now progress.old progress.new event.now out.now) }
{
    for i in 0..out.len() {
        let Some((iface, octets)) = out.frame(i) else {
            break;
        };
        if !tell_forwarded(alloc, case, event, iface, octets, progress)? {
            return Ok(false);
        }
    }
    Ok(true)
}
