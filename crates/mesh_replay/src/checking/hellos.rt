//! The lines of HELLOs that are sent.
ghost use Rattle.std.specs.Prelude.{◌≡◌, ◌∷◌, ◌<◌, [], length, IfOk};
ghost use Rattle.mesh_trace.specs.Positions.Standing.{Hello};
ghost use Rattle.mesh_replay.specs.Checking.Cases.{IsEventOf, MayBeIn, IsProgress, TellsItems};
ghost use Rattle.mesh_replay.specs.Checking.Kept.{IsSoundRouter, hello_items};
ghost use Rattle.mesh_replay.specs.Checking.Sending.{HasHello};

use crate::checking::case::{Case, CheckedEvent, Progress};
use crate::checking::frames::send_out;
use crate::checking::octets::{DueMessage, take_message};
use crate::checking::router::RouterOfTrace;
use mesh_atoms::Hello as HelloMessage;
use std::alloc::{AllocError, Global};
use std::rc::Rc;

// Takes the lines of this HELLO of an interface.
fn tell_hello(
    alloc: Global,
    case: &Case,
    event: &CheckedEvent,
    iface: usize,
    hello: &HelloMessage,
    progress: &mut Progress,
) -> Result<bool, AllocError>
    requires event { IsEventOf case.now event.now }
    requires progress { IsProgress case.now progress.old }
    requires iface { iface < length event.now.settings.now.interfaces }
    ensures { IfOk result (TellsItems case.now progress.old progress.new event.now (HasHello iface hello.now) (λ s. Hello iface ∷ []) (λ s. [])) }
{
    let message = DueMessage::Hello { hello };
    let Some(octets) = take_message(
        alloc,
        case.trace,
        event,
        iface,
        &message,
        &mut progress.reader,
    )?
    else {
        return Ok(false);
    };
    let frame = Rc::new(alloc, octets)?;
    send_out(case, event, iface, &frame, progress)
}

// Takes the lines of the HELLO that the router has on an interface.
fn tell_hello_of<R: RouterOfTrace>(
    alloc: Global,
    case: &Case,
    event: &CheckedEvent,
    router: &R,
    iface: usize,
    progress: &mut Progress,
) -> Result<bool, AllocError>
    requires event { IsEventOf case.now event.now }
    requires progress { IsProgress case.now progress.old }
    requires router { MayBeIn event.now (R.state router.now) }
    requires sound { IsSoundRouter (R.state router.now) }
    requires iface { iface < length event.now.settings.now.interfaces }
    ensures { IfOk result (TellsItems case.now progress.old progress.new event.now (λ s. s ≡ R.state router.now) (λ s. Hello iface ∷ []) (λ s. [])) }
{
    let hello = router.hello(alloc, iface)?;
    tell_hello(alloc, case, event, iface, &hello, progress)
}

/// Takes the lines of the HELLO that the router has on each interface, where they are due.
pub(crate) fn tell_hellos<R: RouterOfTrace>(
    alloc: Global,
    case: &Case,
    event: &CheckedEvent,
    router: &R,
    due: bool,
    progress: &mut Progress,
) -> Result<bool, AllocError>
    requires event { IsEventOf case.now event.now }
    requires progress { IsProgress case.now progress.old }
    requires router { MayBeIn event.now (R.state router.now) }
    requires sound { IsSoundRouter (R.state router.now) }
    ensures { IfOk result (TellsItems case.now progress.old progress.new event.now (λ s. s ≡ R.state router.now) (λ s. hello_items (R.state router.now) due) (λ s. [])) }
{
    if !due {
        return Ok(true);
    }
    for iface in 0..event.settings.interfaces.len() {
        if !tell_hello_of(alloc, case, event, router, iface, progress)? {
            return Ok(false);
        }
    }
    Ok(true)
}
