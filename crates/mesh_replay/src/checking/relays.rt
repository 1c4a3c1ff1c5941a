//! The relay lines of an event.
ghost use Rattle.std.specs.Prelude.{◌≡◌, ◌↔◌, IfOk, IsTrue, option_copied};
ghost use Rattle.mesh_atoms.specs.Words.{IsAscending};
ghost use Rattle.mesh_trace.specs.Positions.Alike.{HasAddresses};
ghost use Rattle.mesh_trace.specs.Reading.Readers.{IsReaderOf};
ghost use Rattle.mesh_replay.specs.Checking.Cases.{IsProgress};
ghost use Rattle.mesh_replay.specs.Checking.Kept.{IsSoundRouter};
ghost use Rattle.mesh_replay.specs.Checking.RelayLines.{AreWide, IsAgain, IsBegun, MayTell, TellsFlooding, TellsRelays, again};
ghost use Rattle.mesh_replay.specs.Checking.Texts.{ReadsNext, TakesNext, told_text};

use crate::checking::case::{Case, CheckedEvent, Progress};
use crate::checking::lines::{DueLine, put_front, take_due};
use crate::checking::router::{Before, RouterOfTrace};
use crate::checking::words::relays_in;
use mesh_atoms::{Addr4, Relays, RouterSettings, Seq};
use mesh_relay::serves;
use mesh_trace::Reader;
use std::alloc::{AllocError, Global};

// Whether each address stands before the next.
fn is_ascending(addrs: &[Addr4]) -> bool
    ensures { IsTrue result ↔ IsAscending addrs.now }
{
    for i in 1..addrs.len() {
        if addrs[i - 1].0 >= addrs[i].0 {
            return false;
        }
    }
    true
}

// Whether the router may choose these relays, for an interface or for routing.
fn may_be<R: RouterOfTrace>(
    alloc: Global,
    router: &R,
    iface: Option<usize>,
    relays: &[Addr4],
) -> Result<bool, AllocError>
    requires { IsSoundRouter (R.state router.now) }
    ensures { IfOk result (λ b. IsTrue b ↔ MayTell (R.state router.now) iface relays.now) }
{
    if !is_ascending(relays) {
        return Ok(false);
    }
    let graph = router.graph(alloc, iface)?;
    serves(alloc, &graph, relays)
}

// The relays that the next line tells, for an interface or for routing.
fn relays_next(
    alloc: Global,
    trace: &[u8],
    settings: &RouterSettings,
    iface: Option<usize>,
    reader: &mut Reader,
) -> Result<Option<Seq<Addr4>>, AllocError>
    requires { IsReaderOf trace.now reader.old }
    ensures { IfOk result (ReadsNext AreWide (told_text settings.now iface) trace.now reader.old reader.new) }
{
    reader.text.clear();
    put_front(&mut reader.text, settings, iface)?;
    match reader.rest(trace) {
        Some(rest) => relays_in(alloc, rest),
        None => Ok(None),
    }
}

// Takes the next line, where it tells relays that the router may choose.
fn other_relays<R: RouterOfTrace>(
    alloc: Global,
    trace: &[u8],
    event: &CheckedEvent,
    router: &R,
    iface: Option<usize>,
    reader: &mut Reader,
) -> Result<Option<Seq<Addr4>>, AllocError>
    requires reading { IsReaderOf trace.now reader.old }
    requires sound { IsSoundRouter (R.state router.now) }
    requires addresses { HasAddresses (R.state router.now) }
    ensures { IfOk result (TakesNext (MayTell (R.state router.now) iface) (told_text event.now.settings.now iface) trace.now reader.old reader.new) }
{
    let Some(relays) = relays_next(alloc, trace, event.settings, iface, reader)? else {
        return Ok(None);
    };
    if !may_be(alloc, router, iface, relays.as_slice())? {
        return Ok(None);
    }
    reader.take(trace);
    Ok(Some(relays))
}

// The relays of the event before, for an interface or for routing, where they are for sure good again.
fn relays_again(before: &Before, iface: Option<usize>) -> Option<&Seq<Addr4>>
    ensures { option_copied result ≡ again before.now iface }
{
    if !before.stand {
        return None;
    }
    match iface {
        Some(iface) => before.relays.flooding.get(iface),
        None => Some(&before.relays.routing),
    }
}

// Takes the next line, where it tells the relays of the event before again, and these are for sure good.
fn same_relays(
    trace: &[u8],
    event: &CheckedEvent,
    before: &Before,
    iface: Option<usize>,
    reader: &mut Reader,
) -> Result<Option<Seq<Addr4>>, AllocError>
    requires { IsReaderOf trace.now reader.old }
    ensures { IfOk result (TakesNext (IsAgain before.now iface) (told_text event.now.settings.now iface) trace.now reader.old reader.new) }
{
    let Some(relays) = relays_again(before, iface) else {
        return Ok(None);
    };
    let line = DueLine::Relays {
        settings: event.settings,
        iface,
        relays: relays.as_slice(),
    };
    if take_due(trace, &line, reader)? {
        Ok(Some(relays.copy()?))
    } else {
        Ok(None)
    }
}

// Takes a relay line, and gives the relays that it tells; `None` where the next line is none that fits.
fn told_relays<R: RouterOfTrace>(
    alloc: Global,
    trace: &[u8],
    event: &CheckedEvent,
    router: &R,
    before: &Before,
    iface: Option<usize>,
    reader: &mut Reader,
) -> Result<Option<Seq<Addr4>>, AllocError>
    requires reading { IsReaderOf trace.now reader.old }
    requires begun { IsBegun event.now (R.state router.now) before.now }
    ensures { IfOk result (TakesNext (MayTell (R.state router.now) iface) (told_text event.now.settings.now iface) trace.now reader.old reader.new) }
{
    if let Some(relays) = same_relays(trace, event, before, iface, reader)? {
        return Ok(Some(relays));
    }
    other_relays(alloc, trace, event, router, iface, reader)
}

// Takes the lines of the flooding relays, and gives the relays of each interface; `None` where a line doesn't fit.
fn tell_flooding<R: RouterOfTrace>(
    alloc: Global,
    case: &Case,
    event: &CheckedEvent,
    router: &R,
    before: &Before,
    progress: &mut Progress,
) -> Result<Option<Seq<Seq<Addr4>>>, AllocError>
    requires progress { IsProgress case.now progress.old }
    requires begun { IsBegun event.now (R.state router.now) before.now }
    ensures { IfOk result (TellsFlooding case.now progress.old progress.new event.now (R.state router.now)) }
{
    let mut flooding = Seq::new(alloc);
    for iface in 0..event.settings.interfaces.len() {
        let iface = Some(iface);
        match told_relays(
            alloc,
            case.trace,
            event,
            router,
            before,
            iface,
            &mut progress.reader,
        )? {
            Some(relays) => flooding.push(relays)?,
            None => return Ok(None),
        }
    }
    Ok(Some(flooding))
}

/// Takes the relay lines of an event, and gives the relays that they tell; `None` where one doesn't fit.
pub(crate) fn tell_relays<R: RouterOfTrace>(
    alloc: Global,
    case: &Case,
    event: &CheckedEvent,
    router: &R,
    before: &Before,
    progress: &mut Progress,
) -> Result<Option<Relays>, AllocError>
    requires progress { IsProgress case.now progress.old }
    requires begun { IsBegun event.now (R.state router.now) before.now }
    ensures { IfOk result (TellsRelays case.now progress.old progress.new event.now (R.state router.now)) }
{
    let Some(flooding) = tell_flooding(alloc, case, event, router, before, progress)? else {
        return Ok(None);
    };
    let routing = told_relays(
        alloc,
        case.trace,
        event,
        router,
        before,
        None,
        &mut progress.reader,
    )?;
    match routing {
        Some(routing) => Ok(Some(Relays { flooding, routing })),
        None => Ok(None),
    }
}
