//! What is told of an event behind its line.
ghost use Rattle.std.specs.Prelude.{◌≡◌, [], IfOk};
ghost use Rattle.mesh_replay.specs.Checking.Cases.{IsEventOf, MayBeIn, IsProgress, TellsItems};
ghost use Rattle.mesh_replay.specs.Checking.Ending.{TellsWholeEvent};
ghost use Rattle.mesh_replay.specs.Checking.Kept.{HasLines, IsSoundRouter, event_items, sent_items};
ghost use Rattle.mesh_replay.specs.Checking.RelayLines.{IsBegun};

use crate::checking::case::{Case, CheckedEvent, Progress};
use crate::checking::frames::tell_outbox;
use crate::checking::hellos::tell_hellos;
use crate::checking::relays::tell_relays;
use crate::checking::router::{EventLines, RouterOfTrace};
use crate::checking::tcs::tell_tcs;
use std::alloc::{AllocError, Global};

// Takes the lines of what an event sends: HELLOs, TCs, and what is forwarded.
fn tell_sent<R: RouterOfTrace>(
    alloc: Global,
    case: &Case,
    event: &CheckedEvent,
    router: &R,
    lines: &EventLines,
    progress: &mut Progress,
) -> Result<bool, AllocError>
    requires event { IsEventOf case.now event.now }
    requires progress { IsProgress case.now progress.old }
    requires router { MayBeIn event.now (R.state router.now) }
    requires sound { IsSoundRouter (R.state router.now) }
    requires lines { HasLines (R.state router.now) lines.now }
    ensures { IfOk result (TellsItems case.now progress.old progress.new event.now (λ s. s ≡ R.state router.now) (λ s. sent_items (R.state router.now) lines.now) (λ s. [])) }
{
    if !tell_hellos(alloc, case, event, router, lines.hellos, progress)? {
        return Ok(false);
    }
    if !tell_tcs(alloc, case, event, router, lines, progress)? {
        return Ok(false);
    }
    tell_outbox(alloc, case, event, &lines.out, progress)
}

/// Takes the lines of an event behind the first: those of the relays, which its router then has, and of what it sends.
pub(crate) fn tell_event<R: RouterOfTrace>(
    alloc: Global,
    case: &Case,
    event: &CheckedEvent,
    router: &mut R,
    lines: &EventLines,
    progress: &mut Progress,
) -> Result<bool, AllocError>
    requires event { IsEventOf case.now event.now }
    requires progress { IsProgress case.now progress.old }
    requires begun { IsBegun event.now (R.state router.old) lines.now.before }
    requires lines { HasLines (R.state router.old) lines.now }
    ensures { IfOk result (TellsWholeEvent case.now progress.old progress.new event.now (R.state router.old) (event_items (R.state router.old) lines.now) (R.state router.new)) }
{
    let Some(relays) = tell_relays(alloc, case, event, router, &lines.before, progress)? else {
        return Ok(false);
    };
    router.take_relays(relays);
    tell_sent(alloc, case, event, router, lines, progress)
}
