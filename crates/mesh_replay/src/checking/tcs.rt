//! The lines of TCs that are sent.
ghost use Rattle.std.specs.Prelude.{◌≡◌, ◌∷◌, [], ◌+◌, ◌≤◌, ℕ, Some, length, slice_get, IfOk};
ghost use Rattle.mesh_atoms.specs.Validity.{IsValidity};
ghost use Rattle.mesh_topo.specs.Advertised.Spans.{part_of};
ghost use Rattle.mesh_trace.specs.Positions.Standing.{Tc as Told_tc};
ghost use Rattle.mesh_replay.specs.Checking.Cases.{IsEventOf, MayBeIn, IsProgress, TellsItems};
ghost use Rattle.mesh_replay.specs.Checking.Kept.{AreWithinRows, IsSoundRouter, span_items, tc_items};
ghost use Rattle.mesh_replay.specs.Checking.Sending.{AreDueRows, HasAnsn, HasTc};

use crate::checking::case::{Case, CheckedEvent, Progress};
use crate::checking::frames::{send_out, tell_further};
use crate::checking::octets::{DueMessage, take_message};
use crate::checking::router::{EventLines, RouterOfTrace};
use mesh_atoms::{Tc, TcRow};
use mesh_bases::tc_of_rows;
use mesh_topo::PartSpan;
use std::alloc::{AllocError, Global};
use std::rc::Rc;

/// The rows of which TCs are due, with their ANSN, the value of VALIDITY_TIME, and whether each TC has all of them.
#[derive(Clone, Copy)]
pub(crate) struct DueRows<'a> {
    pub(crate) rows: &'a [TcRow],
    pub(crate) ansn: u16,
    pub(crate) validity: &'a [u8],
    pub(crate) complete: bool,
}

// Takes the lines of this TC on each interface.
fn tell_tc(
    alloc: Global,
    case: &Case,
    event: &CheckedEvent,
    tc: &Tc,
    validity: &[u8],
    progress: &mut Progress,
) -> Result<bool, AllocError>
    requires event { IsEventOf case.now event.now }
    requires progress { IsProgress case.now progress.old }
    requires validity { IsValidity event.now.settings.now.times.topology_hold event.now.settings.now.near_hold validity.now }
    ensures { IfOk result (TellsItems case.now progress.old progress.new event.now (HasTc validity.now tc.now)
        (λ s. Told_tc tc.now.complete tc.now.sequence tc.now.rows ∷ []) (λ s. [])) }
{
    let message = DueMessage::Tc { tc, validity };
    let Some(octets) = take_message(alloc, case.trace, event, 0, &message, &mut progress.reader)?
    else {
        return Ok(false);
    };
    let frame = Rc::new(alloc, octets)?;
    if !send_out(case, event, 0, &frame, progress)? {
        return Ok(false);
    }
    tell_further(case, event, &frame, progress)
}

// Takes the lines of the TC of a run of the rows.
fn tell_span(
    alloc: Global,
    case: &Case,
    event: &CheckedEvent,
    due: &DueRows,
    number: u16,
    span: PartSpan,
    progress: &mut Progress,
) -> Result<bool, AllocError>
    requires event { IsEventOf case.now event.now }
    requires progress { IsProgress case.now progress.old }
    requires due { AreDueRows event.now due.now }
    requires within { span.first + span.len ≤ length due.now.rows.now }
    ensures { IfOk result (TellsItems case.now progress.old progress.new event.now (HasAnsn due.now.ansn)
        (λ s. Told_tc due.now.complete number (part_of due.now.rows.now span) ∷ []) (λ s. [])) }
{
    let tc = tc_of_rows(
        alloc,
        event.settings,
        due.ansn,
        due.validity,
        due.complete,
        number,
        &due.rows[span.first..span.first + span.len],
    )?;
    tell_tc(alloc, case, event, &tc, due.validity, progress)
}

// Takes the lines of a TC for each of these runs of the rows, from that sequence number on.
fn tell_spans(
    alloc: Global,
    case: &Case,
    event: &CheckedEvent,
    due: &DueRows,
    sequence: u16,
    spans: &[PartSpan],
    progress: &mut Progress,
) -> Result<bool, AllocError>
    requires event { IsEventOf case.now event.now }
    requires progress { IsProgress case.now progress.old }
    requires due { AreDueRows event.now due.now }
    requires within { AreWithinRows spans.now due.now.rows.now }
    ensures { IfOk result (TellsItems case.now progress.old progress.new event.now (HasAnsn due.now.ansn)
        (λ s. span_items due.now.complete sequence due.now.rows.now spans.now) (λ s. [])) }
{
    let mut number = sequence;
    for span in spans {
        if !tell_span(alloc, case, event, due, number, *span, progress)? {
            return Ok(false);
        }
        number = number.wrapping_add(1);
    }
    Ok(true)
}

/// Takes the lines of the TCs that the router sends.
pub(crate) fn tell_tcs<R: RouterOfTrace>(
    alloc: Global,
    case: &Case,
    event: &CheckedEvent,
    router: &R,
    lines: &EventLines,
    progress: &mut Progress,
) -> Result<bool, AllocError>
    requires event { IsEventOf case.now event.now }
    requires progress { IsProgress case.now progress.old }
    requires router { MayBeIn event.now (R.state router.now) }
    requires sound { IsSoundRouter (R.state router.now) }
    requires within { AreWithinRows lines.now.parts (R.state router.now).rows }
    ensures { IfOk result (TellsItems case.now progress.old progress.new event.now (λ s. s ≡ R.state router.now)
        (λ s. tc_items (R.state router.now) lines.now.sequence lines.now.parts) (λ s. [])) }
{
    let octets = event.settings.validity()?;
    let due = DueRows {
        rows: router.rows(),
        ansn: router.ansn(),
        validity: octets.as_slice(),
        complete: lines.parts.len() == 1,
    };
    tell_spans(
        alloc,
        case,
        event,
        &due,
        lines.sequence,
        lines.parts.as_slice(),
        progress,
    )
}
