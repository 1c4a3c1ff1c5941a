//! The TCs that a router sends when its clock ticks, one for each part of its rows (RFC 7181, sections 16.1 and 16.2).
ghost use Rattle.std.specs.Prelude.{◌≡◌, ◌<◌, ◌≤◌, ◌+◌, ◌%◌, ◌^◌, ◌++◌, ◌↔◌, ℕ, List, Some, length, map, nat_eq, slice_get, IfOk, OnOk, IsTrue};
ghost use Rattle.std.specs.List.{AllPairs};
ghost use Rattle.mesh_atoms.specs.declared.limits.TheConstants.{MOST_TC_ROWS};
ghost use Rattle.mesh_atoms.specs.declared.tc.Tc.{Tc as TcValue};
ghost use Rattle.mesh_atoms.specs.Advertised.{AreTcRows};
ghost use Rattle.mesh_atoms.specs.Codes.Codes.{time_at_distance};
ghost use Rattle.mesh_atoms.specs.Nodes.{IsBefore};
ghost use Rattle.mesh_atoms.specs.State.{State};
ghost use Rattle.mesh_atoms.specs.Validity.{IsTimeValue};
ghost use Rattle.mesh_atoms.specs.Writable.{IsSentIfSome};
ghost use Rattle.mesh_topo.specs.declared.advertised.spans.PartSpan.{PartSpan as SpanValue};
ghost use Rattle.mesh_topo.specs.Advertised.Spans.{part_of};
ghost use Rattle.mesh_bases.specs.Held.Outbox.{OnlyAppends};
ghost use Rattle.mesh_bases.specs.Sending.Sent.{HasRowsOf, TcsAreSent, PartsAreSent};
ghost use Rattle.mesh_machine.specs.declared.frame.Frame.{Frame};
ghost use Rattle.mesh_machine.specs.Sending.{HasToAdvertise, IsTcOfRows, SendsParts};
ghost use Rattle.mesh_wire.specs.Writes.{WritesTc};

use crate::derived::Derived;
use crate::held::Outbox;
use crate::sending::moments::next_moment;
use mesh_atoms::{Bytes, RouterSettings, Seq, Tc, TcRow, time_at, time_at_least};
use mesh_topo::{PartSpan, parts};
use mesh_wire::write_tc;
use std::alloc::{AllocError, Global};

/// Sends a TC for each part of the rows on each interface, where TCs are due and there is something to advertise.
pub fn send_tcs(
    alloc: Global,
    settings: &RouterSettings,
    derived: &mut Derived,
    out: &mut Outbox,
) -> Result<(), AllocError>
    requires now { derived.old.last < 2 ^ 62 }
    requires few { length derived.old.rows ≤ MOST_TC_ROWS }
    requires rows { (s : State) × AreTcRows s derived.old.rows }
    ensures sent { OnOk result ((sent : List Frame) × (out.new ≡ out.old ++ sent) × TcsAreSent settings.now derived.old derived.new sent) }
    ensures others { derived.new ≡ record derived.old { next_tc = derived.new.next_tc; sequence = derived.new.sequence } }
    // Whatever is answered, the frames that stood in `out` stay there.
    ensures appended { OnlyAppends out.old out.new }
{
    let now = derived.last;
    if now < derived.next_tc {
        return Ok(());
    }
    derived.next_tc = next_moment(settings.tc_at, settings.times.tc, now);
    if !has_to_advertise(
        derived.rows.len(),
        derived.emptied,
        now,
        settings.times.advertised_hold,
    ) {
        return Ok(());
    }
    send_parts(alloc, settings, derived, out)
}

/// Whether there is something to advertise in a TC at `now`: rows, or none since the moment at which they became empty, which is less than
/// the hold time ago (RFC 7181, section 16.2). Moments and the hold time are in ticks of 1/8192 s.
pub fn has_to_advertise(rows: usize, emptied: Option<u64>, now: u64, hold: u64) -> bool
    ensures { (s : State) → length s.rows ≡ rows → s.emptied ≡ emptied → s.last ≡ now → s.settings.times.advertised_hold ≡ hold
        → IsTrue result ↔ HasToAdvertise s }
{
    if rows != 0 {
        return true;
    }
    match emptied {
        Some(moment) => now < moment || now - moment < hold,
        None => false,
    }
}

// Sends a TC for each part of the rows on each interface.
fn send_parts(
    alloc: Global,
    settings: &RouterSettings,
    derived: &mut Derived,
    out: &mut Outbox,
) -> Result<(), AllocError>
    requires few { length derived.old.rows ≤ MOST_TC_ROWS }
    requires rows { (s : State) × AreTcRows s derived.old.rows }
    ensures sent { OnOk result ((sent : List Frame) × (out.new ≡ out.old ++ sent) × PartsAreSent settings.now derived.old derived.new sent) }
    ensures others { derived.new ≡ record derived.old { sequence = derived.new.sequence } }
    ensures appended { OnlyAppends out.old out.new }
{
    let validity = settings.validity()?;
    let spans = parts(alloc, derived.rows.len(), settings.tc_rows)?;
    let next = send_spans(
        alloc,
        settings,
        validity.as_slice(),
        spans.as_slice(),
        derived,
        out,
    )?;
    derived.sequence = next;
    Ok(())
}

// Sends a TC for each of these runs of rows on each interface, and gives the sequence number of the next one.
fn send_spans(
    alloc: Global,
    settings: &RouterSettings,
    validity: &[u8],
    spans: &[PartSpan],
    derived: &Derived,
    out: &mut Outbox,
) -> Result<u16, AllocError>
    requires value { IsTimeValue validity.now }
    requires short { length validity.now ≤ 17 }
    requires within { (i : ℕ) (span : SpanValue) → slice_get spans.now i ≡ Some span → span.first + span.len ≤ length derived.now.rows }
    requires few { length derived.now.rows ≤ MOST_TC_ROWS }
    requires rows { (s : State) × AreTcRows s derived.now.rows }
    ensures sent { IfOk result (λ next. (sent : List Frame) × (out.new ≡ out.old ++ sent) × (next ≡ (derived.now.sequence + length spans.now) % 65536)
        × ((s : State) → s.settings ≡ settings.now → HasRowsOf s derived.now →
        SendsParts s validity.now (nat_eq (length spans.now) 1) derived.now.sequence (map (part_of derived.now.rows) spans.now) sent)) }
    ensures appended { OnlyAppends out.old out.new }
{
    let complete = spans.len() == 1;
    let mut sequence = derived.sequence;
    for i in 0..spans.len() {
        let bytes = part_bytes(
            alloc, settings, derived, validity, complete, sequence, spans[i],
        )?;
        out.send_on_each(settings.interfaces.len(), bytes.as_slice())?;
        sequence = sequence.wrapping_add(1);
    }
    Ok(sequence)
}

// The TC of a run of rows, as a packet.
fn part_bytes(
    alloc: Global,
    settings: &RouterSettings,
    derived: &Derived,
    validity: &[u8],
    complete: bool,
    sequence: u16,
    span: PartSpan,
) -> Result<Bytes, AllocError>
    requires value { IsTimeValue validity.now }
    requires short { length validity.now ≤ 17 }
    requires within { span.first + span.len ≤ length derived.now.rows }
    requires few { length derived.now.rows ≤ MOST_TC_ROWS }
    requires rows { (s : State) × AreTcRows s derived.now.rows }
    ensures { IfOk result (λ bytes. (tc : TcValue) × WritesTc tc settings.now.times.tc_hop_limit validity.now bytes × ((s : State) → s.settings ≡ settings.now →
        HasRowsOf s derived.now → IsTcOfRows s validity.now complete sequence (part_of derived.now.rows span) tc)) }
{
    let rows = rows_of(derived.rows.as_slice(), span);
    let tc = tc_of_rows(
        alloc,
        settings,
        derived.ansn,
        validity,
        complete,
        sequence,
        rows,
    )?;
    write_tc(alloc, &tc, settings.times.tc_hop_limit, validity)
}

// The rows of a run.
fn rows_of(rows: &[TcRow], span: PartSpan) -> &[TcRow]
    requires { span.first + span.len ≤ length rows.now }
    ensures { result.now ≡ part_of rows.now span }
{
    &rows[span.first..span.first + span.len]
}

/// The TC of some of the rows, which stand in order, with that ANSN, its validity a time value by distance, and that sequence number;
/// complete where these are all the rows (RFC 7181, section 16.1). Only an allocation failure refuses.
pub fn tc_of_rows(
    alloc: Global,
    settings: &RouterSettings,
    ansn: u16,
    validity: &[u8],
    complete: bool,
    sequence: u16,
    rows: &[TcRow],
) -> Result<Tc, AllocError>
    requires value { IsTimeValue validity.now }
    requires ordered { AllPairs (λ r t. IsBefore r.dest t.dest) rows.now }
    ensures is { IfOk result (λ tc. (s : State) → s.settings ≡ settings.now → s.ansn ≡ ansn → IsTcOfRows s validity.now complete sequence rows.now tc) }
    ensures rows { IfOk result (λ tc. tc.rows ≡ rows.now) }
    ensures near { IfOk result (λ tc. time_at_distance 1 validity.now ≡ tc.validity) }
    ensures interval { IfOk result (λ tc. IsSentIfSome tc.interval) }
{
    Ok(Tc {
        originator: settings.originator(),
        sequence,
        ansn,
        complete,
        validity: time_nearby(validity),
        interval: Some(time_at_least(settings.times.tc)),
        rows: Seq::from_vec(Vec::from_slice(alloc, rows)?),
    })
}

// The time that a value by distance gives to whoever is one hop away.
fn time_nearby(value: &[u8]) -> u64
    requires { IsTimeValue value.now }
    ensures { result ≡ time_at_distance 1 value.now }
{
    match time_at(value, 1) {
        Some(ticks) => ticks,
        None => 0,
    }
}
