//! What follows from the bases of a router at an event that is checked, but for relays, and what is due then.
ghost use Rattle.std.specs.Prelude.{◌≡◌, ◌<◌, ◌^◌, IfOk};
ghost use Rattle.mesh_atoms.specs.State.{State};
ghost use Rattle.mesh_bases.specs.Held.Held.{Held};
ghost use Rattle.mesh_trace.specs.Positions.Due.{HellosDue, TcsDue, none_told};
ghost use Rattle.mesh_replay.specs.Checking.Events.{BeginsDerived, TakesDueLines};
ghost use Rattle.mesh_bases.specs.Held.RouterState.{router_state};
ghost use Rattle.mesh_replay.specs.Checking.Kept.{AreFewRows, AreWithinRows, hello_items, tc_items};

use crate::checking::router::{Before, EventLines};
use mesh_atoms::{Relays, RouterSettings, Seq};
use mesh_bases::{Derived, Outbox, has_to_advertise, next_moment};
use mesh_nbrs::Near4;
use mesh_topo::{PartSpan, parts};
use std::alloc::{AllocError, Global};

// The relays of an event of which none were told yet.
fn nothing_told(alloc: Global) -> Relays
    ensures { result ≡ none_told }
{
    Relays {
        flooding: Seq::new(alloc),
        routing: Seq::new(alloc),
    }
}

/// Begins what an event at `now` ends with: the rows, and the relays of the event before. If the event was quiet, both stay.
pub(crate) fn begin<N: Near4>(
    alloc: Global,
    near: &N,
    settings: &RouterSettings,
    now: u64,
    quiet: bool,
    derived: &mut Derived,
) -> Result<Before, AllocError>
    ensures { IfOk result (BeginsDerived settings.now (N.near near.now) now quiet derived.old derived.new) }
{
    derived.last = now;
    let relays = std::mem::replace(&mut derived.relays, nothing_told(alloc));
    if quiet {
        return Ok(Before {
            relays,
            stand: true,
        });
    }
    derived.renew_rows(alloc, near, settings, now)?;
    Ok(Before {
        relays,
        stand: false,
    })
}

// Whether HELLOs are due, which then are next due later.
fn take_hellos(settings: &RouterSettings, derived: &mut Derived) -> bool
    requires now { derived.old.last < 2 ^ 62 }
    ensures due { (old s : State) → old.next_hello ≡ derived.old.next_hello → s.settings ≡ settings.now
        → s.last ≡ derived.old.last → s.next_hello ≡ derived.new.next_hello → HellosDue old s (hello_items s result) }
    ensures others { derived.new ≡ record derived.old { next_hello = derived.new.next_hello } }
{
    if derived.last < derived.next_hello {
        return false;
    }
    derived.next_hello = next_moment(settings.hello_at, settings.times.hello, derived.last);
    true
}

// The parts of the rows for which TCs are due, which then are next due later.
fn take_parts(
    alloc: Global,
    settings: &RouterSettings,
    derived: &mut Derived,
) -> Result<Seq<PartSpan>, AllocError>
    requires now { derived.old.last < 2 ^ 62 }
    requires few { AreFewRows derived.old.rows }
    ensures due { IfOk result (λ parts. (old : State) (held : Held) → old.next_tc ≡ derived.old.next_tc → old.sequence ≡ derived.old.sequence
        → held.settings ≡ settings.now → TcsDue old (router_state held derived.new) (tc_items (router_state held derived.new) derived.old.sequence parts)) }
    ensures within { IfOk result (λ parts. AreWithinRows parts derived.new.rows) }
    ensures others { derived.new ≡ record derived.old { next_tc = derived.new.next_tc; sequence = derived.new.sequence } }
{
    if derived.last < derived.next_tc {
        return Ok(Seq::new(alloc));
    }
    derived.next_tc = next_moment(settings.tc_at, settings.times.tc, derived.last);
    if !has_to_advertise(
        derived.rows.len(),
        derived.emptied,
        derived.last,
        settings.times.advertised_hold,
    ) {
        return Ok(Seq::new(alloc));
    }
    let spans = parts(alloc, derived.rows.len(), settings.tc_rows)?;
    derived.sequence = derived.sequence.wrapping_add(spans.len() as u16);
    Ok(spans)
}

/// What is to be told of a tick: the HELLOs and TCs that are due, which then are next due later.
pub(crate) fn take_due_lines(
    alloc: Global,
    settings: &RouterSettings,
    before: Before,
    derived: &mut Derived,
) -> Result<EventLines, AllocError>
    requires now { derived.old.last < 2 ^ 62 }
    requires few { AreFewRows derived.old.rows }
    ensures { IfOk result (TakesDueLines settings.now derived.old derived.new before) }
{
    let sequence = derived.sequence;
    let hellos = take_hellos(settings, derived);
    let parts = take_parts(alloc, settings, derived)?;
    Ok(EventLines {
        before,
        hellos,
        parts,
        sequence,
        out: Outbox::new(alloc),
    })
}
