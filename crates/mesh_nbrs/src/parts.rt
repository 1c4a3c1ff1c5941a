//! What the notes of links tell, by the addresses of their keys (RFC 6130, sections 7.1 and 12.3).
ghost use Rattle.std.specs.Prelude.{◌↔◌, ◌++◌, ◌∷◌, [], List, IfOk, OnOk, IsTrue, IsSome, Some};
ghost use Rattle.std.specs.Option.{option_copied};
ghost use Rattle.mesh_atoms.specs.declared.addr.Addr4.{Addr4};
ghost use Rattle.mesh_nbrs.specs.declared.neighbours.LinkNote.{LinkNote};
ghost use Rattle.mesh_nbrs.specs.Neighbours.{HasNote, IsNotesSummary};
ghost use Rattle.mesh_nbrs.specs.Parts.{IsSummaryOf, AreSummariesOf, part_of, HasSummaryAt};

use crate::neighbours::LinkNote;
use crate::summary::{Summary, joined, summary_of};
use indexmap::IndexMap;
use mesh_atoms::Addr4;
use std::alloc::{AllocError, Global};

// What the notes of an address tell, with one more.
fn with_note(part: Option<&Summary>, note: &LinkNote) -> Summary
    ensures { (notes : List LinkNote) → IsSummaryOf notes note.now.key.addr (option_copied part.entry) → IsSummaryOf (notes ++ note.now ∷ []) note.now.key.addr (Some result) }
{
    let told = summary_of(note);
    match part {
        Some(part) => joined(part, &told),
        None => told,
    }
}

// Adds a note to those of its address.
fn add_note(parts: &mut IndexMap<Addr4, Summary>, note: &LinkNote) -> Result<(), AllocError>
    ensures { OnOk result ((notes : List LinkNote) → AreSummariesOf notes parts.old.entries → AreSummariesOf (notes ++ note.now ∷ []) parts.new.entries) }
{
    let addr = note.key.addr;
    let part = with_note(parts.get(&addr), note);
    parts.insert(addr, part)?;
    Ok(())
}

/// What the notes tell of each address.
pub fn parts_of(alloc: Global, notes: &[LinkNote]) -> Result<IndexMap<Addr4, Summary>, AllocError>
    ensures { IfOk result (λ parts. AreSummariesOf notes.now parts.entries) }
{
    let mut parts = IndexMap::new(alloc);
    for note in notes {
        add_note(&mut parts, note)?;
    }
    Ok(parts)
}

// Whether notes are of the address.
fn is_noted(parts: &IndexMap<Addr4, Summary>, addr: Addr4) -> bool
    ensures { IsTrue result ↔ IsSome (part_of parts.now.entries addr) }
{
    parts.get(&addr).is_some()
}

/// Whether notes are of one of the addresses.
pub fn has_part(parts: &IndexMap<Addr4, Summary>, addrs: &[Addr4]) -> bool
    ensures { IsTrue result ↔ HasSummaryAt parts.now.entries addrs.now }
{
    for addr in addrs {
        if is_noted(parts, *addr) {
            return true;
        }
    }
    false
}

// With what the notes of one more address tell.
fn with_part(so_far: &Summary, parts: &IndexMap<Addr4, Summary>, addr: Addr4) -> Summary
    ensures { (notes : List LinkNote) (addrs : List Addr4) → AreSummariesOf notes parts.now.entries → IsNotesSummary (HasNote notes addrs) so_far.now → IsNotesSummary (HasNote notes (addrs ++ addr ∷ [])) result }
{
    match parts.get(&addr) {
        Some(part) => joined(so_far, part),
        None => *so_far,
    }
}

/// What the notes of the neighbour with these addresses tell together; its moment is 0 where there are none. Looks each
/// address up once.
pub fn together(parts: &IndexMap<Addr4, Summary>, addrs: &[Addr4]) -> Summary
    ensures { (notes : List LinkNote) → AreSummariesOf notes parts.now.entries → IsNotesSummary (HasNote notes addrs.now) result }
{
    let mut summary = Summary {
        symmetric: false,
        metric_in: None,
        metric_out: None,
        until: 0,
    };
    for addr in addrs {
        summary = with_part(&summary, parts, *addr);
    }
    summary
}
