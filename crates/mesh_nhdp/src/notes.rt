//! What neighbours are to know of the links of all interfaces (RFC 6130, section 12.3).
ghost use Rattle.std.specs.Prelude.{◌≡◌, ℕ, IfOk, OnOk, Some};
ghost use Rattle.mesh_atoms.specs.declared.tuples.Link.{Link};
ghost use Rattle.mesh_atoms.specs.Base.{find, link_eq};
ghost use Rattle.mesh_nhdp.specs.Calls.{note_of, IsNoteIn, IsNoteAmong, TellsLinks, TellsLinksOf};
ghost use Rattle.mesh_hello.specs.Gathers.{Gathers};

use mesh_atoms::{Addr4, Link, LinkKey};
use mesh_expire::Table;
use mesh_links::LinkSet;
use mesh_nbrs::LinkNote;
use std::alloc::{AllocError, Global};

/// The note of a link.
fn note_of(key: LinkKey, link: &Link, until: u64, now: u64) -> LinkNote
    ensures { result ≡ note_of now key (link.now, until) }
{
    LinkNote {
        key,
        symmetric: link.is_symmetric(now),
        link_in: link.link_in,
        link_out: link.link_out,
        until,
    }
}

/// Adds the notes of the links of one interface.
fn add_notes<T: Table<LinkKey, Link>>(
    notes: &mut Vec<LinkNote>,
    table: &T,
    now: u64,
) -> Result<(), AllocError>
    ensures { OnOk result (Gathers notes.old.items notes.new.items (IsNoteIn (T.content table.now) now)) }
{
    for place in 0..table.len() {
        match table.at(place) {
            Some((key, link, until)) => {
                notes.push(note_of(*key, link, until, now))?;
            }
            None => return Ok(()),
        }
    }
    Ok(())
}

/// The notes of the links of all interfaces.
pub fn notes_of<T: Table<LinkKey, Link>>(
    alloc: Global,
    sets: &[LinkSet<T>],
    now: u64,
) -> Result<Vec<LinkNote>, AllocError>
    ensures { IfOk result (λ notes. TellsLinks sets.now now notes.items) }
{
    let mut notes = Vec::new(alloc);
    for set in sets {
        add_notes(&mut notes, set.table(), now)?;
    }
    Ok(notes)
}

/// Adds the note of the link with that key, where there is one.
fn add_note_at<T: Table<LinkKey, Link>>(
    notes: &mut Vec<LinkNote>,
    table: &T,
    key: LinkKey,
    now: u64,
) -> Result<(), AllocError>
    ensures { OnOk result (Gathers notes.old.items notes.new.items (λ note. (e : Link × ℕ) × (find link_eq (T.content table.now) key ≡ Some e) × (note ≡ note_of now key e))) }
{
    if let Some((link, until)) = table.get(&key) {
        notes.push(note_of(key, link, until, now))?;
    }
    Ok(())
}

/// Adds the notes of the links of one interface whose keys are among the addresses. Looks each of these up.
fn add_notes_among<T: Table<LinkKey, Link>>(
    notes: &mut Vec<LinkNote>,
    table: &T,
    addrs: &[Addr4],
    now: u64,
) -> Result<(), AllocError>
    ensures { OnOk result (Gathers notes.old.items notes.new.items (IsNoteAmong (T.content table.now) addrs.now now)) }
{
    for addr in addrs {
        add_note_at(notes, table, LinkKey { addr: *addr }, now)?;
    }
    Ok(())
}

/// The notes of the links of all interfaces whose keys are among the addresses.
pub fn notes_among<T: Table<LinkKey, Link>>(
    alloc: Global,
    sets: &[LinkSet<T>],
    addrs: &[Addr4],
    now: u64,
) -> Result<Vec<LinkNote>, AllocError>
    ensures { IfOk result (λ notes. TellsLinksOf sets.now addrs.now now notes.items) }
{
    let mut notes = Vec::new(alloc);
    for set in sets {
        add_notes_among(&mut notes, set.table(), addrs, now)?;
    }
    Ok(notes)
}
