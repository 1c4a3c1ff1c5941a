//! The Neighbor Set (RFC 6130, section 8.1, and RFC 7181, section 9).
ghost use Rattle.std.specs.Prelude.{◌≡◌, ◌≢◌, ◌+◌, ◌<◌, ◌↔◌, ℕ, [], List, length, Contains, IfOk, IfSome, IfNone, OnOk, Some};
ghost use Rattle.std.specs.List.{IsDistinct};
ghost use Rattle.mesh_atoms.specs.declared.tuples.Neighbour.{Neighbour};
ghost use Rattle.mesh_atoms.specs.Base.{Base, HasDistinctKeys, find, addr_eq};
ghost use Rattle.mesh_atoms.specs.Words.{IsAscending};
ghost use Rattle.mesh_atoms.specs.AfterHello.{announced};
ghost use Rattle.mesh_expire.specs.Table.{changed_at, entry_of};
ghost use Rattle.mesh_nbrs.specs.declared.neighbours.LinkNote.{LinkNote};
ghost use Rattle.mesh_nbrs.specs.Neighbours.{Replaces, RestoresBy, IsSpokenOf, HasSummary, by_summary};
ghost use Rattle.mesh_nbrs.specs.Owners.{Owned, KeepsAddrs};
ghost use Rattle.mesh_nbrs.specs.Parts.{AreSummariesOf};

use crate::owners::{all_spoken_of, end_owned, remove_owned};
use crate::parts::{has_part, parts_of, together};
use crate::replacing::{put_owned, remove_others};
use crate::summary::Summary;
use indexmap::IndexMap;
use mesh_atoms::{Addr4, LinkKey, Metric, Neighbour, Seq, Willing};
use mesh_expire::Table;
use std::alloc::{AllocError, Global};
use std::marker::Model;

/// What a neighbour is to know of a link: its key, whether it is SYMMETRIC, its metrics and its moment in ticks of 1/8192 s.
#[derive(Clone, Copy)]
pub struct LinkNote {
    pub key: LinkKey,
    pub symmetric: bool,
    pub link_in: Metric,
    pub link_out: Option<Metric>,
    pub until: u64,
}

/// The neighbours of a router, by originator. After an allocation failure the set may only be dropped.
#[derive(Drop)]
pub struct NeighbourSet<T: Table<Addr4, Neighbour>> {
    table: T,
    owners: IndexMap<Addr4, Addr4>,
    alloc: Global,
}

impl<T: Table<Addr4, Neighbour>> Model for NeighbourSet<T> {
    ghost use Rattle.mesh_atoms.specs.Base.{Base};
    ghost use Rattle.mesh_atoms.specs.declared.addr.Addr4.{Addr4};
    ghost use Rattle.mesh_atoms.specs.declared.tuples.Neighbour.{Neighbour};
    ghost use Rattle.mesh_atoms.specs.Base.{HasDistinctKeys, addr_eq};
    ghost use Rattle.mesh_nbrs.specs.Owners.{Owned};

    ghost Value = { Base Addr4 Neighbour };

    ghost view = { λ s. T.content s.table };

    ghost invariant = { λ s. HasDistinctKeys addr_eq (T.content s.table) × Owned s.owners.entries (T.content s.table) };
}

impl<T: Table<Addr4, Neighbour>> NeighbourSet<T> {
    /// No neighbours.
    pub fn new(alloc: Global) -> Result<NeighbourSet<T>, AllocError>
        ensures { IfOk result (λ set. set ≡ []) }
    {
        Ok(NeighbourSet {
            table: T::new(alloc)?,
            owners: IndexMap::new(alloc),
            alloc,
        })
    }

    /// The neighbours as a table. Takes no memory.
    pub fn table(&self) -> &T
        ensures content { T.content result.now ≡ self.now }
        ensures distinct { HasDistinctKeys addr_eq self.now }
    {
        &self.table
    }

    /// The originators of the neighbours that a HELLO with this originator and these addresses speaks of: by the originator
    /// or by one of the addresses (RFC 6130, section 12.3, and RFC 7181, section 15.3), each once. Looks each address up once.
    pub fn spoken_of(&self, originator: Addr4, listed: &[Addr4]) -> Result<Vec<Addr4>, AllocError>
        ensures { IfOk result (λ found. (o : Addr4) → Contains found.items o ↔ IsSpokenOf self.now originator listed.now o) }
    {
        all_spoken_of(self.alloc, &self.table, &self.owners, originator, listed)
    }

    /// The neighbour that has the address, with its originator and moment. Takes no memory. Looks at no other neighbour.
    pub fn with_address(&self, addr: Addr4) -> Option<(&Addr4, &Neighbour, u64)>
        ensures some { IfSome (entry_of result) (λ e. (find addr_eq self.now e.0 ≡ Some e.1) × Contains e.1.0.addrs addr) }
        ensures only { IfSome (entry_of result) (λ e. (o : Addr4) (f : Neighbour × ℕ) → find addr_eq self.now o ≡ Some f → Contains f.0.addrs addr → o ≡ e.0) }
        ensures none { IfNone result ((o : Addr4) (f : Neighbour × ℕ) → find addr_eq self.now o ≡ Some f → Contains f.0.addrs addr → ⊥) }
    {
        let originator = self.owners.get(&addr)?;
        let (neighbour, until) = self.table.get(originator)?;
        Some((originator, neighbour, until))
    }

    /// How many addresses the neighbours have. Takes no memory.
    pub fn address_count(&self) -> usize
        ensures { (held : List Addr4) × IsDistinct addr_eq held × (length held ≡ result)
            × ((a : Addr4) → Contains held a ↔ ((o : Addr4) × (e : Neighbour × ℕ) × (find addr_eq self.now o ≡ Some e) × Contains e.0.addrs a)) }
    {
        self.owners.len()
    }

    /// Makes one neighbour of all that match a HELLO, by the originator or by one of the addresses that it tells of
    /// (RFC 6130, section 12.3, and RFC 7181, section 15.3), and gives how many were taken out. The new one has that
    /// originator, those addresses, willingness and routing selector flag; it is not symmetric and has no metrics. The
    /// addresses are in ascending order, at least one. Looks each of them up, and looks at no neighbour that doesn't match; one
    /// that has that originator and just these addresses keeps its place. Takes memory for the new neighbour, for its
    /// addresses and for the originators of those that match.
    pub fn replace(
        &mut self,
        originator: Addr4,
        addrs: &[Addr4],
        willing: Willing,
        selector: bool,
        until: u64,
    ) -> Result<usize, AllocError>
        requires ascending { IsAscending addrs.now }
        requires some { 0 < length addrs.now }
        ensures ok { OnOk result (Replaces originator addrs.now willing selector until self.old self.new) }
        ensures count { IfOk result (λ taken_out. taken_out + length self.new ≡ length self.old + 1) }
        ensures distinct { HasDistinctKeys addr_eq self.new }
    {
        let before = self.table.len();
        let neighbour = neighbour_with(self.alloc, addrs, willing, selector)?;
        let found = all_spoken_of(self.alloc, &self.table, &self.owners, originator, addrs)?;
        remove_others(&mut self.table, &mut self.owners, &found, originator);
        put_owned(
            &mut self.table,
            &mut self.owners,
            originator,
            addrs,
            neighbour,
            until,
        )?;
        Ok(before - (self.table.len() - 1))
    }

    /// Brings the neighbours in line with their links (RFC 6130, section 13, and RFC 7181, section 17.6), which the notes tell
    /// of: a link is a neighbour's where the neighbour has the address of its key. A neighbour without a link goes. Any other
    /// gets the latest moment of its links, is symmetric where one of them is SYMMETRIC, and gets the least metrics of those;
    /// one that isn't symmetric loses its routing selector flag. Looks at each address of each neighbour; where a
    /// neighbour goes, looks the owner of each of these addresses up as well.
    pub fn expire(&mut self, notes: &[LinkNote]) -> Result<(), AllocError>
        ensures ok { OnOk result ((o : Addr4) → RestoresBy notes.now (find addr_eq self.old o) (find addr_eq self.new o)) }
        ensures distinct { HasDistinctKeys addr_eq self.new }
    {
        let parts = parts_of(self.alloc, notes)?;
        end_owned(&mut self.table, &mut self.owners, &parts);
        renew_all(&mut self.table, &parts)
    }

    /// The same for the neighbour with that originator alone; all others stay as they are. The notes tell of the links whose
    /// keys are among its addresses. Looks at no other neighbour.
    pub fn follow(&mut self, originator: Addr4, notes: &[LinkNote]) -> Result<(), AllocError>
        ensures one { OnOk result (RestoresBy notes.now (find addr_eq self.old originator) (find addr_eq self.new originator)) }
        ensures others { OnOk result ((o : Addr4) → o ≢ originator → find addr_eq self.new o ≡ find addr_eq self.old o) }
        ensures distinct { HasDistinctKeys addr_eq self.new }
    {
        let parts = parts_of(self.alloc, notes)?;
        follow_parts(&mut self.table, &mut self.owners, originator, &parts)
    }
}

// Sets what the notes tell of each neighbour.
fn renew_all<T: Table<Addr4, Neighbour>>(
    table: &mut T,
    parts: &IndexMap<Addr4, Summary>,
) -> Result<(), AllocError>
    requires { HasDistinctKeys addr_eq (T.content table.old) }
    ensures ok { OnOk result ((notes : List LinkNote) → AreSummariesOf notes parts.now.entries
        → (o : Addr4) → HasSummary notes (find addr_eq (T.content table.old) o) (find addr_eq (T.content table.new) o)) }
    ensures addrs { KeepsAddrs (T.content table.old) (T.content table.new) }
    ensures distinct { HasDistinctKeys addr_eq (T.content table.new) }
{
    for place in 0..table.len() {
        let (originator, summary) = match table.at(place) {
            Some((originator, neighbour, _)) => (
                *originator,
                together(parts, neighbour.addrs.as_slice()),
            ),
            None => return Ok(()),
        };
        renew(table, &originator, &summary)?;
    }
    Ok(())
}

// Sets what the notes tell of the neighbour with that originator, or takes it out where no note is of it.
fn follow_parts<T: Table<Addr4, Neighbour>>(
    table: &mut T,
    owners: &mut IndexMap<Addr4, Addr4>,
    originator: Addr4,
    parts: &IndexMap<Addr4, Summary>,
) -> Result<(), AllocError>
    requires owned { Owned owners.old.entries (T.content table.old) }
    requires distinct { HasDistinctKeys addr_eq (T.content table.old) }
    ensures owned { Owned owners.new.entries (T.content table.new) }
    ensures one { OnOk result ((notes : List LinkNote) → AreSummariesOf notes parts.now.entries
        → RestoresBy notes (find addr_eq (T.content table.old) originator) (find addr_eq (T.content table.new) originator)) }
    ensures others { OnOk result ((o : Addr4) → o ≢ originator → find addr_eq (T.content table.new) o ≡ find addr_eq (T.content table.old) o) }
    ensures distinct { HasDistinctKeys addr_eq (T.content table.new) }
{
    let Some((neighbour, _)) = table.get(&originator) else {
        return Ok(());
    };
    let addrs = neighbour.addrs.as_slice();
    if !has_part(parts, addrs) {
        remove_owned(table, owners, originator);
        return Ok(());
    }
    let summary = together(parts, addrs);
    renew(table, &originator, &summary)
}

// Sets flags, metrics and moment of one neighbour.
fn renew<T: Table<Addr4, Neighbour>>(
    table: &mut T,
    originator: &Addr4,
    summary: &Summary,
) -> Result<(), AllocError>
    ensures ok { OnOk result (T.content table.new
        ≡ changed_at addr_eq (T.content table.old) originator.now (λ e. (by_summary summary.now e.0, summary.now.until))) }
    ensures addrs { KeepsAddrs (T.content table.old) (T.content table.new) }
    ensures distinct { HasDistinctKeys addr_eq (T.content table.new) }
{
    write(table, originator, summary);
    table.set_until(originator, summary.until)?;
    Ok(())
}

// Sets flags and metrics of one neighbour.
fn write<T: Table<Addr4, Neighbour>>(table: &mut T, originator: &Addr4, summary: &Summary)
    ensures { T.content table.new ≡ changed_at addr_eq (T.content table.old) originator.now (λ e. (by_summary summary.now e.0, e.1)) }
{
    if let Some(neighbour) = table.value_mut(originator) {
        neighbour.symmetric = summary.symmetric;
        neighbour.metric_in = summary.metric_in;
        neighbour.metric_out = summary.metric_out;
        neighbour.selector &= summary.symmetric;
    }
}

// The neighbour that a HELLO tells of, before its links are looked at.
fn neighbour_with(
    alloc: Global,
    addrs: &[Addr4],
    willing: Willing,
    selector: bool,
) -> Result<Neighbour, AllocError>
    ensures { IfOk result (λ neighbour. neighbour ≡ announced addrs.now willing selector) }
{
    Ok(Neighbour {
        addrs: Seq::from_vec(Vec::from_slice(alloc, addrs)?),
        symmetric: false,
        metric_in: None,
        metric_out: None,
        willing,
        selector,
    })
}
