//! The map from each address to the originator of the neighbour that has it (RFC 6130, section 8.1).
ghost use Rattle.std.specs.Prelude.{◌≡◌, ◌≢◌, ◌↔◌, IfOk, IsSome, OnOk, OnErr, Contains, None, Some, length, ◌+◌, ◌&&◌, cond, true, is_some, if◌then◌else◌};
ghost use Rattle.std.specs.List.{list_any};
ghost use Rattle.indexmap.specs.IndexSet.{contains};
ghost use Rattle.mesh_atoms.specs.declared.addr.Addr4.{Addr4};
ghost use Rattle.mesh_atoms.specs.Base.{HasDistinctKeys, SetsOnly, find, addr_eq};
ghost use Rattle.mesh_atoms.specs.Words.{IsKept};
ghost use Rattle.mesh_nbrs.specs.Neighbours.{IsSpokenOf};
ghost use Rattle.mesh_nbrs.specs.Owners.{Owned, LeavesNotesOf, SetsOwner, owner_of, is_owner};
ghost use Rattle.mesh_nbrs.specs.Parts.{HasSummaryAt};

use crate::ends::end_all;
use crate::summary::Summary;
use indexmap::{IndexMap, IndexSet};
use mesh_atoms::{Addr4, Neighbour};
use mesh_expire::{Table, map_keys_are_distinct};
use std::alloc::{AllocError, Global};

/// Takes the addresses out of the map. Takes no memory.
pub fn disown(owners: &mut IndexMap<Addr4, Addr4>, addrs: &[Addr4])
    ensures { SetsOwner addrs.now None owners.old.entries owners.new.entries }
{
    for addr in addrs {
        owners.swap_remove(addr);
    }
}

// Notes the originator for the address.
fn own(
    owners: &mut IndexMap<Addr4, Addr4>,
    addr: Addr4,
    originator: Addr4,
) -> Result<(), AllocError>
    ensures ok { OnOk result ((a : Addr4) → owner_of owners.new.entries a ≡ cond (addr_eq addr a) (Some originator) (owner_of owners.old.entries a)) }
    ensures err { OnErr result (owners.new.entries ≡ owners.old.entries) }
{
    owners.insert(addr, originator)?;
    Ok(())
}

/// Notes the originator for each of the addresses.
pub fn own_all(
    owners: &mut IndexMap<Addr4, Addr4>,
    addrs: &[Addr4],
    originator: Addr4,
) -> Result<(), AllocError>
    ensures ok { OnOk result (SetsOwner addrs.now (Some originator) owners.old.entries owners.new.entries) }
    ensures others { (a : Addr4) → (Contains addrs.now a → ⊥) → owner_of owners.new.entries a ≡ owner_of owners.old.entries a }
{
    for addr in addrs {
        own(owners, *addr, originator)?;
    }
    Ok(())
}

// Takes the addresses of the neighbour with that originator out of the map.
fn disown_at<T: Table<Addr4, Neighbour>>(
    owners: &mut IndexMap<Addr4, Addr4>,
    table: &T,
    originator: Addr4,
)
    requires { Owned owners.old.entries (T.content table.now) }
    ensures { LeavesNotesOf (λ o. o ≢ originator) owners.old.entries owners.new.entries }
{
    if let Some((neighbour, _)) = table.get(&originator) {
        disown(owners, neighbour.addrs.as_slice());
    }
}

/// Takes out the neighbour with that originator, where there is one, with its addresses. Takes no memory.
pub fn remove_owned<T: Table<Addr4, Neighbour>>(
    table: &mut T,
    owners: &mut IndexMap<Addr4, Addr4>,
    originator: Addr4,
) -> bool
    requires { Owned owners.old.entries (T.content table.old) }
    ensures owned { Owned owners.new.entries (T.content table.new) }
    ensures removed { SetsOnly addr_eq (T.content table.old) (T.content table.new) originator None }
    ensures count { length (T.content table.new) + (if result then 1 else 0) ≡ length (T.content table.old) }
    ensures distinct { HasDistinctKeys addr_eq (T.content table.new) }
{
    disown_at(owners, table, originator);
    table.remove(&originator)
}

// Whether there is a neighbour with that originator.
fn has_neighbour<T: Table<Addr4, Neighbour>>(table: &T, originator: &Addr4) -> bool
    ensures { result ≡ is_some (find addr_eq (T.content table.now) originator.now) }
{
    table.get(originator).is_some()
}

// Takes out each address whose neighbour is gone. Goes over the whole map. Takes no memory.
fn purge<T: Table<Addr4, Neighbour>>(owners: &mut IndexMap<Addr4, Addr4>, table: &T)
    ensures { LeavesNotesOf (λ o. IsSome (find addr_eq (T.content table.now) o)) owners.old.entries owners.new.entries }
{
    map_keys_are_distinct(owners);
    owners.retain(|_, originator| has_neighbour(table, originator));
}

/// Takes out each neighbour that no note is of, with its addresses. Where there is one, goes over the whole map. Takes no memory.
pub fn end_owned<T: Table<Addr4, Neighbour>>(
    table: &mut T,
    owners: &mut IndexMap<Addr4, Addr4>,
    parts: &IndexMap<Addr4, Summary>,
)
    requires owned { Owned owners.old.entries (T.content table.old) }
    requires distinct { HasDistinctKeys addr_eq (T.content table.old) }
    ensures owned { Owned owners.new.entries (T.content table.new) }
    ensures kept { (q : Addr4) → IsKept (λ e. (HasSummaryAt parts.now.entries e.0.addrs → ⊥) → ⊥) (find addr_eq (T.content table.old) q) (find addr_eq (T.content table.new) q) }
    ensures distinct { HasDistinctKeys addr_eq (T.content table.new) }
{
    if end_all(table, parts) > 0 {
        purge(owners, table);
    }
}

// The originator that is noted for the address.
fn owner(owners: &IndexMap<Addr4, Addr4>, addr: Addr4) -> Option<Addr4>
    ensures { result ≡ owner_of owners.now.entries addr }
{
    let originator = owners.get(&addr)?;
    Some(*originator)
}

// Adds the originator that is noted for the address.
fn add_owner(
    found: &mut IndexSet<Addr4>,
    owners: &IndexMap<Addr4, Addr4>,
    addr: Addr4,
) -> Result<(), AllocError>
    ensures { OnOk result ((o : _) → contains addr_eq found.new o ≡ cond (is_owner (owner_of owners.now.entries addr) o) true (contains addr_eq found.old o)) }
{
    if let Some(originator) = owner(owners, addr) {
        found.insert(originator)?;
    }
    Ok(())
}

// The originators that are noted for the addresses.
fn owners_of(
    alloc: Global,
    owners: &IndexMap<Addr4, Addr4>,
    addrs: &[Addr4],
) -> Result<IndexSet<Addr4>, AllocError>
    ensures { IfOk result (λ set. (o : _) → contains addr_eq set o ≡ list_any (λ x. is_owner (owner_of owners.now.entries x) o) addrs.now) }
{
    let mut found = IndexSet::new(alloc);
    for addr in addrs {
        add_owner(&mut found, owners, *addr)?;
    }
    Ok(found)
}

// Adds the originator, where a neighbour has it.
fn add_standing<T: Table<Addr4, Neighbour>>(
    found: &mut IndexSet<Addr4>,
    table: &T,
    originator: Addr4,
) -> Result<(), AllocError>
    ensures { OnOk result ((o : _) → contains addr_eq found.new o
        ≡ cond (is_some (find addr_eq (T.content table.now) originator) && addr_eq originator o) true (contains addr_eq found.old o)) }
{
    if has_neighbour(table, &originator) {
        found.insert(originator)?;
    }
    Ok(())
}

/// The originators of the neighbours that a HELLO with this originator and these addresses speaks of, each once.
pub fn all_spoken_of<T: Table<Addr4, Neighbour>>(
    alloc: Global,
    table: &T,
    owners: &IndexMap<Addr4, Addr4>,
    originator: Addr4,
    listed: &[Addr4],
) -> Result<Vec<Addr4>, AllocError>
    requires { Owned owners.now.entries (T.content table.now) }
    ensures { IfOk result (λ found. (o : Addr4) → Contains found.items o ↔ IsSpokenOf (T.content table.now) originator listed.now o) }
{
    let mut found = owners_of(alloc, owners, listed)?;
    add_standing(&mut found, table, originator)?;
    Vec::from_slice(alloc, found.as_slice())
}
