//! One neighbour in place of those that a HELLO speaks of (RFC 6130, section 12.3).
ghost use Rattle.std.specs.Prelude.{◌≡◌, ◌≤◌, ◌<◌, ◌+◌, ◌&&◌, ◌↔◌, ℕ, IsTrue, OnOk, OnErr, Contains, None, Some, cond, not, length, is_some, if◌then◌else◌};
ghost use Rattle.std.specs.List.{list_any};
ghost use Rattle.mesh_atoms.specs.declared.addr.Addr4.{Addr4};
ghost use Rattle.mesh_atoms.specs.declared.tuples.Neighbour.{Neighbour};
ghost use Rattle.mesh_atoms.specs.Base.{HasDistinctKeys, SetsOnly, find, addr_eq};
ghost use Rattle.mesh_atoms.specs.Words.{Meets};
ghost use Rattle.mesh_nbrs.specs.Owners.{Owned, SetsOwner, addrs_at, owner_of};

use crate::owners::{disown, own_all, remove_owned};
use indexmap::IndexMap;
use mesh_atoms::{Addr4, Neighbour};
use mesh_expire::Table;
use std::alloc::AllocError;

/// Takes out the neighbours with these originators, but for the one with that originator. Takes no memory.
pub fn remove_others<T: Table<Addr4, Neighbour>>(
    table: &mut T,
    owners: &mut IndexMap<Addr4, Addr4>,
    found: &[Addr4],
    originator: Addr4,
)
    requires owned { Owned owners.old.entries (T.content table.old) }
    requires distinct { HasDistinctKeys addr_eq (T.content table.old) }
    ensures owned { Owned owners.new.entries (T.content table.new) }
    ensures gone { (o : _) → find addr_eq (T.content table.new) o
        ≡ cond (list_any (λ x. addr_eq x o && not (addr_eq x originator)) found.now) None (find addr_eq (T.content table.old) o) }
    ensures within { length (T.content table.new) ≤ length (T.content table.old) }
    ensures distinct { HasDistinctKeys addr_eq (T.content table.new) }
{
    for other in found {
        if *other == originator {
            continue;
        }
        remove_owned(table, owners, *other);
    }
}

// Whether two lists are the same.
fn are_same(addrs: &[Addr4], others: &[Addr4]) -> bool
    ensures { IsTrue result ↔ (addrs.now ≡ others.now) }
{
    addrs == others
}

// Whether the neighbour with that originator has just these addresses.
fn has_just<T: Table<Addr4, Neighbour>>(table: &T, originator: Addr4, addrs: &[Addr4]) -> bool
    ensures { IsTrue result ↔ (addrs_at (T.content table.now) originator ≡ Some addrs.now) }
{
    match table.get(&originator) {
        Some((neighbour, _)) => are_same(neighbour.addrs.as_slice(), addrs),
        None => false,
    }
}

// Notes the addresses and puts the neighbour in, as far as there is memory.
fn own_and_put<T: Table<Addr4, Neighbour>>(
    table: &mut T,
    owners: &mut IndexMap<Addr4, Addr4>,
    originator: Addr4,
    addrs: &[Addr4],
    neighbour: Neighbour,
    until: u64,
) -> Result<(), AllocError>
    requires { HasDistinctKeys addr_eq (T.content table.old) }
    ensures noted { OnOk result (SetsOwner addrs.now (Some originator) owners.old.entries owners.new.entries) }
    ensures others { (a : Addr4) → (Contains addrs.now a → ⊥) → owner_of owners.new.entries a ≡ owner_of owners.old.entries a }
    ensures ok { OnOk result (SetsOnly addr_eq (T.content table.old) (T.content table.new) originator (Some (neighbour, until))) }
    ensures err { OnErr result (T.content table.new ≡ T.content table.old) }
    ensures count { OnOk result (length (T.content table.new)
        ≡ length (T.content table.old) + (if is_some (find addr_eq (T.content table.old) originator) then 0 else 1)) }
    ensures distinct { HasDistinctKeys addr_eq (T.content table.new) }
{
    own_all(owners, addrs, originator)?;
    table.put(originator, neighbour, until)
}

// Puts in a neighbour with these addresses, which no neighbour has.
fn put_new<T: Table<Addr4, Neighbour>>(
    table: &mut T,
    owners: &mut IndexMap<Addr4, Addr4>,
    originator: Addr4,
    addrs: &[Addr4],
    neighbour: Neighbour,
    until: u64,
) -> Result<(), AllocError>
    requires owned { Owned owners.old.entries (T.content table.old) }
    requires distinct { HasDistinctKeys addr_eq (T.content table.old) }
    requires addrs { neighbour.addrs ≡ addrs.now }
    requires absent { find addr_eq (T.content table.old) originator ≡ None }
    requires apart { (o : Addr4) (e : Neighbour × ℕ) → find addr_eq (T.content table.old) o ≡ Some e → Meets e.0.addrs addrs.now → ⊥ }
    ensures owned { Owned owners.new.entries (T.content table.new) }
    ensures ok { OnOk result (SetsOnly addr_eq (T.content table.old) (T.content table.new) originator (Some (neighbour, until))) }
    ensures count { OnOk result (length (T.content table.new) ≡ length (T.content table.old) + 1) }
    ensures distinct { HasDistinctKeys addr_eq (T.content table.new) }
{
    let put = own_and_put(table, owners, originator, addrs, neighbour, until);
    if put.is_err() {
        disown(owners, addrs);
    }
    put
}

/// Makes the neighbour with that originator, which has these addresses; no other neighbour has one of them. One that stands
/// with just these keeps its place, and its addresses aren't looked up. An allocation failure may take it out.
pub fn put_owned<T: Table<Addr4, Neighbour>>(
    table: &mut T,
    owners: &mut IndexMap<Addr4, Addr4>,
    originator: Addr4,
    addrs: &[Addr4],
    neighbour: Neighbour,
    until: u64,
) -> Result<(), AllocError>
    requires owned { Owned owners.old.entries (T.content table.old) }
    requires distinct { HasDistinctKeys addr_eq (T.content table.old) }
    requires addrs { neighbour.addrs ≡ addrs.now }
    requires apart { (o : Addr4) (e : Neighbour × ℕ) → find addr_eq (T.content table.old) o ≡ Some e → Meets e.0.addrs addrs.now → o ≡ originator }
    ensures owned { Owned owners.new.entries (T.content table.new) }
    ensures ok { OnOk result (SetsOnly addr_eq (T.content table.old) (T.content table.new) originator (Some (neighbour, until))) }
    ensures some { OnOk result (0 < length (T.content table.new)) }
    ensures within { OnOk result (length (T.content table.new) ≤ length (T.content table.old) + 1) }
    ensures distinct { HasDistinctKeys addr_eq (T.content table.new) }
{
    if has_just(table, originator, addrs) {
        return table.put(originator, neighbour, until);
    }
    remove_owned(table, owners, originator);
    put_new(table, owners, originator, addrs, neighbour, until)
}
