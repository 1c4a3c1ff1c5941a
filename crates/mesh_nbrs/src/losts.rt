//! The Lost Neighbor Set: the addresses that were a symmetric neighbour's (RFC 6130, section 8.2).
ghost use Rattle.std.specs.Prelude.{◌≡◌, ◌+◌, ◌&&◌, [], length, not, IfOk, OnOk, None, Some, cond};
ghost use Rattle.std.specs.List.{list_any};
ghost use Rattle.indexmap.specs.IndexSet.{contains};
ghost use Rattle.mesh_atoms.specs.Base.{Base, HasDistinctKeys, find, Expires, addr_eq};
ghost use Rattle.mesh_nbrs.specs.Losts.{SettlesAll};

use indexmap::IndexSet;
use mesh_atoms::{Addr4, Lost};
use mesh_expire::Table;
use std::alloc::{AllocError, Global};
use std::marker::Model;

/// The addresses that were a symmetric neighbour's. After an allocation failure the set may only be dropped.
#[derive(Drop)]
pub struct LostSet<T: Table<Addr4, Lost>> {
    table: T,
    alloc: Global,
}

impl<T: Table<Addr4, Lost>> Model for LostSet<T> {
    ghost use Rattle.mesh_atoms.specs.Base.{Base};
    ghost use Rattle.mesh_atoms.specs.declared.addr.Addr4.{Addr4};
    ghost use Rattle.mesh_atoms.specs.declared.tuples.Lost.{Lost};
    ghost use Rattle.mesh_atoms.specs.Base.{HasDistinctKeys, addr_eq};

    ghost Value = { Base Addr4 Lost };

    ghost view = { λ s. T.content s.table };

    ghost invariant = { λ s. HasDistinctKeys addr_eq (T.content s.table) };
}

impl<T: Table<Addr4, Lost>> LostSet<T> {
    /// No lost addresses.
    pub fn new(alloc: Global) -> Result<LostSet<T>, AllocError>
        ensures { IfOk result (λ set. set ≡ []) }
    {
        Ok(LostSet {
            table: T::new(alloc)?,
            alloc,
        })
    }

    /// The lost addresses as a table. Takes no memory.
    pub fn table(&self) -> &T
        ensures content { T.content result.now ≡ self.now }
        ensures distinct { HasDistinctKeys addr_eq self.now }
    {
        &self.table
    }

    /// Settles which addresses are lost, from the addresses of symmetric neighbours before an event and after it
    /// (RFC 6130, sections 8.2 and 12.4): those of after are not lost, those of before alone are lost until that moment, and
    /// all others stay as they are. Takes memory for the addresses of after and for the newly lost ones. Looks each address of
    /// either list up once.
    pub fn settle_lost(
        &mut self,
        before: &[Addr4],
        after: &[Addr4],
        until: u64,
    ) -> Result<(), AllocError>
        ensures ok { OnOk result (SettlesAll before.now after.now until self.old self.new) }
        ensures distinct { HasDistinctKeys addr_eq self.new }
    {
        let back = set_of(self.alloc, after)?;
        take_back(&mut self.table, after);
        put_gone(&mut self.table, before, &back, until)
    }

    /// Takes out the lost addresses whose moment is at or below now (RFC 6130, section 13). Takes no memory.
    pub fn expire(&mut self, now: u64)
        ensures expired { Expires addr_eq now self.old self.new }
        ensures distinct { HasDistinctKeys addr_eq self.new }
    {
        self.expire_and_count(now);
    }

    /// The same as `expire`, and how many lost addresses went.
    pub fn expire_and_count(&mut self, now: u64) -> usize
        ensures expired { Expires addr_eq now self.old self.new }
        ensures count { result + length self.new ≡ length self.old }
        ensures none { result ≡ 0 → self.new ≡ self.old }
        ensures distinct { HasDistinctKeys addr_eq self.new }
    {
        self.table.expire(now)
    }
}

// The addresses as a set.
fn set_of(alloc: Global, addrs: &[Addr4]) -> Result<IndexSet<Addr4>, AllocError>
    ensures { IfOk result (λ set. (a : _) → contains addr_eq set a ≡ list_any (λ x. addr_eq x a) addrs.now) }
{
    let mut set = IndexSet::new(alloc);
    for addr in addrs {
        set.insert(*addr)?;
    }
    Ok(set)
}

// Takes out the addresses that are a symmetric neighbour's.
fn take_back<T: Table<Addr4, Lost>>(table: &mut T, after: &[Addr4])
    requires { HasDistinctKeys addr_eq (T.content table.old) }
    ensures back { (a : _) → find addr_eq (T.content table.new) a
        ≡ cond (list_any (λ x. addr_eq x a) after.now) None (find addr_eq (T.content table.old) a) }
    ensures distinct { HasDistinctKeys addr_eq (T.content table.new) }
{
    for addr in after {
        table.remove(addr);
    }
}

// Puts in the addresses that were a symmetric neighbour's and are none's now.
fn put_gone<T: Table<Addr4, Lost>>(
    table: &mut T,
    before: &[Addr4],
    back: &IndexSet<Addr4>,
    until: u64,
) -> Result<(), AllocError>
    requires { HasDistinctKeys addr_eq (T.content table.old) }
    ensures gone { OnOk result ((a : _) → find addr_eq (T.content table.new) a
        ≡ cond (list_any (λ x. addr_eq x a && not (contains addr_eq back.now x)) before.now) (Some (record {}, until)) (find addr_eq (T.content table.old) a)) }
    ensures distinct { HasDistinctKeys addr_eq (T.content table.new) }
{
    for addr in before {
        if back.contains(addr) {
            continue;
        }
        table.put(*addr, Lost {}, until)?;
    }
    Ok(())
}
