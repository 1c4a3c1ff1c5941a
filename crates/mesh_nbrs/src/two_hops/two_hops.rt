//! The 2-Hop Set of one interface (RFC 6130, section 7.2, and RFC 7181, section 8.2).
ghost use Rattle.std.specs.Prelude.{◌≡◌, ◌+◌, ◌↔◌, [], length, false, if◌then◌else◌, is_some, option_map, IfOk, OnOk, OnErr, IsTrue, IsSome, Some, None};
ghost use Rattle.mesh_atoms.specs.Base.{Base, HasDistinctKeys, find, SetsOnly, Expires, two_hop_eq};
ghost use Rattle.mesh_nbrs.specs.TwoHops.TwoHops.{DropsLink, KnowsLinks};

use crate::two_hops::dropping::drop_all;
use mesh_atoms::{Addr4, LinkKey, Metric, TwoHop, TwoHopKey};
use mesh_expire::{PlacedTable, keys_are_distinct};
use std::alloc::{AllocError, Global};
use std::collections::BTreeSet;
use std::marker::Model;

/// The 2-hop tuples of one interface. After an allocation failure the set may only be dropped.
#[derive(Drop)]
pub struct TwoHopSet<T: PlacedTable<TwoHopKey, TwoHop>> {
    table: T,
    // The links that may have tuples; one without tuples may be here up to its `drop_link`.
    links: BTreeSet<LinkKey>,
}

impl<T: PlacedTable<TwoHopKey, TwoHop>> Model for TwoHopSet<T> {
    ghost use Rattle.mesh_atoms.specs.Base.{Base};
    ghost use Rattle.mesh_atoms.specs.declared.tuples.TwoHopKey.{TwoHopKey};
    ghost use Rattle.mesh_atoms.specs.declared.tuples.TwoHop.{TwoHop};

    ghost Value = { Base TwoHopKey TwoHop };

    ghost use Rattle.mesh_atoms.specs.Base.{HasDistinctKeys, two_hop_eq};
    ghost use Rattle.mesh_nbrs.specs.TwoHops.TwoHops.{KnowsLinks};

    ghost view = { λ s. T.content s.table };

    ghost invariant = { λ s. HasDistinctKeys two_hop_eq (T.content s.table) × KnowsLinks s.links (T.content s.table) };
}

// Makes the tuple of a key, and gives the one that was there before. An allocation failure leaves the table unchanged; the links may then have
// the key's link all the same.
fn put_tuple<T: PlacedTable<TwoHopKey, TwoHop>>(
    table: &mut T,
    links: &mut BTreeSet<LinkKey>,
    key: TwoHopKey,
    tuple: TwoHop,
    until: u64,
) -> Result<Option<TwoHop>, AllocError>
    requires { KnowsLinks links.old (T.content table.old) }
    ensures knows { KnowsLinks links.new (T.content table.new) }
    ensures before { IfOk result (λ before. before ≡ option_map (λ e. e.0) (find two_hop_eq (T.content table.old) key)) }
    ensures ok { OnOk result (SetsOnly two_hop_eq (T.content table.old) (T.content table.new) key (Some (tuple, until))) }
    ensures count { OnOk result (length (T.content table.new)
        ≡ length (T.content table.old) + (if is_some (find two_hop_eq (T.content table.old) key) then 0 else 1)) }
    ensures err { OnErr result (T.content table.new ≡ T.content table.old) }
    ensures distinct { HasDistinctKeys two_hop_eq (T.content table.new) }
{
    if let Some(before) = table.renew(&key, tuple, until)? {
        return Ok(Some(before));
    }
    links.insert(key.link)?;
    table.put(key, tuple, until)?;
    Ok(None)
}

// Whether a tuple is that one.
fn is_tuple(before: Option<TwoHop>, tuple: TwoHop) -> bool
    ensures { IsTrue result ↔ (before ≡ Some tuple) }
{
    before == Some(tuple)
}

impl<T: PlacedTable<TwoHopKey, TwoHop>> TwoHopSet<T> {
    /// No tuples.
    pub fn new(alloc: Global) -> Result<TwoHopSet<T>, AllocError>
        ensures { IfOk result (λ set. set ≡ []) }
    {
        Ok(TwoHopSet {
            table: T::new(alloc)?,
            links: BTreeSet::new(alloc),
        })
    }

    /// The tuples as a table. Takes no memory.
    pub fn table(&self) -> &T
        ensures content { T.content result.now ≡ self.now }
        ensures distinct { HasDistinctKeys two_hop_eq self.now }
    {
        &self.table
    }

    /// No link and address have two tuples, for proofs: what a set keeps shows in what its calls ensure alone. Does nothing.
    pub fn keys_are_distinct(&self)
        ensures { HasDistinctKeys two_hop_eq self.now }
    {
        keys_are_distinct(&self.table);
    }

    /// Makes the tuple of a link and an address, in place of the one that stood there: the metrics are the neighbour's, from
    /// and to the address (RFC 6130, section 12.6, and RFC 7181, section 15.3). Whether it stood with these metrics, so that its
    /// moment alone changed. An allocation failure leaves the set unchanged.
    pub fn renew(
        &mut self,
        link: LinkKey,
        addr: Addr4,
        metric_in: Option<Metric>,
        metric_out: Option<Metric>,
        until: u64,
    ) -> Result<bool, AllocError>
        ensures ok { OnOk result (SetsOnly two_hop_eq self.old self.new (record { link = link; addr = addr })
            (Some (record { metric_in = metric_in; metric_out = metric_out }, until))) }
        ensures count { OnOk result (length self.new
            ≡ length self.old + (if is_some (find two_hop_eq self.old (record { link = link; addr = addr })) then 0 else 1)) }
        ensures err { OnErr result (self.new ≡ self.old) }
        ensures distinct { HasDistinctKeys two_hop_eq self.new }
        ensures same { IfOk result (λ is_same. IsTrue is_same
            ↔ (option_map (λ e. e.0) (find two_hop_eq self.old (record { link = link; addr = addr }))
            ≡ Some (record { metric_in = metric_in; metric_out = metric_out }))) }
    {
        let key = TwoHopKey { link, addr };
        let tuple = TwoHop {
            metric_in,
            metric_out,
        };
        let before = put_tuple(&mut self.table, &mut self.links, key, tuple, until)?;
        Ok(is_tuple(before, tuple))
    }

    /// Takes out the tuple of a link and an address (RFC 6130, section 12.6); false, changing nothing, where there is none.
    /// Takes no memory.
    pub fn drop_row(&mut self, link: LinkKey, addr: Addr4) -> bool
        ensures found { IsTrue result ↔ IsSome (find two_hop_eq self.old (record { link = link; addr = addr })) }
        ensures removed { SetsOnly two_hop_eq self.old self.new (record { link = link; addr = addr }) None }
        ensures count { length self.new + (if result then 1 else 0) ≡ length self.old }
        ensures unchanged { result ≡ false → self.new ≡ self.old }
        ensures distinct { HasDistinctKeys two_hop_eq self.new }
    {
        self.table.remove(&TwoHopKey { link, addr })
    }

    /// Takes out all tuples of a link (RFC 6130, section 13), and gives their number. Takes no memory. Where the
    /// link isn't among those that may have tuples, none is looked at, and else each one is.
    pub fn drop_link(&mut self, link: LinkKey) -> usize
        ensures dropped { DropsLink link self.old self.new }
        ensures count { result + length self.new ≡ length self.old }
        ensures distinct { HasDistinctKeys two_hop_eq self.new }
    {
        if !self.links.remove(&link) {
            return 0;
        }
        drop_all(&mut self.table, link)
    }

    /// Takes out the tuples whose moment is at or below now (RFC 6130, section 13). Takes no memory.
    pub fn expire(&mut self, now: u64)
        ensures expired { Expires two_hop_eq now self.old self.new }
        ensures distinct { HasDistinctKeys two_hop_eq self.new }
    {
        self.expire_and_count(now);
    }

    /// The same as `expire`, and how many tuples went.
    pub fn expire_and_count(&mut self, now: u64) -> usize
        ensures expired { Expires two_hop_eq now self.old self.new }
        ensures count { result + length self.new ≡ length self.old }
        ensures none { result ≡ 0 → self.new ≡ self.old }
        ensures distinct { HasDistinctKeys two_hop_eq self.new }
    {
        self.table.expire(now)
    }
}
