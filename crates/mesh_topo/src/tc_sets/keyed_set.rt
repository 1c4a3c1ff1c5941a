//! A table of tuples with its keys in order.
ghost use Rattle.std.specs.Prelude.{◌≡◌, ◌+◌, ◌≤◌, ◌↔◌, [], false, length, count_by, is_some, cond, IfOk, OnOk, Some};
ghost use Rattle.mesh_atoms.specs.Base.{HasDistinctKeys, Expires, SetsOnly, find};
ghost use Rattle.mesh_atoms.specs.AfterTc.{BecomesSet};
ghost use Rattle.mesh_expire.specs.Keyed.{AreKeys};
ghost use Rattle.mesh_topo.specs.TcSets.Same.{SaysSame};
ghost use Rattle.mesh_topo.specs.TcSets.Sets.{GivenBy, PutsGiven, PutsRows};
ghost use Rattle.mesh_topo.specs.TcSets.Tuples.{given};

use crate::tc_sets::outdated::drop_outdated;
use crate::tc_sets::tuple::TopologyTuple;
use mesh_atoms::Tc;
use mesh_expire::{Key, Table, expire_keyed, put_keyed};
use std::alloc::{AllocError, Global};
use std::collections::BTreeSet;
use std::marker::{Model, PhantomData};

/// The tuples of a kind, with the ordered set of their keys, in which those of an originator stand together.
#[derive(Drop)]
pub struct KeyedSet<K: Key + Ord, V, T: Table<K, V>> {
    table: T,
    keys: BTreeSet<K>,
    tuples: PhantomData<V>,
}

impl<K: Key + Ord, V, T: Table<K, V>> Model for KeyedSet<K, V, T> {
    ghost use Rattle.mesh_atoms.specs.Base.{Base, HasDistinctKeys};
    ghost use Rattle.mesh_expire.specs.Keyed.{AreKeys};

    ghost Value = { Base K V };

    ghost view = { λ s. T.content s.table };

    ghost invariant = { λ s. HasDistinctKeys K.eq (T.content s.table) × AreKeys K.eq K.cmp s.keys (T.content s.table) };
}

// Puts a tuple until that moment. Whether none that says the same stood there.
fn put_tuple<K: Key + Ord + Drop, V: TopologyTuple<K>, T: Table<K, V>>(
    table: &mut T,
    keys: &mut BTreeSet<K>,
    key: K,
    tuple: V,
    until: u64,
) -> Result<bool, AllocError>
    requires { AreKeys K.eq K.cmp keys.old (T.content table.old) }
    ensures keys { AreKeys K.eq K.cmp keys.new (T.content table.new) }
    ensures distinct { HasDistinctKeys K.eq (T.content table.new) }
    ensures ok { OnOk result (SetsOnly K.eq (T.content table.old) (T.content table.new) key (Some (tuple, until))) }
    ensures same { IfOk result (λ changed. changed ≡ false ↔ SaysSame K.eq V.kind.says (T.content table.old) (T.content table.new)) }
    ensures count { OnOk result (length (T.content table.new) ≤ length (T.content table.old) + 1) }
{
    // Where it stands, its key is among the keys.
    if let Some(before) = table.renew(&key, tuple, until)? {
        return Ok(!before.is_same_but_number(&tuple));
    }
    put_keyed(table, keys, key, tuple, until)?;
    Ok(true)
}

impl<K: Key + Ord + Drop, V: TopologyTuple<K>, T: Table<K, V>> KeyedSet<K, V, T> {
    /// No tuples.
    pub fn new(alloc: Global) -> Result<KeyedSet<K, V, T>, AllocError>
        ensures { IfOk result (λ set. set ≡ []) }
    {
        Ok(KeyedSet {
            table: T::new(alloc)?,
            keys: BTreeSet::new(alloc),
            tuples: PhantomData,
        })
    }

    /// The tuples as a table. Takes no memory.
    pub fn table(&self) -> &T
        ensures content { T.content result.now ≡ self.now }
        ensures distinct { HasDistinctKeys K.eq self.now }
    {
        &self.table
    }

    /// How many tuples there are.
    pub fn len(&self) -> usize
        ensures { result ≡ length self.now }
    {
        self.table.len()
    }

    /// Takes the rows of a TC: they make or renew tuples until that moment. If the TC is complete, each other tuple of its
    /// originator with another number goes. Whether what the tuples say may have changed. After an allocation failure the set
    /// may only be dropped.
    pub fn take_rows(&mut self, tc: &Tc, until: u64) -> Result<bool, AllocError>
        ensures becomes { OnOk result (BecomesSet K.eq tc.now until V.kind.origin V.kind.number (GivenBy (given V.kind) tc.now) self.old self.new) }
        ensures same { IfOk result (λ changed. changed ≡ false → SaysSame K.eq V.kind.says self.old self.new) }
        ensures count { OnOk result (length self.new ≤ length self.old + count_by (λ row. is_some (given V.kind tc.now.originator tc.now.ansn row)) tc.now.rows) }
    {
        let mut changed = self.put_rows(tc, until)?;
        changed |= drop_outdated(&mut self.table, &mut self.keys, tc)?;
        Ok(changed)
    }

    /// Takes out what is expired at that moment. Whether something was. Takes no memory.
    pub fn expire(&mut self, now: u64) -> bool
        ensures kept { Expires K.eq now self.old self.new }
        ensures none { result ≡ false → self.new ≡ self.old }
        ensures count { length self.new ≤ length self.old }
        ensures distinct { HasDistinctKeys K.eq self.new }
    {
        expire_keyed(&mut self.table, &mut self.keys, now) > 0
    }

    // Puts a tuple, if there is one, until that moment. Whether none that says the same stood there.
    fn put_given(&mut self, given: Option<(K, V)>, until: u64) -> Result<bool, AllocError>
        ensures put { OnOk result (PutsGiven K.eq given until self.old self.new) }
        ensures same { IfOk result (λ changed. changed ≡ false ↔ SaysSame K.eq V.kind.says self.old self.new) }
        ensures count { OnOk result (length self.new ≤ length self.old + cond (is_some given) 1 0) }
    {
        let Some((key, tuple)) = given else {
            return Ok(false);
        };
        put_tuple(&mut self.table, &mut self.keys, key, tuple, until)
    }

    // Puts what the TC's rows give, until that moment. Whether what the tuples say may have changed.
    fn put_rows(&mut self, tc: &Tc, until: u64) -> Result<bool, AllocError>
        ensures put { OnOk result ((q : K) → PutsRows (given V.kind tc.now.originator tc.now.ansn) until tc.now.rows (length tc.now.rows) q
            (find K.eq self.old q) (find K.eq self.new q)) }
        ensures same { IfOk result (λ changed. changed ≡ false → SaysSame K.eq V.kind.says self.old self.new) }
        ensures count { OnOk result (length self.new ≤ length self.old + count_by (λ row. is_some (given V.kind tc.now.originator tc.now.ansn row)) tc.now.rows) }
    {
        let mut changed = false;
        for row in tc.rows.as_slice() {
            changed |= self.put_given(V::given_by(tc.originator, tc.ansn, row), until)?;
        }
        Ok(changed)
    }
}
