//! The tuples of an originator with another number (RFC 7181, section 16.3.3).
ghost use Rattle.std.specs.Prelude.{◌≡◌, ◌≤◌, false, length, IfOk, OnOk, None, cond};
ghost use Rattle.std.specs.List.{list_any};
ghost use Rattle.mesh_atoms.specs.Base.{HasDistinctKeys, find};
ghost use Rattle.mesh_atoms.specs.AfterTc.{if_not_dropped};
ghost use Rattle.mesh_expire.specs.Keyed.{AreKeys};
ghost use Rattle.mesh_topo.specs.TcSets.Sets.{has_other_number, is_outdated};

use crate::tc_sets::tuple::TopologyTuple;
use mesh_atoms::{Addr4, Seq, Tc};
use mesh_expire::{Key, Table, remove_keyed};
use std::alloc::{AllocError, Global};
use std::collections::BTreeSet;

/// If the TC is complete, takes out the tuples of its originator with another number. Whether there were some.
pub(crate) fn drop_outdated<K: Key + Ord + Drop, V: TopologyTuple<K>, T: Table<K, V>>(
    table: &mut T,
    keys: &mut BTreeSet<K>,
    tc: &Tc,
) -> Result<bool, AllocError>
    requires keys { AreKeys K.eq K.cmp keys.old (T.content table.old) }
    requires distinct { HasDistinctKeys K.eq (T.content table.old) }
    ensures keys { AreKeys K.eq K.cmp keys.new (T.content table.new) }
    ensures distinct { HasDistinctKeys K.eq (T.content table.new) }
    ensures dropped { OnOk result ((q : K) → find K.eq (T.content table.new) q
        ≡ if_not_dropped tc.now (V.kind.origin q) V.kind.number (find K.eq (T.content table.old) q)) }
    ensures same { IfOk result (λ changed. changed ≡ false → T.content table.new ≡ T.content table.old) }
    ensures count { OnOk result (length (T.content table.new) ≤ length (T.content table.old)) }
{
    if !tc.complete {
        return Ok(false);
    }
    let found = outdated(tc.rows.allocator(), table, keys, tc.originator, tc.ansn)?;
    if found.len() == 0 {
        return Ok(false);
    }
    remove_all(table, keys, found.as_slice());
    Ok(true)
}

// Whether the tuple of a key has another number.
fn has_other_number<K: Key + Ord, V: TopologyTuple<K>, T: Table<K, V>>(
    table: &T,
    key: &K,
    ansn: u16,
) -> bool
    ensures { result ≡ has_other_number ansn V.kind.number (find K.eq (T.content table.now) key.now) }
{
    match table.get(key) {
        Some((tuple, _)) => tuple.number_and_rest().0 != ansn,
        None => false,
    }
}

// The keys of the tuples of an originator with another number. Looks at the originator's tuples alone.
fn outdated<K: Key + Ord + Drop, V: TopologyTuple<K>, T: Table<K, V>>(
    alloc: Global,
    table: &T,
    keys: &BTreeSet<K>,
    originator: Addr4,
    ansn: u16,
) -> Result<Seq<K>, AllocError>
    requires { AreKeys K.eq K.cmp keys.now (T.content table.now) }
    ensures { IfOk result (λ found. (q : K) → list_any (K.eq q) found ≡ is_outdated K.eq originator ansn V.kind.origin V.kind.number (T.content table.now) q) }
{
    let mut found = Seq::new(alloc);
    for key in keys.range(V::first_key(originator)..) {
        if V::ends_of(key).0 != originator {
            return Ok(found);
        }
        if has_other_number(table, key, ansn) {
            found.push(*key)?;
        }
    }
    Ok(found)
}

// Takes out the tuples of these keys.
fn remove_all<K: Key + Ord + Drop, V, T: Table<K, V>>(
    table: &mut T,
    keys: &mut BTreeSet<K>,
    gone: &[K],
)
    requires keys { AreKeys K.eq K.cmp keys.old (T.content table.old) }
    requires distinct { HasDistinctKeys K.eq (T.content table.old) }
    ensures keys { AreKeys K.eq K.cmp keys.new (T.content table.new) }
    ensures distinct { HasDistinctKeys K.eq (T.content table.new) }
    ensures removed { (q : K) → find K.eq (T.content table.new) q ≡ cond (list_any (K.eq q) gone.now) None (find K.eq (T.content table.old) q) }
    ensures count { length (T.content table.new) ≤ length (T.content table.old) }
{
    for key in gone {
        remove_keyed(table, keys, key);
    }
}
