//! A table with the ordered set of its keys, by which those that stand together are found.
ghost use Rattle.std.specs.Prelude.{◌≡◌, ◌+◌, ◌<◌, length, false, if◌then◌else◌, is_some, OnOk, OnErr, IsTrue, IsSome, ◌↔◌, Some, None};
ghost use Rattle.mesh_atoms.specs.Base.{HasDistinctKeys, find, SetsOnly, Expires};
ghost use Rattle.std.specs.BTreeSet.{contains, btree_set_len};
ghost use Rattle.mesh_expire.specs.Keyed.{AreKeys};

use crate::distinct::keys_are_distinct;
use crate::table::{Key, Table};
use std::alloc::AllocError;
use std::collections::BTreeSet;

/// Makes the tuple of a key, in place of the one that the key had. An allocation failure leaves the table unchanged.
pub fn put_keyed<K: Key + Ord + Drop, V: Drop, T: Table<K, V>>(
    table: &mut T,
    keys: &mut BTreeSet<K>,
    key: K,
    value: V,
    until: u64,
) -> Result<(), AllocError>
    requires { AreKeys K.eq K.cmp keys.old (T.content table.old) }
    ensures keys { AreKeys K.eq K.cmp keys.new (T.content table.new) }
    ensures ok { OnOk result (SetsOnly K.eq (T.content table.old) (T.content table.new) key (Some (value, until))) }
    ensures count { OnOk result (length (T.content table.new)
        ≡ length (T.content table.old) + (if is_some (find K.eq (T.content table.old) key) then 0 else 1)) }
    ensures err { OnErr result (T.content table.new ≡ T.content table.old) }
    ensures distinct { HasDistinctKeys K.eq (T.content table.new) }
{
    keys_are_distinct(table);
    let is_new = keys.insert(key)?;
    let Err(_) = table.put(key, value, until) else {
        return Ok(());
    };
    if is_new {
        keys.remove(&key);
    }
    Err(AllocError)
}

/// Takes out the tuple of a key, and its key from the set; false, leaving the table unchanged, where it isn't there. Takes
/// no memory.
pub fn remove_keyed<K: Key + Ord + Drop, V, T: Table<K, V>>(
    table: &mut T,
    keys: &mut BTreeSet<K>,
    key: &K,
) -> bool
    requires { AreKeys K.eq K.cmp keys.old (T.content table.old) }
    ensures keys { AreKeys K.eq K.cmp keys.new (T.content table.new) }
    ensures found { IsTrue result ↔ IsSome (find K.eq (T.content table.old) key.now) }
    ensures fewer { IsTrue (contains K.cmp keys.old key.now) → btree_set_len keys.new < btree_set_len keys.old }
    ensures removed { SetsOnly K.eq (T.content table.old) (T.content table.new) key.now None }
    ensures unchanged { result ≡ false → T.content table.new ≡ T.content table.old }
    ensures count { length (T.content table.new) + (if result then 1 else 0) ≡ length (T.content table.old) }
    ensures distinct { HasDistinctKeys K.eq (T.content table.new) }
{
    keys.remove(key);
    table.remove(key)
}

/// Takes out each tuple whose moment is at or below now, and its key from the set, and gives their number. Takes no memory.
pub fn expire_keyed<K: Key + Ord + Drop, V: Drop, T: Table<K, V>>(
    table: &mut T,
    keys: &mut BTreeSet<K>,
    now: u64,
) -> usize
    requires { AreKeys K.eq K.cmp keys.old (T.content table.old) }
    ensures keys { AreKeys K.eq K.cmp keys.new (T.content table.new) }
    ensures kept { Expires K.eq now (T.content table.old) (T.content table.new) }
    ensures count { result + length (T.content table.new) ≡ length (T.content table.old) }
    ensures none { result ≡ 0 → T.content table.new ≡ T.content table.old }
    ensures distinct { HasDistinctKeys K.eq (T.content table.new) }
{
    let before = table.len();
    while let Some(gone) = table.expire_next(now) {
        keys.remove(&gone.0);
    }
    before - table.len()
}
