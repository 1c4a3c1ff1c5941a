//! A table with an index of its keys, and one of its moments.
ghost use Rattle.std.specs.Prelude.{◌≡◌, ◌≤◌, ◌<◌, ℕ, ◌+◌, length, slice_get, swap_remove, true, false, if◌then◌else◌, is_some, IfOk, OnOk, OnErr, IfSome, IfNone, IsTrue, IsSome, ◌↔◌, option_map, Some, None};
ghost use Rattle.mesh_atoms.specs.Base.{find, SetsOnly, Expires, IsFresh};
ghost use Rattle.mesh_expire.specs.Table.{changed_at, TakesExpired};
ghost use Rattle.mesh_expire.specs.Index.Moments.{IsIndexed};

use crate::index::moments::{Bucket, move_moment, put_key, take_expired, take_key};
use crate::{Key, PlacedTable, Table};
use indexmap::IndexMap;
use std::alloc::{AllocError, Global};
use std::collections::BTreeMap;
use std::hash::Hash;
use std::marker::Model;

/// A table that finds a key by its hash, and what is expired by the order of the moments.
#[derive(Drop)]
pub struct IndexTable<K: Key + Ord + Hash, V> {
    map: IndexMap<K, (V, u64)>,
    moments: BTreeMap<u64, Bucket<K>>,
}

impl<K: Key + Ord + Hash, V> Model for IndexTable<K, V> {
    ghost use Rattle.mesh_atoms.specs.Base.{Base};
    ghost use Rattle.mesh_expire.specs.Index.Moments.{IsIndexed};

    ghost Value = { Base K V };

    ghost view = { λ t. t.map.entries };

    ghost invariant = { λ t. IsIndexed K.eq t.moments t.map.entries };
}

// Makes the entry of a key that has none.
fn add_in<K: Key + Hash + Drop, V: Drop>(
    map: &mut IndexMap<K, (V, u64)>,
    moments: &mut BTreeMap<u64, Bucket<K>>,
    key: K,
    value: V,
    until: u64,
) -> Result<(), AllocError>
    requires indexed { IsIndexed K.eq moments.old map.old.entries }
    requires absent { find K.eq map.old.entries key ≡ None }
    ensures indexed { IsIndexed K.eq moments.new map.new.entries }
    ensures ok { OnOk result (SetsOnly K.eq map.old.entries map.new.entries key (Some (value, until))) }
    ensures err { OnErr result (map.new.entries ≡ map.old.entries) }
    ensures count { OnOk result (length map.new.entries ≡ length map.old.entries + 1) }
{
    put_key(moments, *map.allocator(), until, key)?;
    let Err(_) = map.insert(key, (value, until)) else {
        return Ok(());
    };
    take_key(moments, until, &key);
    Err(AllocError)
}

fn put_in<K: Key + Hash + Drop, V: Drop>(
    map: &mut IndexMap<K, (V, u64)>,
    moments: &mut BTreeMap<u64, Bucket<K>>,
    key: K,
    value: V,
    until: u64,
) -> Result<(), AllocError>
    requires { IsIndexed K.eq moments.old map.old.entries }
    ensures indexed { IsIndexed K.eq moments.new map.new.entries }
    ensures ok { OnOk result (SetsOnly K.eq map.old.entries map.new.entries key (Some (value, until))) }
    ensures err { OnErr result (map.new.entries ≡ map.old.entries) }
    ensures count { OnOk result (length map.new.entries ≡ length map.old.entries + (if is_some (find K.eq map.old.entries key) then 0 else 1)) }
{
    let alloc = *map.allocator();
    let Some(entry) = map.get_mut(&key) else {
        return add_in(map, moments, key, value, until);
    };
    move_moment(moments, alloc, key, Some(entry.1), until)?;
    *entry = (value, until);
    Ok(())
}

fn renew_in<K: Key + Hash + Drop, V: Drop>(
    map: &mut IndexMap<K, (V, u64)>,
    moments: &mut BTreeMap<u64, Bucket<K>>,
    key: &K,
    value: V,
    until: u64,
) -> Result<Option<V>, AllocError>
    requires { IsIndexed K.eq moments.old map.old.entries }
    ensures indexed { IsIndexed K.eq moments.new map.new.entries }
    ensures before { IfOk result (λ before. before ≡ option_map (λ e. e.0) (find K.eq map.old.entries key.now)) }
    ensures ok { OnOk result (map.new.entries ≡ changed_at K.eq map.old.entries key.now (λ _. (value, until))) }
    ensures err { OnErr result (map.new.entries ≡ map.old.entries) }
{
    let alloc = *map.allocator();
    let Some(entry) = map.get_mut(key) else {
        return Ok(None);
    };
    move_moment(moments, alloc, *key, Some(entry.1), until)?;
    let before = std::mem::replace(entry, (value, until));
    Ok(Some(before.0))
}

fn remove_from<K: Key + Hash + Drop, V: Drop>(
    map: &mut IndexMap<K, (V, u64)>,
    moments: &mut BTreeMap<u64, Bucket<K>>,
    key: &K,
) -> bool
    requires { IsIndexed K.eq moments.old map.old.entries }
    ensures indexed { IsIndexed K.eq moments.new map.new.entries }
    ensures found { IsTrue result ↔ IsSome (find K.eq map.old.entries key.now) }
    ensures removed { SetsOnly K.eq map.old.entries map.new.entries key.now None }
    ensures unchanged { result ≡ false → map.new.entries ≡ map.old.entries }
    ensures count { length map.new.entries + (if result then 1 else 0) ≡ length map.old.entries }
{
    let Some((_, until)) = map.swap_remove(key) else {
        return false;
    };
    take_key(moments, until, key);
    true
}

fn remove_from_place<K: Key + Hash + Drop, V: Drop>(
    map: &mut IndexMap<K, (V, u64)>,
    moments: &mut BTreeMap<u64, Bucket<K>>,
    place: usize,
) -> bool
    requires { IsIndexed K.eq moments.old map.old.entries }
    ensures indexed { IsIndexed K.eq moments.new map.new.entries }
    ensures found { IsTrue result ↔ (place < length map.old.entries) }
    ensures removed { (e : K × (V × ℕ)) → slice_get map.old.entries place ≡ Some e → map.new.entries ≡ swap_remove map.old.entries place e }
    ensures unchanged { result ≡ false → map.new.entries ≡ map.old.entries }
{
    let Some((key, entry)) = map.swap_remove_index(place) else {
        return false;
    };
    take_key(moments, entry.1, &key);
    true
}

fn take_next<K: Key + Hash + Drop, V: Drop>(
    map: &mut IndexMap<K, (V, u64)>,
    moments: &mut BTreeMap<u64, Bucket<K>>,
    now: u64,
) -> Option<(K, V)>
    requires { IsIndexed K.eq moments.old map.old.entries }
    ensures indexed { IsIndexed K.eq moments.new map.new.entries }
    ensures some { IfSome result (λ e. TakesExpired K.eq now e.0 e.1 map.old.entries map.new.entries) }
    ensures none { IfNone result (map.new.entries ≡ map.old.entries) }
    ensures fresh { IfNone result (IsFresh K.eq now map.old.entries) }
    ensures count { length map.new.entries + (if is_some result then 1 else 0) ≡ length map.old.entries }
{
    let Some(key) = take_expired(moments, now) else {
        return None;
    };
    // Its key is in the map.
    let Some((value, _)) = map.swap_remove(&key) else {
        return None;
    };
    Some((key, value))
}

fn drop_expired<K: Key + Hash + Drop, V: Drop>(
    map: &mut IndexMap<K, (V, u64)>,
    moments: &mut BTreeMap<u64, Bucket<K>>,
    now: u64,
) -> usize
    requires { IsIndexed K.eq moments.old map.old.entries }
    ensures indexed { IsIndexed K.eq moments.new map.new.entries }
    ensures kept { Expires K.eq now map.old.entries map.new.entries }
    ensures count { result + length map.new.entries ≡ length map.old.entries }
    ensures none { result ≡ 0 → map.new.entries ≡ map.old.entries }
{
    let before = map.len();
    while let Some(_gone) = take_next(map, moments, now) {}
    before - map.len()
}

fn set_until_in<K: Key + Hash + Drop, V>(
    map: &mut IndexMap<K, (V, u64)>,
    moments: &mut BTreeMap<u64, Bucket<K>>,
    key: &K,
    until: u64,
) -> Result<bool, AllocError>
    requires { IsIndexed K.eq moments.old map.old.entries }
    ensures indexed { IsIndexed K.eq moments.new map.new.entries }
    ensures found { IfOk result (λ was_there. IsTrue was_there ↔ IsSome (find K.eq map.old.entries key.now)) }
    ensures ok { OnOk result (map.new.entries ≡ changed_at K.eq map.old.entries key.now (λ e. (e.0, until))) }
    ensures err { OnErr result (map.new.entries ≡ map.old.entries) }
{
    let alloc = *map.allocator();
    let Some(entry) = map.get_mut(key) else {
        return Ok(false);
    };
    move_moment(moments, alloc, *key, Some(entry.1), until)?;
    entry.1 = until;
    Ok(true)
}

impl<K: Key + Ord + Hash + Drop, V: Drop> Table<K, V> for IndexTable<K, V> {
    ghost content = { λ t. t };

    fn new(alloc: Global) -> Result<IndexTable<K, V>, AllocError> {
        Ok(IndexTable {
            map: IndexMap::new(alloc),
            moments: BTreeMap::new(alloc),
        })
    }

    fn len(&self) -> usize {
        self.map.len()
    }

    fn at(&self, place: usize) -> Option<(&K, &V, u64)> {
        match self.map.get_index(place) {
            Some((key, entry)) => Some((key, &entry.0, entry.1)),
            None => None,
        }
    }

    fn get(&self, key: &K) -> Option<(&V, u64)> {
        match self.map.get(key) {
            Some(entry) => Some((&entry.0, entry.1)),
            None => None,
        }
    }

    fn put(&mut self, key: K, value: V, until: u64) -> Result<(), AllocError> {
        put_in(&mut self.map, &mut self.moments, key, value, until)
    }

    fn renew(&mut self, key: &K, value: V, until: u64) -> Result<Option<V>, AllocError> {
        renew_in(&mut self.map, &mut self.moments, key, value, until)
    }

    fn remove(&mut self, key: &K) -> bool {
        remove_from(&mut self.map, &mut self.moments, key)
    }

    fn expire(&mut self, now: u64) -> usize {
        drop_expired(&mut self.map, &mut self.moments, now)
    }

    fn expire_next(&mut self, now: u64) -> Option<(K, V)> {
        take_next(&mut self.map, &mut self.moments, now)
    }

    fn value_mut(&mut self, key: &K) -> Option<&mut V> {
        match self.map.get_mut(key) {
            Some(entry) => Some(&mut entry.0),
            None => None,
        }
    }

    fn set_until(&mut self, key: &K, until: u64) -> Result<bool, AllocError> {
        set_until_in(&mut self.map, &mut self.moments, key, until)
    }
}

impl<K: Key + Ord + Hash + Drop, V: Drop> PlacedTable<K, V> for IndexTable<K, V> {
    fn remove_at(&mut self, place: usize) -> bool {
        remove_from_place(&mut self.map, &mut self.moments, place)
    }
}
