//! A table of many tuples that expire together.
ghost use Rattle.std.specs.Prelude.{◌≡◌, ◌+◌, ◌<◌, ◌≤◌, ℕ, length, slice_get, swap_remove, false, if◌then◌else◌, is_some, OnOk, OnErr, IfOk, IfSome, IfNone, IsTrue, IsSome, ◌↔◌, option_map, Some, None};
ghost use Rattle.mesh_atoms.specs.Base.{find, SetsOnly, Expires, IsFresh};
ghost use Rattle.mesh_expire.specs.Table.{changed_at, TakesExpired};
ghost use Rattle.mesh_expire.specs.Swept.{IsSwept};

use crate::table::{Key, PlacedTable, Table};
use indexmap::IndexMap;
use std::alloc::{AllocError, Global};
use std::hash::Hash;
use std::marker::Model;

/// A table that finds a key by its hash, and looks at all entries for what is expired, once the first moment may have come. It
/// takes less memory than an `IndexTable`, and suits entries whose moments mostly change before they come.
#[derive(Drop)]
pub struct SweptTable<K: Key + Hash, V> {
    map: IndexMap<K, (V, u64)>,
    // No entry's moment is before it.
    soonest: u64,
}

impl<K: Key + Hash, V> Model for SweptTable<K, V> {
    ghost use Rattle.mesh_atoms.specs.Base.{Base};
    ghost use Rattle.mesh_expire.specs.Swept.{IsSwept};

    ghost Value = { Base K V };

    ghost view = { λ t. t.map.entries };

    ghost invariant = { λ t. IsSwept K.eq t.soonest t.map.entries };
}

// Takes out each entry whose moment is at or below now, from the last place on, and gives the least moment of the others.
fn sweep<K: Key + Hash + Drop, V: Drop>(map: &mut IndexMap<K, (V, u64)>, now: u64) -> u64
    ensures kept { Expires K.eq now map.old.entries map.new.entries }
    ensures none { length map.new.entries ≡ length map.old.entries → map.new.entries ≡ map.old.entries }
    ensures fewer { length map.new.entries ≤ length map.old.entries }
    ensures swept { IsSwept K.eq result map.new.entries }
{
    let mut place = map.len();
    let mut soonest = u64::MAX;
    while place > 0 {
        place -= 1;
        let Some((_, entry)) = map.get_index(place) else {
            continue;
        };
        if now < entry.1 {
            soonest = soonest.min(entry.1);
            continue;
        }
        map.swap_remove_index(place);
    }
    soonest
}

// Where an entry stands whose moment is at or below now.
fn expired_place<K: Key + Hash, V>(map: &IndexMap<K, (V, u64)>, now: u64) -> Option<usize>
    ensures some { IfSome result (λ i. (e : K × (V × ℕ)) × (slice_get map.now.entries i ≡ Some e) × (e.1.1 ≤ now)) }
    ensures none { IfNone result ((i : ℕ) (e : K × (V × ℕ)) → slice_get map.now.entries i ≡ Some e → now < e.1.1) }
{
    for place in 0..map.len() {
        let (_, entry) = map.get_index(place)?;
        if entry.1 <= now {
            return Some(place);
        }
    }
    None
}

fn put_in<K: Key + Hash + Drop, V: Drop>(
    map: &mut IndexMap<K, (V, u64)>,
    soonest: &mut u64,
    key: K,
    value: V,
    until: u64,
) -> Result<(), AllocError>
    requires { IsSwept K.eq soonest.old map.old.entries }
    ensures swept { IsSwept K.eq soonest.new map.new.entries }
    ensures ok { OnOk result (SetsOnly K.eq map.old.entries map.new.entries key (Some (value, until))) }
    ensures err { OnErr result (map.new.entries ≡ map.old.entries) }
    ensures count { OnOk result (length map.new.entries ≡ length map.old.entries + (if is_some (find K.eq map.old.entries key) then 0 else 1)) }
{
    map.insert(key, (value, until))?;
    *soonest = (*soonest).min(until);
    Ok(())
}

fn renew_in<K: Key + Hash + Drop, V: Drop>(
    map: &mut IndexMap<K, (V, u64)>,
    soonest: &mut u64,
    key: &K,
    value: V,
    until: u64,
) -> Option<V>
    requires { IsSwept K.eq soonest.old map.old.entries }
    ensures swept { IsSwept K.eq soonest.new map.new.entries }
    ensures before { result ≡ option_map (λ e. e.0) (find K.eq map.old.entries key.now) }
    ensures changed { map.new.entries ≡ changed_at K.eq map.old.entries key.now (λ _. (value, until)) }
{
    let entry = map.get_mut(key)?;
    let before = std::mem::replace(entry, (value, until));
    *soonest = (*soonest).min(until);
    Some(before.0)
}

fn set_until_in<K: Key + Hash + Drop, V>(
    map: &mut IndexMap<K, (V, u64)>,
    soonest: &mut u64,
    key: &K,
    until: u64,
) -> bool
    requires { IsSwept K.eq soonest.old map.old.entries }
    ensures swept { IsSwept K.eq soonest.new map.new.entries }
    ensures found { IsTrue result ↔ IsSome (find K.eq map.old.entries key.now) }
    ensures changed { map.new.entries ≡ changed_at K.eq map.old.entries key.now (λ e. (e.0, until)) }
{
    let Some(entry) = map.get_mut(key) else {
        return false;
    };
    entry.1 = until;
    *soonest = (*soonest).min(until);
    true
}

fn expire_in<K: Key + Hash + Drop, V: Drop>(
    map: &mut IndexMap<K, (V, u64)>,
    soonest: &mut u64,
    now: u64,
) -> usize
    requires { IsSwept K.eq soonest.old map.old.entries }
    ensures swept { IsSwept K.eq soonest.new map.new.entries }
    ensures kept { Expires K.eq now map.old.entries map.new.entries }
    ensures count { result + length map.new.entries ≡ length map.old.entries }
    ensures none { result ≡ 0 → map.new.entries ≡ map.old.entries }
{
    let before = map.len();
    if now < *soonest {
        return 0;
    }
    *soonest = sweep(map, now);
    before - map.len()
}

fn take_next<K: Key + Hash + Drop, V: Drop>(
    map: &mut IndexMap<K, (V, u64)>,
    soonest: u64,
    now: u64,
) -> Option<(K, V)>
    requires { IsSwept K.eq soonest map.old.entries }
    ensures swept { IsSwept K.eq soonest map.new.entries }
    ensures some { IfSome result (λ e. TakesExpired K.eq now e.0 e.1 map.old.entries map.new.entries) }
    ensures none { IfNone result (map.new.entries ≡ map.old.entries) }
    ensures fresh { IfNone result (IsFresh K.eq now map.old.entries) }
    ensures count { length map.new.entries + (if is_some result then 1 else 0) ≡ length map.old.entries }
{
    if now < soonest {
        return None;
    }
    let place = expired_place(map, now)?;
    let (key, entry) = map.swap_remove_index(place)?;
    Some((key, entry.0))
}

impl<K: Key + Hash + Drop, V: Drop> Table<K, V> for SweptTable<K, V> {
    ghost content = { λ t. t };

    fn new(alloc: Global) -> Result<SweptTable<K, V>, AllocError> {
        Ok(SweptTable {
            map: IndexMap::new(alloc),
            soonest: u64::MAX,
        })
    }

    fn len(&self) -> usize {
        self.map.len()
    }

    fn at(&self, place: usize) -> Option<(&K, &V, u64)> {
        match self.map.get_index(place) {
            Some((key, entry)) => Some((key, &entry.0, entry.1)),
            None => None,
        }
    }

    fn get(&self, key: &K) -> Option<(&V, u64)> {
        match self.map.get(key) {
            Some(entry) => Some((&entry.0, entry.1)),
            None => None,
        }
    }

    fn put(&mut self, key: K, value: V, until: u64) -> Result<(), AllocError> {
        put_in(&mut self.map, &mut self.soonest, key, value, until)
    }

    fn renew(&mut self, key: &K, value: V, until: u64) -> Result<Option<V>, AllocError> {
        Ok(renew_in(&mut self.map, &mut self.soonest, key, value, until))
    }

    fn remove(&mut self, key: &K) -> bool {
        self.map.swap_remove(key).is_some()
    }

    fn expire(&mut self, now: u64) -> usize {
        expire_in(&mut self.map, &mut self.soonest, now)
    }

    fn expire_next(&mut self, now: u64) -> Option<(K, V)> {
        take_next(&mut self.map, self.soonest, now)
    }

    fn value_mut(&mut self, key: &K) -> Option<&mut V> {
        match self.map.get_mut(key) {
            Some(entry) => Some(&mut entry.0),
            None => None,
        }
    }

    fn set_until(&mut self, key: &K, until: u64) -> Result<bool, AllocError> {
        Ok(set_until_in(&mut self.map, &mut self.soonest, key, until))
    }
}

impl<K: Key + Hash + Drop, V: Drop> PlacedTable<K, V> for SweptTable<K, V> {
    fn remove_at(&mut self, place: usize) -> bool {
        self.map.swap_remove_index(place).is_some()
    }
}
