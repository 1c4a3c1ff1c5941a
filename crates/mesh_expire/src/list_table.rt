//! A table that is a list.
ghost use Rattle.std.specs.Prelude.{◌≡◌, ◌+◌, ◌<◌, ◌≤◌, ℕ, length, swap_remove, false, if◌then◌else◌, is_some, OnOk, OnErr, IfSome, IfNone, IsTrue, IsSome, ◌↔◌, slice_get, option_map, Some, None};
ghost use Rattle.mesh_atoms.specs.Base.{HasDistinctKeys, find, SetsOnly, Expires, IsFresh};
ghost use Rattle.mesh_expire.specs.Table.{changed_at, TakesExpired};

use crate::table::{Key, PlacedTable, Table};
use std::alloc::{AllocError, Global};
use std::marker::Model;

/// A table that is a list of entries, in which a key is looked for from the front.
#[derive(Drop)]
pub struct ListTable<K: Key, V> {
    entries: Vec<(K, (V, u64))>,
}

impl<K: Key, V> Model for ListTable<K, V> {
    ghost use Rattle.mesh_atoms.specs.Base.{Base, HasDistinctKeys};

    ghost Value = { Base K V };

    ghost view = { λ t. t.entries.items };

    ghost invariant = { λ t. HasDistinctKeys K.eq t.entries.items };
}

// Where the key stands.
fn place_of<K: Key, V>(entries: &Vec<(K, (V, u64))>, key: &K) -> Option<usize>
    ensures some { IfSome result (λ i. option_map (λ e. e.0) (slice_get entries.now.items i) ≡ Some key.now) }
    ensures none { IfNone result (find K.eq entries.now.items key.now ≡ None) }
{
    for (i, entry) in entries.iter().enumerate() {
        if *key == entry.0 {
            return Some(i);
        }
    }
    None
}

fn put_in<K: Key + Drop, V: Drop>(
    entries: &mut Vec<(K, (V, u64))>,
    key: K,
    value: V,
    until: u64,
) -> Result<(), AllocError>
    requires { HasDistinctKeys K.eq entries.old.items }
    ensures distinct { HasDistinctKeys K.eq entries.new.items }
    ensures ok { OnOk result (SetsOnly K.eq entries.old.items entries.new.items key (Some (value, until))) }
    ensures err { OnErr result (entries.new.items ≡ entries.old.items) }
    ensures count { OnOk result (length entries.new.items ≡ length entries.old.items + (if is_some (find K.eq entries.old.items key) then 0 else 1)) }
{
    match place_of(entries, &key) {
        Some(i) => {
            entries[i] = (key, (value, until));
            Ok(())
        }
        None => {
            entries.push((key, (value, until)))?;
            Ok(())
        }
    }
}

fn renew_in<K: Key, V: Drop>(
    entries: &mut Vec<(K, (V, u64))>,
    key: &K,
    value: V,
    until: u64,
) -> Option<V>
    requires { HasDistinctKeys K.eq entries.old.items }
    ensures distinct { HasDistinctKeys K.eq entries.new.items }
    ensures before { result ≡ option_map (λ e. e.0) (find K.eq entries.old.items key.now) }
    ensures changed { entries.new.items ≡ changed_at K.eq entries.old.items key.now (λ _. (value, until)) }
{
    match place_of(entries, key) {
        Some(i) => {
            let before = std::mem::replace(&mut entries[i].1, (value, until));
            Some(before.0)
        }
        None => None,
    }
}

fn remove_from<K: Key + Drop, V: Drop>(entries: &mut Vec<(K, (V, u64))>, key: &K) -> bool
    requires { HasDistinctKeys K.eq entries.old.items }
    ensures distinct { HasDistinctKeys K.eq entries.new.items }
    ensures found { IsTrue result ↔ IsSome (find K.eq entries.old.items key.now) }
    ensures removed { SetsOnly K.eq entries.old.items entries.new.items key.now None }
    ensures unchanged { result ≡ false → entries.new.items ≡ entries.old.items }
    ensures count { length entries.new.items + (if result then 1 else 0) ≡ length entries.old.items }
{
    match place_of(entries, key) {
        Some(i) => {
            entries.remove(i);
            true
        }
        None => false,
    }
}

fn drop_expired<K: Key + Drop, V: Drop>(entries: &mut Vec<(K, (V, u64))>, now: u64) -> usize
    requires { HasDistinctKeys K.eq entries.old.items }
    ensures distinct { HasDistinctKeys K.eq entries.new.items }
    ensures kept { Expires K.eq now entries.old.items entries.new.items }
    ensures count { result + length entries.new.items ≡ length entries.old.items }
    ensures none { result ≡ 0 → entries.new.items ≡ entries.old.items }
{
    let before = entries.len();
    entries.retain(|entry| now < entry.1.1);
    before - entries.len()
}

fn remove_from_place<K: Key + Drop, V: Drop>(entries: &mut Vec<(K, (V, u64))>, place: usize) -> bool
    requires { HasDistinctKeys K.eq entries.old.items }
    ensures distinct { HasDistinctKeys K.eq entries.new.items }
    ensures found { IsTrue result ↔ (place < length entries.old.items) }
    ensures removed { (e : K × (V × ℕ)) → slice_get entries.old.items place ≡ Some e → entries.new.items ≡ swap_remove entries.old.items place e }
    ensures unchanged { result ≡ false → entries.new.items ≡ entries.old.items }
{
    if place >= entries.len() {
        return false;
    }
    entries.swap_remove(place);
    true
}

// Where an entry stands whose moment is at or below now.
fn expired_place<K: Key, V>(entries: &Vec<(K, (V, u64))>, now: u64) -> Option<usize>
    ensures some { IfSome result (λ i. (e : K × (V × ℕ)) × (slice_get entries.now.items i ≡ Some e) × (e.1.1 ≤ now)) }
    ensures none { IfNone result ((i : ℕ) (e : K × (V × ℕ)) → slice_get entries.now.items i ≡ Some e → now < e.1.1) }
{
    for i in 0..entries.len() {
        if entries[i].1.1 <= now {
            return Some(i);
        }
    }
    None
}

fn take_next<K: Key + Drop, V: Drop>(entries: &mut Vec<(K, (V, u64))>, now: u64) -> Option<(K, V)>
    requires { HasDistinctKeys K.eq entries.old.items }
    ensures distinct { HasDistinctKeys K.eq entries.new.items }
    ensures some { IfSome result (λ e. TakesExpired K.eq now e.0 e.1 entries.old.items entries.new.items) }
    ensures none { IfNone result (entries.new.items ≡ entries.old.items) }
    ensures fresh { IfNone result (IsFresh K.eq now entries.old.items) }
    ensures count { length entries.new.items + (if is_some result then 1 else 0) ≡ length entries.old.items }
{
    let Some(i) = expired_place(entries, now) else {
        return None;
    };
    let (key, entry) = entries.remove(i);
    Some((key, entry.0))
}

fn set_until_in<K: Key, V>(entries: &mut Vec<(K, (V, u64))>, key: &K, until: u64) -> bool
    requires { HasDistinctKeys K.eq entries.old.items }
    ensures distinct { HasDistinctKeys K.eq entries.new.items }
    ensures found { IsTrue result ↔ IsSome (find K.eq entries.old.items key.now) }
    ensures changed { entries.new.items ≡ changed_at K.eq entries.old.items key.now (λ e. (e.0, until)) }
{
    match place_of(entries, key) {
        Some(i) => {
            entries[i].1.1 = until;
            true
        }
        None => false,
    }
}

impl<K: Key + Drop, V: Drop> Table<K, V> for ListTable<K, V> {
    ghost content = { λ t. t };

    fn new(alloc: Global) -> Result<ListTable<K, V>, AllocError> {
        Ok(ListTable {
            entries: Vec::new(alloc),
        })
    }

    fn len(&self) -> usize {
        self.entries.len()
    }

    fn at(&self, place: usize) -> Option<(&K, &V, u64)> {
        match self.entries.as_slice().get(place) {
            Some(entry) => Some((&entry.0, &entry.1.0, entry.1.1)),
            None => None,
        }
    }

    fn get(&self, key: &K) -> Option<(&V, u64)> {
        for entry in &self.entries {
            if *key == entry.0 {
                return Some((&entry.1.0, entry.1.1));
            }
        }
        None
    }

    fn put(&mut self, key: K, value: V, until: u64) -> Result<(), AllocError> {
        put_in(&mut self.entries, key, value, until)
    }

    fn renew(&mut self, key: &K, value: V, until: u64) -> Result<Option<V>, AllocError> {
        Ok(renew_in(&mut self.entries, key, value, until))
    }

    fn remove(&mut self, key: &K) -> bool {
        remove_from(&mut self.entries, key)
    }

    fn expire(&mut self, now: u64) -> usize {
        drop_expired(&mut self.entries, now)
    }

    fn expire_next(&mut self, now: u64) -> Option<(K, V)> {
        take_next(&mut self.entries, now)
    }

    fn value_mut(&mut self, key: &K) -> Option<&mut V> {
        match place_of(&self.entries, key) {
            Some(i) => Some(&mut self.entries[i].1.0),
            None => None,
        }
    }

    fn set_until(&mut self, key: &K, until: u64) -> Result<bool, AllocError> {
        Ok(set_until_in(&mut self.entries, key, until))
    }
}

impl<K: Key + Drop, V: Drop> PlacedTable<K, V> for ListTable<K, V> {
    fn remove_at(&mut self, place: usize) -> bool {
        remove_from_place(&mut self.entries, place)
    }
}
