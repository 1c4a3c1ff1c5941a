//! A table that holds nothing.
ghost use Rattle.std.specs.Prelude.{[]};

use crate::table::{Key, PlacedTable, Table};
use std::alloc::{AllocError, Global};

/// A table that is always empty, and takes no memory.
#[derive(Drop)]
pub struct NoTable;

#[tactic(auto, using(crate::proofs::Laws::distinct_none))]
impl<K: Key, V: Drop> Table<K, V> for NoTable {
    ghost content = { λ _. [] };

    fn new(_alloc: Global) -> Result<NoTable, AllocError> {
        Ok(NoTable)
    }

    fn len(&self) -> usize {
        0
    }

    fn at(&self, _place: usize) -> Option<(&K, &V, u64)> {
        None
    }

    fn get(&self, _key: &K) -> Option<(&V, u64)> {
        None
    }

    fn put(&mut self, _key: K, _value: V, _until: u64) -> Result<(), AllocError> {
        Err(AllocError)
    }

    fn renew(&mut self, _key: &K, _value: V, _until: u64) -> Result<Option<V>, AllocError> {
        Ok(None)
    }

    fn remove(&mut self, _key: &K) -> bool {
        false
    }

    fn expire(&mut self, _now: u64) -> usize {
        0
    }

    fn expire_next(&mut self, _now: u64) -> Option<(K, V)> {
        None
    }

    fn value_mut(&mut self, _key: &K) -> Option<&mut V> {
        None
    }

    fn set_until(&mut self, _key: &K, _until: u64) -> Result<bool, AllocError> {
        Ok(false)
    }
}

#[tactic(auto, using(crate::proofs::Laws::distinct_none))]
impl<K: Key, V: Drop> PlacedTable<K, V> for NoTable {
    fn remove_at(&mut self, _place: usize) -> bool {
        false
    }
}
