//! That keys are distinct, for proofs: what a table or a map keeps shows in what its calls ensure alone.
ghost use Rattle.mesh_atoms.specs.Base.{HasDistinctKeys};
ghost use Rattle.indexmap.specs.IndexMap.{IsUnique};

use crate::table::{Key, Table};
use indexmap::IndexMap;
use std::hash::Hash;

/// No key stands twice in the table. Does nothing.
pub fn keys_are_distinct<K: Key, V, T: Table<K, V>>(table: &T)
    ensures { HasDistinctKeys K.eq (T.content table.now) }
{
    let _count = table.len();
}

/// No key stands twice in the map. Does nothing.
pub fn map_keys_are_distinct<K: Key + Hash, V>(map: &IndexMap<K, V>)
    ensures { IsUnique K.eq map.now }
{
    let _count = map.len();
}
