//! Lists of keys, and of addresses in order.
ghost use Rattle.std.specs.Prelude.{◌≡◌, ◌↔◌, ◌++◌, Contains, OnOk};
ghost use Rattle.std.specs.Map.{keys_of};
ghost use Rattle.mesh_atoms.specs.Words.{IsAscending};

use mesh_atoms::{Addr4, Seq};
use mesh_expire::{Key, Table};
use std::alloc::AllocError;

/// The addresses in ascending order, each once. Takes no memory.
pub fn ascending(addrs: Vec<Addr4>) -> Seq<Addr4>
    ensures order { IsAscending result }
    ensures same { (a : Addr4) → Contains result a ↔ Contains addrs.items a }
{
    let mut sorted = addrs;
    sorted.sort_unstable();
    sorted.dedup();
    Seq::from_vec(sorted)
}

/// Puts the keys of a table at the end of a list, place by place.
pub fn put_table_keys<K: Key + Drop, V, T: Table<K, V>>(
    keys: &mut Vec<K>,
    table: &T,
) -> Result<(), AllocError>
    ensures { OnOk result (keys.new.items ≡ keys.old.items ++ keys_of (T.content table.now)) }
{
    for place in 0..table.len() {
        match table.at(place) {
            Some((key, _, _)) => {
                keys.push(*key)?;
            }
            None => return Ok(()),
        }
    }
    Ok(())
}
