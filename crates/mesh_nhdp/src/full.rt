//! Whether the addresses are too many (RFC 6130, section 12).
ghost use Rattle.std.specs.Prelude.{◌≡◌, ◌↔◌, ◌++◌, ◌∷◌, [], IsTrue, IfOk, OnOk};
ghost use Rattle.std.specs.Map.{keys_of};
ghost use Rattle.mesh_atoms.specs.TakesHello.{IsFullOfAddresses};
ghost use Rattle.mesh_hello.specs.Told.Telling.{told_of};

use crate::near_addresses::{WantedNeighbours, wanted_addresses};
use crate::sets::NeighbourhoodSets;
use mesh_atoms::{Addr4, Lost, Neighbour};
use mesh_expire::{Bases, Table};
use mesh_hello::{HelloInfo, ascending, put_table_keys};
use mesh_nbrs::{LostSet, NeighbourSet};
use std::alloc::{AllocError, Global};

/// How many addresses and originators a neighbourhood holds at most, those of lost neighbours with them.
const MOST_ADDRESSES: usize = 1024;

/// Whether these are at most 1,024 even where no two of them are one. Takes no memory.
fn are_few<B: Bases>(sets: &NeighbourhoodSets<B>, telling: &HelloInfo) -> bool
    ensures { IsTrue result → IsFullOfAddresses sets.now (told_of telling.now) → ⊥ }
{
    let neighbours = &sets.neighbours;
    let (count, addrs) = (neighbours.table().len(), neighbours.address_count());
    let (lost, told) = (sets.losts.table().len(), telling.listed.len());
    if count >= MOST_ADDRESSES
        || addrs >= MOST_ADDRESSES
        || lost >= MOST_ADDRESSES
        || told >= MOST_ADDRESSES
    {
        return false;
    }
    count + addrs + lost + told < MOST_ADDRESSES
}

/// Puts the originators of neighbours, the lost addresses and those that a HELLO tells of at the end of a list.
fn put_known<N: Table<Addr4, Neighbour>, O: Table<Addr4, Lost>>(
    addrs: &mut Vec<Addr4>,
    neighbours: &NeighbourSet<N>,
    losts: &LostSet<O>,
    originator: Addr4,
    listed: &[Addr4],
) -> Result<(), AllocError>
    ensures { OnOk result (addrs.new.items ≡ (((addrs.old.items ++ keys_of neighbours.now) ++ keys_of losts.now) ++ listed.now) ++ originator ∷ []) }
{
    put_table_keys(addrs, neighbours.table())?;
    put_table_keys(addrs, losts.table())?;
    addrs.extend_from_slice(listed)?;
    addrs.push(originator)?;
    Ok(())
}

/// The same as `is_full_of_addresses`, by a count of the different ones.
fn are_many<B: Bases>(
    alloc: Global,
    sets: &NeighbourhoodSets<B>,
    telling: &HelloInfo,
) -> Result<bool, AllocError>
    ensures { IfOk result (λ full. IsTrue full ↔ IsFullOfAddresses sets.now (told_of telling.now)) }
{
    let neighbours = &sets.neighbours;
    let listed = telling.listed.as_slice();
    let mut addrs = wanted_addresses(alloc, neighbours.table(), WantedNeighbours::Each)?;
    put_known(
        &mut addrs,
        neighbours,
        &sets.losts,
        telling.originator,
        listed,
    )?;
    let held = ascending(addrs);
    let count = held.len();
    Ok(count > MOST_ADDRESSES)
}

/// Whether more than 1,024 addresses and originators are held with those that a HELLO tells of. Gathers them and counts the
/// different ones only where all may be so many; else it looks at the counts alone.
pub fn is_full_of_addresses<B: Bases>(
    alloc: Global,
    sets: &NeighbourhoodSets<B>,
    telling: &HelloInfo,
) -> Result<bool, AllocError>
    ensures { IfOk result (λ full. IsTrue full ↔ IsFullOfAddresses sets.now (told_of telling.now)) }
{
    if are_few(sets, telling) {
        Ok(false)
    } else {
        are_many(alloc, sets, telling)
    }
}
