//! Addresses of neighbours (RFC 6130, section 8.1).
ghost use Rattle.std.specs.Prelude.{◌≡◌, ◌↔◌, Contains, IsTrue, IfOk, OnOk};
ghost use Rattle.mesh_atoms.specs.declared.addr.Addr4.{Addr4};
ghost use Rattle.mesh_atoms.specs.Base.{find, addr_eq};
ghost use Rattle.mesh_hello.specs.Gathers.{Gathers};
ghost use Rattle.mesh_nhdp.specs.Wanted.{IsWanted, IsWantedAt, IsWantedAddress, IsSpokenAddress, IsSymmetricSpokenAddress, symmetric_at};

use mesh_atoms::{Addr4, Neighbour};
use mesh_expire::Table;
use mesh_hello::{HasSaid, HelloInfo};
use mesh_nbrs::NeighbourSet;
use std::alloc::{AllocError, Global};

/// The neighbours whose addresses are wanted: all, or the symmetric ones.
#[derive(Clone, Copy)]
pub enum WantedNeighbours {
    Each,
    Symmetric,
}

/// Whether the neighbour is wanted.
fn is_wanted(wanted: WantedNeighbours, neighbour: &Neighbour) -> bool
    ensures { IsTrue result ↔ IsWanted wanted neighbour.now }
{
    match wanted {
        WantedNeighbours::Each => true,
        WantedNeighbours::Symmetric => neighbour.symmetric,
    }
}

/// Adds the neighbour's addresses where it is wanted.
fn add_wanted(
    addrs: &mut Vec<Addr4>,
    wanted: WantedNeighbours,
    neighbour: &Neighbour,
) -> Result<(), AllocError>
    ensures { OnOk result (Gathers addrs.old.items addrs.new.items (λ a. IsWanted wanted neighbour.now × Contains neighbour.now.addrs a)) }
{
    if is_wanted(wanted, neighbour) {
        addrs.extend_from_slice(neighbour.addrs.as_slice())?;
    }
    Ok(())
}

/// Adds the addresses of the neighbour with that originator, where it is wanted.
fn add_wanted_at<T: Table<Addr4, Neighbour>>(
    addrs: &mut Vec<Addr4>,
    table: &T,
    wanted: WantedNeighbours,
    originator: Addr4,
) -> Result<(), AllocError>
    ensures { OnOk result (Gathers addrs.old.items addrs.new.items (IsWantedAt (T.content table.now) wanted originator)) }
{
    match table.get(&originator) {
        Some((neighbour, _)) => add_wanted(addrs, wanted, neighbour),
        None => Ok(()),
    }
}

/// The addresses of the neighbours with these originators that are wanted, an address once for each neighbour that has it. Looks
/// at no other neighbour.
fn addresses_of<T: Table<Addr4, Neighbour>>(
    alloc: Global,
    table: &T,
    originators: &[Addr4],
    wanted: WantedNeighbours,
) -> Result<Vec<Addr4>, AllocError>
    ensures { IfOk result (λ addrs. (a : Addr4) → Contains addrs.items a ↔ ((o : Addr4) × Contains originators.now o × IsWantedAt (T.content table.now) wanted o a)) }
{
    let mut addrs = Vec::new(alloc);
    for originator in originators {
        add_wanted_at(&mut addrs, table, wanted, *originator)?;
    }
    Ok(addrs)
}

/// The addresses of the neighbours that a HELLO speaks of, and those of the symmetric ones among them, an address once for each
/// neighbour that has it. Looks at no other neighbour.
pub fn spoken_addresses<N: Table<Addr4, Neighbour>>(
    alloc: Global,
    neighbours: &NeighbourSet<N>,
    telling: &HelloInfo,
) -> Result<(Vec<Addr4>, Vec<Addr4>), AllocError>
    ensures all { IfOk result (λ found. (a : Addr4) → Contains found.0.items a ↔ IsSpokenAddress neighbours.now telling.now.originator telling.now.listed a) }
    ensures symmetric { IfOk result (λ found. (a : Addr4) → Contains found.1.items a ↔ IsSymmetricSpokenAddress neighbours.now telling.now.originator telling.now.listed a) }
{
    let spoken = neighbours.spoken_of(telling.originator, telling.listed.as_slice())?;
    let table = neighbours.table();
    let all = addresses_of(alloc, table, &spoken, WantedNeighbours::Each)?;
    let symmetric = addresses_of(alloc, table, &spoken, WantedNeighbours::Symmetric)?;
    Ok((all, symmetric))
}

/// The addresses of the neighbours that are wanted, an address once for each neighbour that has it.
pub fn wanted_addresses<T: Table<Addr4, Neighbour>>(
    alloc: Global,
    table: &T,
    wanted: WantedNeighbours,
) -> Result<Vec<Addr4>, AllocError>
    ensures { IfOk result (λ addrs. (a : Addr4) → Contains addrs.items a ↔ IsWantedAddress (T.content table.now) wanted a) }
{
    let mut addrs = Vec::new(alloc);
    for place in 0..table.len() {
        match table.at(place) {
            Some((_, neighbour, _)) => add_wanted(&mut addrs, wanted, neighbour)?,
            None => return Ok(addrs),
        }
    }
    Ok(addrs)
}

/// The addresses of the neighbour with that originator, where it is symmetric; else none. Takes no memory.
pub fn symmetric_at<T: Table<Addr4, Neighbour>>(table: &T, originator: Addr4) -> &[Addr4]
    ensures { result.now ≡ symmetric_at (find addr_eq (T.content table.now) originator) }
{
    match table.get(&originator) {
        Some((neighbour, _)) => neighbour.said(),
        None => &[],
    }
}
