//! Look-ups for one far entry after the other. Entries by one neighbour mostly stand side by side, so that what was found for the
//! last one is kept.
ghost use Rattle.std.specs.Prelude.{◌≡◌, ◌≤◌, nat_lt, true, false, IsTrue, IfOk, length, IsPermutation};
ghost use Rattle.std.specs.List.Sorted.{IsNonDecreasingBy, IsPartitionPoint};
ghost use Rattle.std.specs.List.{list_any};
ghost use Rattle.mesh_relay.specs.Ways.{near_from, is_offer, is_first_within, IsSought};

use mesh_atoms::{Addr4, Direct, Near, NeighbourGraph};
use std::alloc::{AllocError, Global};

/// An id, the willing neighbour that has it with its place, and the place where the next direct entry is looked for first.
#[derive(Drop)]
pub struct Seek {
    pub via: Addr4,
    pub found: Option<(usize, Near)>,
    pub next: usize,
}

fn copied(alloc: Global, graph: &NeighbourGraph) -> Result<Vec<Direct>, AllocError>
    ensures { IfOk result (λ directs. directs.items ≡ graph.now.direct) }
{
    graph.direct.as_slice().iter().copied().collect(alloc)
}

/// The direct entries in ascending order of address.
pub fn directs_of(alloc: Global, graph: &NeighbourGraph) -> Result<Vec<Direct>, AllocError>
    ensures same { IfOk result (λ directs. IsPermutation graph.now.direct directs.items) }
    ensures order { IfOk result (λ directs. IsNonDecreasingBy (λ d. d.addr.0) directs.items) }
{
    let mut directs = copied(alloc, graph)?;
    directs.sort_unstable_by_key(|direct| direct.addr.0);
    Ok(directs)
}

/// Where the direct entries of no lower address begin.
fn first_direct(directs: &[Direct], addr: Addr4) -> usize
    requires { IsNonDecreasingBy (λ d. d.addr.0) directs.now }
    ensures within { result ≤ length directs.now }
    ensures point { IsPartitionPoint (λ d. nat_lt d.addr.0 addr.0 ≡ true) (λ d. nat_lt d.addr.0 addr.0 ≡ false) directs.now result }
{
    directs.partition_point(|direct| direct.addr.0 < addr.0)
}

/// Whether one of the first direct entries, those of that address, costs no more than `most`.
fn is_first_within(directs: &[Direct], addr: Addr4, most: u64) -> bool
    ensures { result ≡ is_first_within addr most directs.now }
{
    for direct in directs {
        if direct.addr.0 != addr.0 {
            return false;
        }
        if u64::from(direct.cost) <= most {
            return true;
        }
    }
    false
}

/// Whether a direct entry offers the address at no more than `most`, by a search.
fn is_found(directs: &[Direct], next: &mut usize, addr: Addr4, most: u64) -> bool
    requires { IsNonDecreasingBy (λ d. d.addr.0) directs.now }
    ensures { result ≡ list_any (is_offer addr most) directs.now }
{
    let first = first_direct(directs, addr);
    *next = first.saturating_add(1);
    is_first_within(&directs[first..], addr, most)
}

/// Whether the direct entry at that place offers the address at no more than `most`.
fn is_offer_at(directs: &[Direct], place: usize, addr: Addr4, most: u64) -> bool
    ensures { IsTrue result → list_any (is_offer addr most) directs.now ≡ true }
{
    place < directs.len()
        && directs[place].addr.0 == addr.0
        && u64::from(directs[place].cost) <= most
}

/// Whether a direct entry offers the address at no more than `most`. The one at `next` is looked at first, and the one after what is
/// found is to be the next.
pub fn is_direct(directs: &[Direct], next: &mut usize, addr: Addr4, most: u64) -> bool
    requires { IsNonDecreasingBy (λ d. d.addr.0) directs.now }
    ensures { result ≡ list_any (is_offer addr most) directs.now }
{
    if is_offer_at(directs, *next, addr, most) {
        *next = (*next).saturating_add(1);
        true
    } else {
        is_found(directs, next, addr, most)
    }
}

/// The first of the neighbours that has the id, and its place.
fn near_of(willing: &[Near], id: Addr4) -> Option<(usize, Near)>
    ensures { result ≡ near_from 0 willing.now id }
{
    for (place, near) in willing.iter().enumerate() {
        if near.id.0 == id.0 {
            return Some((place, *near));
        }
    }
    None
}

impl Seek {
    /// What is found for the least id, and no direct entry.
    pub fn new(willing: &[Near]) -> Seek
        ensures { IsSought willing.now result }
    {
        let via = Addr4(0);
        Seek {
            via,
            found: near_of(willing, via),
            next: 0,
        }
    }

    /// Finds the willing neighbour of an id.
    pub fn follow(&mut self, willing: &[Near], via: Addr4)
        requires { IsSought willing.now self.old }
        ensures via { self.new.via ≡ via }
        ensures found { self.new.found ≡ near_from 0 willing.now via }
    {
        if self.via.0 != via.0 {
            self.found = near_of(willing, via);
            self.via = via;
        }
    }
}
