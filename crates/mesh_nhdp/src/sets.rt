//! The sets of tuples that a neighbourhood is made of (RFC 6130, sections 7 and 8).
ghost use Rattle.std.specs.Prelude.{◌≡◌, [], length, replicate, unwrap_or, option_copied, IfOk};
ghost use Rattle.mesh_atoms.specs.Base.{base_of};
ghost use Rattle.mesh_nhdp.specs.NhdpState.{empty_near};

use mesh_atoms::{Link, LinkKey, TwoHop, TwoHopKey};
use mesh_expire::{Bases, PlacedTable, Table};
use mesh_links::LinkSet;
use mesh_nbrs::{LostSet, NeighbourSet, TwoHopSet};
use std::alloc::{AllocError, Global};
use std::marker::Model;

/// The links and the 2-hop tuples of each interface, the neighbours, and the lost addresses. After an allocation failure they may
/// only be dropped.
pub struct NeighbourhoodSets<B: Bases> {
    pub links: Vec<LinkSet<B::Links>>,
    pub two_hops: Vec<TwoHopSet<B::TwoHops>>,
    pub neighbours: NeighbourSet<B::Neighbours>,
    pub losts: LostSet<B::Losts>,
}

impl<B: Bases> Drop for NeighbourhoodSets<B> {
    fn drop(self) {
        let NeighbourhoodSets {
            links: _,
            two_hops: _,
            neighbours: _,
            losts: _,
        } = self;
    }
}

impl<B: Bases> Model for NeighbourhoodSets<B> {
    ghost use Rattle.mesh_atoms.specs.State.{Neighbourhood};

    ghost Value = { Neighbourhood };

    ghost view = { λ s. record { links = s.links.items; two_hops = s.two_hops.items; neighbours = s.neighbours; losts = s.losts } };
}

impl<B: Bases> NeighbourhoodSets<B> {
    /// No links and no 2-hop tuples on so many interfaces, no neighbour, and no lost address.
    pub fn new(alloc: Global, count: usize) -> Result<NeighbourhoodSets<B>, AllocError>
        ensures { IfOk result (λ sets. sets ≡ empty_near count) }
    {
        Ok(NeighbourhoodSets {
            links: no_links(alloc, count)?,
            two_hops: no_two_hops(alloc, count)?,
            neighbours: NeighbourSet::new(alloc)?,
            losts: LostSet::new(alloc)?,
        })
    }

    /// The links of an interface; `None` where there is no such interface. Takes no memory.
    pub fn links_on(&self, iface: usize) -> Option<&LinkSet<B::Links>>
        ensures { unwrap_or (option_copied result) [] ≡ base_of self.now.links iface }
    {
        self.links.as_slice().get(iface)
    }

    /// The 2-hop tuples of an interface; `None` where there is no such interface. Takes no memory.
    pub fn two_hops_on(&self, iface: usize) -> Option<&TwoHopSet<B::TwoHops>>
        ensures { unwrap_or (option_copied result) [] ≡ base_of self.now.two_hops iface }
    {
        self.two_hops.as_slice().get(iface)
    }

    /// How many 2-hop tuples the interface has. Takes no memory.
    pub fn two_hop_count(&self, iface: usize) -> usize
        ensures { result ≡ length (base_of self.now.two_hops iface) }
    {
        match self.two_hops_on(iface) {
            Some(set) => set.table().len(),
            None => 0,
        }
    }
}

/// No links on so many interfaces.
fn no_links<T: Table<LinkKey, Link>>(
    alloc: Global,
    count: usize,
) -> Result<Vec<LinkSet<T>>, AllocError>
    ensures { IfOk result (λ sets. sets.items ≡ replicate count []) }
{
    let mut sets = Vec::new(alloc);
    for _ in 0..count {
        sets.push(LinkSet::new(alloc)?)?;
    }
    Ok(sets)
}

/// No 2-hop tuples on so many interfaces.
fn no_two_hops<T: PlacedTable<TwoHopKey, TwoHop>>(
    alloc: Global,
    count: usize,
) -> Result<Vec<TwoHopSet<T>>, AllocError>
    ensures { IfOk result (λ sets. sets.items ≡ replicate count []) }
{
    let mut sets = Vec::new(alloc);
    for _ in 0..count {
        sets.push(TwoHopSet::new(alloc)?)?;
    }
    Ok(sets)
}
