//! A router's neighbourhood, tuple by tuple (RFC 6130, sections 7 and 8).
use crate::nhdp::Nhdp;
use mesh_atoms::{Addr4, Link, LinkKey, Neighbour, TwoHop, TwoHopKey};
use mesh_expire::{Bases, Table};
use mesh_nbrs::Near4;

impl<B: Bases> Near4 for Nhdp<B> {
    ghost near = { λ n. n.near };

    fn link_count(&self, iface: usize) -> usize {
        match self.sets.links_on(iface) {
            Some(set) => set.table().len(),
            None => 0,
        }
    }

    fn link(&self, iface: usize, place: usize) -> Option<(&LinkKey, &Link, u64)> {
        match self.sets.links_on(iface) {
            Some(set) => set.table().at(place),
            None => None,
        }
    }

    fn neighbour_count(&self) -> usize {
        self.sets.neighbours.table().len()
    }

    fn neighbour(&self, place: usize) -> Option<(&Addr4, &Neighbour, u64)> {
        self.sets.neighbours.table().at(place)
    }

    fn two_hop_count(&self, iface: usize) -> usize {
        self.sets.two_hop_count(iface)
    }

    fn two_hop(&self, iface: usize, place: usize) -> Option<(&TwoHopKey, &TwoHop, u64)> {
        match self.sets.two_hops_on(iface) {
            Some(set) => set.table().at(place),
            None => None,
        }
    }

    fn lost_count(&self) -> usize {
        self.sets.losts.table().len()
    }
}
