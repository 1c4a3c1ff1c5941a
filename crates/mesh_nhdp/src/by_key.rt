//! Tuples of a router's neighbourhood by their keys (RFC 6130, sections 7 and 8).
ghost use Rattle.std.specs.Prelude.{◌≡◌};
ghost use Rattle.mesh_atoms.specs.Base.{base_of, find, link_eq, two_hop_eq, addr_eq};
ghost use Rattle.mesh_expire.specs.Table.{value_of};

use crate::nhdp::Nhdp;
use mesh_atoms::{Addr4, Link, LinkKey, Neighbour, TwoHop, TwoHopKey};
use mesh_expire::{Bases, Table};

impl<B: Bases> Nhdp<B> {
    /// The link of interface `iface` with that key, and its moment; `None` where none has it. Takes no memory.
    pub fn link_of(&self, iface: usize, key: &LinkKey) -> Option<(&Link, u64)>
        ensures { value_of result ≡ find link_eq (base_of self.now.near.links iface) key.now }
    {
        match self.sets.links_on(iface) {
            Some(set) => set.table().get(key),
            None => None,
        }
    }

    /// The 2-hop tuple of interface `iface` with that key, and its moment; `None` where none has it. Takes no memory.
    pub fn two_hop_of(&self, iface: usize, key: &TwoHopKey) -> Option<(&TwoHop, u64)>
        ensures { value_of result ≡ find two_hop_eq (base_of self.now.near.two_hops iface) key.now }
    {
        match self.sets.two_hops_on(iface) {
            Some(set) => set.table().get(key),
            None => None,
        }
    }

    /// The neighbour with that originator, and its moment; `None` where none has it. Takes no memory.
    pub fn neighbour_of(&self, originator: &Addr4) -> Option<(&Neighbour, u64)>
        ensures { value_of result ≡ find addr_eq self.now.near.neighbours originator.now }
    {
        self.sets.neighbours.table().get(originator)
    }
}
