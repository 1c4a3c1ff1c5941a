//! The neighbourhood as whoever chooses relays and routes looks at it (RFC 6130, sections 7 and 8).
ghost use Rattle.std.specs.Prelude.{◌≡◌, length, slice_get};
ghost use Rattle.mesh_atoms.specs.Base.{base_of};
ghost use Rattle.mesh_atoms.specs.State.{Neighbourhood};
ghost use Rattle.mesh_expire.specs.Table.{entry_of};

use mesh_atoms::{Addr4, Link, LinkKey, Neighbour, TwoHop, TwoHopKey};

/// A router's neighbourhood, tuple by tuple. The tuples of a kind stand at the places from 0 up, each at one of them, as many
/// as the kind's count says; a further place gives `None`. An interface that isn't there has none. No call takes memory.
pub trait Near4 {
    ghost near: { Self → Neighbourhood };

    /// How many links interface `iface` has.
    fn link_count(&self, iface: usize) -> usize
        ensures { result ≡ length (base_of (near self.now).links iface) };

    /// The link of interface `iface` at a place, with its key and moment.
    fn link(&self, iface: usize, place: usize) -> Option<(&LinkKey, &Link, u64)>
        ensures { entry_of result ≡ slice_get (base_of (near self.now).links iface) place };

    /// How many neighbours there are.
    fn neighbour_count(&self) -> usize
        ensures { result ≡ length (near self.now).neighbours };

    /// The neighbour at a place, with its originator and moment.
    fn neighbour(&self, place: usize) -> Option<(&Addr4, &Neighbour, u64)>
        ensures { entry_of result ≡ slice_get (near self.now).neighbours place };

    /// How many 2-hop tuples interface `iface` has.
    fn two_hop_count(&self, iface: usize) -> usize
        ensures { result ≡ length (base_of (near self.now).two_hops iface) };

    /// The 2-hop tuple of interface `iface` at a place, with its key and moment.
    fn two_hop(&self, iface: usize, place: usize) -> Option<(&TwoHopKey, &TwoHop, u64)>
        ensures { entry_of result ≡ slice_get (base_of (near self.now).two_hops iface) place };

    /// How many lost addresses there are.
    fn lost_count(&self) -> usize
        ensures { result ≡ length (near self.now).losts };
}
