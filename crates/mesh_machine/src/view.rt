//! What a router shows (RFC 6130, sections 7 and 8, and RFC 7181, sections 8 to 11).
ghost use Rattle.std.specs.Prelude.{◌≡◌, ◌↔◌, length, map, slice_get, IsTrue, IfSome, IfNone};
ghost use Rattle.std.specs.List.{AllPairs, sum};
ghost use Rattle.mesh_atoms.specs.Base.{base_of, find, link_eq, two_hop_eq, addr_eq, router_eq, address_eq, network_eq};
ghost use Rattle.mesh_atoms.specs.Nodes.{IsBefore};
ghost use Rattle.mesh_atoms.specs.NextHop.{IsLongest, HasNoRouteTo};
ghost use Rattle.mesh_atoms.specs.Sound.{Sound};
ghost use Rattle.mesh_atoms.specs.State.{State};
ghost use Rattle.mesh_nhdp.specs.expire.Table.{entry_of, value_of};
ghost use Rattle.mesh_flood.specs.Standing.{HasNoted, HasFullSet};
ghost use Rattle.mesh_flood.specs.Verdict.{key_of};
ghost use Rattle.mesh_machine.specs.Said.{IsSaidOf};

use crate::said::Said;
use mesh_atoms::{
    Addr4, AddressKey, AddressTuple, Link, LinkKey, Neighbour, NetworkKey, NetworkTuple, Relays,
    Route, RouterKey, RouterSettings, RouterTuple, TcRow, TwoHop, TwoHopKey,
};
use mesh_flood::Heading;

/// A router at a moment, of which contracts see the state. The tuples of a kind stand at the places from 0 up, each at one of them,
/// as many as the kind's count says; a further place gives `None`, and so does a key that no tuple has. An interface that isn't
/// there has no tuples. A moment that comes with a tuple is that of its expiry, in ticks of 1/8192 s. No call takes memory.
pub trait RouterView {
    ghost state: { Self → State };

    /// The settings.
    fn settings(&self) -> &RouterSettings
        ensures { result.now ≡ (state self.now).settings };

    /// The moment of the last event.
    fn last(&self) -> u64
        ensures { result ≡ (state self.now).last };

    /// How many links interface `iface` has.
    fn links(&self, iface: usize) -> usize
        ensures { result ≡ length (base_of (state self.now).bases.neighbourhood.links iface) };

    /// The link of interface `iface` at a place.
    fn link(&self, iface: usize, place: usize) -> Option<(&LinkKey, &Link, u64)>
        ensures { entry_of result ≡ slice_get (base_of (state self.now).bases.neighbourhood.links iface) place };

    /// The link of interface `iface` with that key.
    fn link_of(&self, iface: usize, key: &LinkKey) -> Option<(&Link, u64)>
        ensures { value_of result ≡ find link_eq (base_of (state self.now).bases.neighbourhood.links iface) key.now };

    /// How many 2-hop tuples interface `iface` has.
    fn two_hops(&self, iface: usize) -> usize
        ensures { result ≡ length (base_of (state self.now).bases.neighbourhood.two_hops iface) };

    /// The 2-hop tuple of interface `iface` at a place.
    fn two_hop(&self, iface: usize, place: usize) -> Option<(&TwoHopKey, &TwoHop, u64)>
        ensures { entry_of result ≡ slice_get (base_of (state self.now).bases.neighbourhood.two_hops iface) place };

    /// The 2-hop tuple of interface `iface` with that key.
    fn two_hop_of(&self, iface: usize, key: &TwoHopKey) -> Option<(&TwoHop, u64)>
        ensures { value_of result ≡ find two_hop_eq (base_of (state self.now).bases.neighbourhood.two_hops iface) key.now };

    /// How many 2-hop tuples there are, over all interfaces.
    fn all_two_hops(&self) -> usize
        requires { Sound (state self.now) }
        ensures { result ≡ sum (map length (state self.now).bases.neighbourhood.two_hops) };

    /// How many neighbours there are.
    fn neighbours(&self) -> usize
        ensures { result ≡ length (state self.now).bases.neighbourhood.neighbours };

    /// The neighbour at a place, with its originator.
    fn neighbour(&self, place: usize) -> Option<(&Addr4, &Neighbour, u64)>
        ensures { entry_of result ≡ slice_get (state self.now).bases.neighbourhood.neighbours place };

    /// The neighbour with that originator.
    fn neighbour_of(&self, originator: &Addr4) -> Option<(&Neighbour, u64)>
        ensures { value_of result ≡ find addr_eq (state self.now).bases.neighbourhood.neighbours originator.now };

    /// How many lost addresses there are.
    fn losts(&self) -> usize
        ensures { result ≡ length (state self.now).bases.neighbourhood.losts };

    /// How many router topology tuples there are.
    fn routers(&self) -> usize
        ensures { result ≡ length (state self.now).bases.topology.routers };

    /// The router topology tuple at a place.
    fn router(&self, place: usize) -> Option<(&RouterKey, &RouterTuple, u64)>
        ensures { entry_of result ≡ slice_get (state self.now).bases.topology.routers place };

    /// The router topology tuple with that key.
    fn router_of(&self, key: &RouterKey) -> Option<(&RouterTuple, u64)>
        ensures { value_of result ≡ find router_eq (state self.now).bases.topology.routers key.now };

    /// How many routable address tuples there are.
    fn addresses(&self) -> usize
        ensures { result ≡ length (state self.now).bases.topology.addresses };

    /// The routable address tuple at a place.
    fn address(&self, place: usize) -> Option<(&AddressKey, &AddressTuple, u64)>
        ensures { entry_of result ≡ slice_get (state self.now).bases.topology.addresses place };

    /// The routable address tuple with that key.
    fn address_of(&self, key: &AddressKey) -> Option<(&AddressTuple, u64)>
        ensures { value_of result ≡ find address_eq (state self.now).bases.topology.addresses key.now };

    /// How many attached network tuples there are.
    fn networks(&self) -> usize
        ensures { result ≡ length (state self.now).bases.topology.networks };

    /// The attached network tuple at a place.
    fn network(&self, place: usize) -> Option<(&NetworkKey, &NetworkTuple, u64)>
        ensures { entry_of result ≡ slice_get (state self.now).bases.topology.networks place };

    /// The attached network tuple with that key.
    fn network_of(&self, key: &NetworkKey) -> Option<(&NetworkTuple, u64)>
        ensures { value_of result ≡ find network_eq (state self.now).bases.topology.networks key.now };

    /// Whether a received tuple of some interface, a processed or a forwarded tuple has the message's type, originator and
    /// sequence number (RFC 7181, section 11).
    fn has_noted(&self, heading: &Heading) -> bool
        ensures { IsTrue result ↔ HasNoted (state self.now).bases.noted (key_of heading.now) };

    /// Whether the received set of some interface, the processed or the forwarded set has 16,384 tuples.
    fn has_full_set(&self) -> bool
        ensures { IsTrue result ↔ HasFullSet (state self.now).bases.noted };

    /// The relays.
    fn relays(&self) -> &Relays
        ensures { result.now ≡ (state self.now).relays };

    /// The routes, in ascending order of destination.
    fn routes(&self) -> &[Route]
        ensures rows { result.now ≡ (state self.now).routes }
        ensures ascending { AllPairs (λ r t. IsBefore r.dest t.dest) result.now };

    /// The route with the longest prefix that has the address; `None` exactly where no route has it.
    fn next_hop(&self, dest: Addr4) -> Option<&Route>
        ensures some { IfSome result (λ r. IsLongest (state self.now).routes dest r.now) }
        ensures none { IfNone result (HasNoRouteTo (state self.now).routes dest) };

    /// The advertised rows.
    fn rows(&self) -> &[TcRow]
        ensures { result.now ≡ (state self.now).rows };

    /// The ANSN of the advertised rows.
    fn ansn(&self) -> u16
        ensures { result ≡ (state self.now).ansn };

    /// What the HELLO of interface `iface` says of an address, at the moment of the last event.
    fn said(&self, iface: usize, now: u64, addr: Addr4) -> Said
        requires sound { Sound (state self.now) }
        requires last { (state self.now).last ≡ now }
        ensures { IsSaidOf (state self.now) iface now addr result };
}
