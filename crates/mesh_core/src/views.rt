//! What a router shows (RFC 6130, sections 7 and 8, and RFC 7181, sections 8 to 11).
ghost use Rattle.std.specs.Prelude.{◌≡◌};

use crate::router::Core;
use mesh_atoms::{
    Addr4, AddressKey, AddressTuple, Link, LinkKey, Neighbour, NetworkKey, NetworkTuple, Relays,
    Route, RouterKey, RouterSettings, RouterTuple, TcRow, TwoHop, TwoHopKey,
};
use mesh_expire::{Bases, Table};
use mesh_flood::{Flood, Heading};
use mesh_machine::{RouterView, Said, all_two_hop_count, said_of};
use mesh_nbrs::Near4;
use mesh_nhdp::Nhdp;
use mesh_routes::RoutingSet;
use mesh_topo::Topology;

impl<B: Bases> Core<B> {
    /// The moment of the last event, in ticks of 1/8192 s.
    pub fn last(&self) -> u64
        ensures { result ≡ self.now.state.last }
    {
        self.router.derived.last
    }

    /// The settings.
    pub fn settings(&self) -> &RouterSettings
        ensures { result.now ≡ self.now.state.settings }
    {
        self.router.holding.settings()
    }

    /// The relays.
    pub fn relays(&self) -> &Relays
        ensures { result.now ≡ self.now.state.relays }
    {
        &self.router.derived.relays
    }

    /// The routes.
    pub fn routes(&self) -> &RoutingSet
        ensures { result.now ≡ self.now.state.routes }
    {
        &self.router.derived.routes
    }

    /// The neighbourhood.
    pub fn nhdp(&self) -> &Nhdp<B>
        ensures near { result.now.near ≡ self.now.state.bases.neighbourhood }
        ensures settings { result.now.settings ≡ self.now.state.settings }
    {
        self.router.holding.nhdp()
    }

    /// The topology.
    pub fn topology(&self) -> &Topology<B>
        ensures { result.now ≡ self.now.state.bases.topology }
    {
        self.router.holding.topology()
    }

    /// The messages seen before.
    pub fn flood(&self) -> &Flood<B>
        ensures { result.now.noted ≡ self.now.state.bases.noted }
    {
        self.router.holding.flood()
    }

    /// The advertised rows, and their ANSN.
    pub fn advertised(&self) -> (&[TcRow], u16)
        ensures rows { result.0.now ≡ self.now.state.rows }
        ensures ansn { result.1 ≡ self.now.state.ansn }
    {
        (
            self.router.derived.rows.as_slice(),
            self.router.derived.ansn,
        )
    }
}

impl<B: Bases> RouterView for Core<B> {
    ghost state = { λ c. c.state };

    fn settings(&self) -> &RouterSettings {
        self.router.holding.settings()
    }

    fn last(&self) -> u64 {
        self.router.derived.last
    }

    fn links(&self, iface: usize) -> usize {
        self.router.holding.nhdp().link_count(iface)
    }

    fn link(&self, iface: usize, place: usize) -> Option<(&LinkKey, &Link, u64)> {
        self.router.holding.nhdp().link(iface, place)
    }

    fn link_of(&self, iface: usize, key: &LinkKey) -> Option<(&Link, u64)> {
        self.router.holding.nhdp().link_of(iface, key)
    }

    fn two_hops(&self, iface: usize) -> usize {
        self.router.holding.nhdp().two_hop_count(iface)
    }

    fn two_hop(&self, iface: usize, place: usize) -> Option<(&TwoHopKey, &TwoHop, u64)> {
        self.router.holding.nhdp().two_hop(iface, place)
    }

    fn two_hop_of(&self, iface: usize, key: &TwoHopKey) -> Option<(&TwoHop, u64)> {
        self.router.holding.nhdp().two_hop_of(iface, key)
    }

    fn all_two_hops(&self) -> usize {
        all_two_hop_count(self.router.holding.nhdp(), self.router.holding.settings())
    }

    fn neighbours(&self) -> usize {
        self.router.holding.nhdp().neighbour_count()
    }

    fn neighbour(&self, place: usize) -> Option<(&Addr4, &Neighbour, u64)> {
        self.router.holding.nhdp().neighbour(place)
    }

    fn neighbour_of(&self, originator: &Addr4) -> Option<(&Neighbour, u64)> {
        self.router.holding.nhdp().neighbour_of(originator)
    }

    fn losts(&self) -> usize {
        self.router.holding.nhdp().lost_count()
    }

    fn routers(&self) -> usize {
        self.topology().routers().len()
    }

    fn router(&self, place: usize) -> Option<(&RouterKey, &RouterTuple, u64)> {
        self.topology().routers().at(place)
    }

    fn router_of(&self, key: &RouterKey) -> Option<(&RouterTuple, u64)> {
        self.topology().routers().get(key)
    }

    fn addresses(&self) -> usize {
        self.topology().addresses().len()
    }

    fn address(&self, place: usize) -> Option<(&AddressKey, &AddressTuple, u64)> {
        self.topology().addresses().at(place)
    }

    fn address_of(&self, key: &AddressKey) -> Option<(&AddressTuple, u64)> {
        self.topology().addresses().get(key)
    }

    fn networks(&self) -> usize {
        self.topology().networks().len()
    }

    fn network(&self, place: usize) -> Option<(&NetworkKey, &NetworkTuple, u64)> {
        self.topology().networks().at(place)
    }

    fn network_of(&self, key: &NetworkKey) -> Option<(&NetworkTuple, u64)> {
        self.topology().networks().get(key)
    }

    fn has_noted(&self, heading: &Heading) -> bool {
        self.router.holding.flood().has_noted(heading)
    }

    fn has_full_set(&self) -> bool {
        self.router.holding.flood().is_full()
    }

    fn relays(&self) -> &Relays {
        &self.router.derived.relays
    }

    fn routes(&self) -> &[Route] {
        self.router.derived.routes.rows()
    }

    fn next_hop(&self, dest: Addr4) -> Option<&Route> {
        self.router.derived.routes.next_hop(dest)
    }

    fn rows(&self) -> &[TcRow] {
        self.router.derived.rows.as_slice()
    }

    fn ansn(&self) -> u16 {
        self.router.derived.ansn
    }

    fn said(&self, iface: usize, now: u64, addr: Addr4) -> Said {
        said_of(
            self.router.holding.nhdp(),
            &self.router.derived.relays,
            iface,
            now,
            addr,
        )
    }
}
