//! The topology tuples (RFC 7181, sections 10.2 to 10.4), and which of them the rows of a TC give (section 16.3.3).
ghost use Rattle.std.specs.Prelude.{◌≡◌, ◌≤◌, ◌↔◌, IsTrue, false, refl};
ghost use Rattle.std.specs.Ordering.{is_gt};
ghost use Rattle.std.proofs.Common.{rules};
ghost use Rattle.mesh_atoms.specs.declared.addr.NetAddr.{NetAddr};
ghost use Rattle.mesh_expire.proofs.KeyOrder.{no_later};
ghost use Rattle.mesh_topo.specs.TcSets.Tuples.{TupleKind, given, router_kind, address_kind, network_kind};

use mesh_atoms::{
    Addr4, AddressKey, AddressTuple, Metric, NetAddr, NetworkKey, NetworkTuple, RouterKey,
    RouterTuple, TcRow, host,
};

/// A tuple with a key: the originator of a TC leads to a router, a routable address or an attached network.
pub trait KeyedTuple<K: Ord>: Copy {
    ghost kind: { TupleKind K Self };

    /// The originator of the TC that gave the tuple, and the router, address or network to which the originator leads.
    fn ends_of(key: &K) -> (Addr4, NetAddr)
        ensures { result ≡ (kind.origin key.now, kind.dest key.now) };

    /// The key from an originator to there. The prefix counts for networks alone.
    fn key_to(from: Addr4, net: NetAddr) -> K
        ensures { result ≡ kind.key_to from net };

    /// No key of the originator is before this one.
    final fn first_key(originator: Addr4) -> K
        ensures of { kind.origin result ≡ originator }
        ensures first { (q : K) → kind.origin q ≡ originator → is_gt (K.cmp result q) ≡ false }
    {
        Self::key_to(
            originator,
            NetAddr {
                addr: Addr4(0),
                prefix: 0,
            },
        )
    }

    ghost first: { (q : K) (net : NetAddr) → net.addr.0 ≡ 0 → net.prefix ≡ 0 → is_gt (K.cmp (kind.key_to (kind.origin q) net) q) ≡ false };

    ghost by_origin: { (a b : K) → is_gt (K.cmp a b) ≡ false → (kind.origin a).0 ≤ (kind.origin b).0 };
}

/// A topology tuple: what it says, and which rows of a TC give it.
pub trait TopologyTuple<K: Ord>: KeyedTuple<K> {
    /// The number of the TC that gave the tuple, and what the tuple says beside it: the distance of a network, and the metric.
    fn number_and_rest(&self) -> (u16, (Option<u8>, Metric))
        ensures { result ≡ (Self.kind.number self.now, Self.kind.says self.now) };

    /// The tuple that a row with that metric gives in a TC of that number.
    fn by_row(ansn: u16, metric: Metric, row: &TcRow) -> Option<Self>
        ensures { result ≡ Self.kind.by_row ansn metric row.now };

    /// What a row gives in a TC of that originator and number.
    final fn given_by(originator: Addr4, ansn: u16, row: &TcRow) -> Option<(K, Self)>
        ensures { result ≡ given Self.kind originator ansn row.now }
    {
        let tuple = Self::by_row(ansn, row.metric?, row)?;
        Some((Self::key_to(originator, row.dest), tuple))
    }

    /// The metric at which the originator leads there.
    final fn metric(&self) -> Metric
        ensures { result ≡ (Self.kind.says self.now).1 }
    {
        self.number_and_rest().1.1
    }

    /// Whether two tuples say the same, whatever their numbers.
    final fn is_same_but_number(&self, other: &Self) -> bool
        ensures { IsTrue result ↔ (Self.kind.says self.now ≡ Self.kind.says other.now) }
    {
        self.number_and_rest().1 == other.number_and_rest().1
    }
}

impl KeyedTuple<RouterKey> for RouterTuple {
    ghost kind = { router_kind };

    fn ends_of(key: &RouterKey) -> (Addr4, NetAddr) {
        (key.from, host(key.to))
    }

    fn key_to(from: Addr4, net: NetAddr) -> RouterKey {
        RouterKey { from, to: net.addr }
    }

    ghost first = { Prim.search rules };

    ghost by_origin = { λ a b h. no_later a.from.0 b.from.0 _ _ refl h };
}

impl KeyedTuple<AddressKey> for AddressTuple {
    ghost kind = { address_kind };

    fn ends_of(key: &AddressKey) -> (Addr4, NetAddr) {
        (key.from, host(key.addr))
    }

    fn key_to(from: Addr4, net: NetAddr) -> AddressKey {
        AddressKey {
            from,
            addr: net.addr,
        }
    }

    ghost first = { Prim.search rules };

    ghost by_origin = { λ a b h. no_later a.from.0 b.from.0 _ _ refl h };
}

impl KeyedTuple<NetworkKey> for NetworkTuple {
    ghost kind = { network_kind };

    fn ends_of(key: &NetworkKey) -> (Addr4, NetAddr) {
        (key.from, key.net)
    }

    fn key_to(from: Addr4, net: NetAddr) -> NetworkKey {
        NetworkKey { from, net }
    }

    ghost first = { Prim.search rules };

    ghost by_origin = { λ a b h. no_later a.from.0 b.from.0 _ _ refl h };
}

impl TopologyTuple<RouterKey> for RouterTuple {
    fn number_and_rest(&self) -> (u16, (Option<u8>, Metric)) {
        (self.ansn, (None, self.metric))
    }

    fn by_row(ansn: u16, metric: Metric, row: &TcRow) -> Option<RouterTuple> {
        row.origin.then_some(RouterTuple { ansn, metric })
    }
}

impl TopologyTuple<AddressKey> for AddressTuple {
    fn number_and_rest(&self) -> (u16, (Option<u8>, Metric)) {
        (self.ansn, (None, self.metric))
    }

    fn by_row(ansn: u16, metric: Metric, row: &TcRow) -> Option<AddressTuple> {
        row.routable.then_some(AddressTuple { ansn, metric })
    }
}

impl TopologyTuple<NetworkKey> for NetworkTuple {
    fn number_and_rest(&self) -> (u16, (Option<u8>, Metric)) {
        (self.ansn, (Some(self.distance), self.metric))
    }

    fn by_row(ansn: u16, metric: Metric, row: &TcRow) -> Option<NetworkTuple> {
        Some(NetworkTuple {
            ansn,
            distance: row.gateway?,
            metric,
        })
    }
}
