//! A gap: a key at which a router holds something else than the network has at present.
use crate::{Addr4, LinkKey, NetAddr, TwoHopKey};

/// Which of a router's tuples a key is of, in the order in which they are looked at.
#[derive(Clone, Copy)]
pub enum GapKind {
    /// SYMMETRIC links (RFC 6130, section 7.1).
    Link,
    /// Symmetric neighbours (RFC 6130, section 8.1).
    Neighbour,
    /// 2-hop tuples (RFC 6130, section 7.2).
    TwoHop,
    /// Router topology, routable address topology and attached network tuples, in this order (RFC 7181, sections 10.2 to 10.4).
    Topology,
}

/// The key of a tuple that is looked at; interfaces are counted from 0.
#[derive(Clone, Copy)]
pub enum GapKey {
    /// A link of an interface.
    Link { iface: usize, key: LinkKey },
    /// A neighbour, by its originator address.
    Neighbour(Addr4),
    /// A 2-hop tuple of an interface.
    TwoHop { iface: usize, key: TwoHopKey },
    /// A router topology tuple, by the originators from which and to which it leads.
    Router { from: Addr4, to: Addr4 },
    /// A routable address topology tuple, by the originator from which and the address to which it leads.
    Address { from: Addr4, addr: Addr4 },
    /// An attached network tuple, by the originator from which and the network to which it leads.
    Network { from: Addr4, net: NetAddr },
}

/// What one of the two sides has at a key. Where the other side has no tuple there: field 0, without a number. Where both have
/// one: the first field in which they differ, counted from 0 in the order below, and its number on this side.
///
/// - Link: addresses, incoming metric, outgoing metric, selector.
/// - Neighbour: addresses, willingness, incoming metric, outgoing metric, selector.
/// - 2-hop tuple: incoming metric, outgoing metric.
/// - Topology: ANSN, metric; of an attached network also its distance.
///
/// A metric's number is the cost that it stands for, and none where it is unknown; a selector flag's is 0 or 1; willingness is
/// 16 times that for flooding plus that for routing. Of addresses, the least that one side alone has is that side's number, and
/// the other side has none.
#[derive(Clone, Copy)]
pub struct GapValue {
    pub field: u8,
    pub number: Option<u64>,
}

/// A gap of a router, counted from 0: a key at which what it holds isn't what the network has at present. A side without a tuple
/// of the key has none.
#[derive(Clone, Copy)]
pub struct Gap {
    pub router: usize,
    pub kind: GapKind,
    pub key: GapKey,
    /// What the router holds.
    pub held: Option<GapValue>,
    /// What HELLOs of its neighbours and the TCs of the routers that it is joined with say at present.
    pub present: Option<GapValue>,
}
