//! The tuples of the information bases, and their keys. Each tuple has an expiry moment beside its record; moments are in
//! ticks of 1/8192 s, and a tuple is expired where its moment is at or below now.
ghost use Rattle.std.specs.Prelude.{◌≡◌};
ghost use Rattle.mesh_atoms.specs.State.{is_symmetric, is_heard};

use crate::{Addr4, Metric, NetAddr, Seq, Willing};
use std::hash::{Hash, Hasher};

/// A link of an interface, by the least address of the neighbour's interface.
#[derive(Clone, Copy, PartialEq, Eq, PartialOrd, Ord, Hash)]
pub struct LinkKey {
    pub addr: Addr4,
}

/// An address that the neighbour at the other end of a link reaches.
#[derive(Clone, Copy, PartialEq, Eq, PartialOrd, Ord)]
pub struct TwoHopKey {
    pub link: LinkKey,
    pub addr: Addr4,
}

// By hand, so that a hasher is fed both addresses at once: no other key is looked up as often.
impl Hash for TwoHopKey {
    ghost use Rattle.std.specs.Prelude.{◌+◌, ◌*◌};
    ghost use Rattle.std.specs.Hash as fed;
    ghost use Rattle.std.proofs.Common.{rules};

    ghost hash_input = { λ key. fed.u64 (key.link.addr.0 * 4294967296 + key.addr.0) };

    ghost respects_eq = { Prim.search rules };

    fn hash<H: Hasher>(&self, state: &mut H) {
        state.write_u64(self.link.addr.0 as u64 * 4_294_967_296 + self.addr.0 as u64);
    }
}

/// From a router's originator to another router's.
#[derive(Clone, Copy, PartialEq, Eq, PartialOrd, Ord, Hash)]
pub struct RouterKey {
    pub from: Addr4,
    pub to: Addr4,
}

/// From a router's originator to a routable address.
#[derive(Clone, Copy, PartialEq, Eq, PartialOrd, Ord, Hash)]
pub struct AddressKey {
    pub from: Addr4,
    pub addr: Addr4,
}

/// From a router's originator to a network that it attaches.
#[derive(Clone, Copy, PartialEq, Eq, PartialOrd, Ord, Hash)]
pub struct NetworkKey {
    pub from: Addr4,
    pub net: NetAddr,
}

/// A flooded message: its type, originator and sequence number.
#[derive(Clone, Copy, PartialEq, Eq, PartialOrd, Ord, Hash)]
pub struct FloodKey {
    pub kind: u8,
    pub originator: Addr4,
    pub sequence: u16,
}

/// The status of a link (RFC 6130, section 7.1): not yet admitted, not to be used, heard both ways, or heard one way.
#[derive(Clone, Copy, PartialEq, Eq)]
pub enum LinkState {
    Pending,
    Lost,
    Symmetric,
    Heard,
}

/// A link tuple (RFC 6130, section 7.1, and RFC 7181, section 8.1).
#[derive(Drop)]
pub struct Link {
    /// The addresses of the neighbour's interface, ascending.
    pub addrs: Seq<Addr4>,
    /// The moment up to which the neighbour is heard.
    pub heard: u64,
    /// The moment up to which the neighbour is known to hear this interface.
    pub sym: u64,
    /// The quality of the link at the last event, up to 100.
    pub quality: u8,
    /// Whether the link is not yet admitted.
    pub pending: bool,
    /// Whether the link is treated as lost whatever is heard.
    pub lost: bool,
    /// From the neighbour to this router.
    pub link_in: Metric,
    /// From this router to the neighbour, as the neighbour says.
    pub link_out: Option<Metric>,
    /// Whether the neighbour has chosen this router as a flooding relay.
    pub selector: bool,
}

impl Link {
    /// Whether the link is SYMMETRIC at that moment, in ticks of 1/8192 s (RFC 6130, section 7.1).
    pub fn is_symmetric(&self, now: u64) -> bool
        ensures { result ≡ is_symmetric self.now now }
    {
        !self.pending && !self.lost && now < self.sym
    }

    /// Whether the link is HEARD at that moment: not SYMMETRIC, and heard not long ago (RFC 6130, section 7.1).
    pub fn is_heard(&self, now: u64) -> bool
        ensures { result ≡ is_heard self.now now }
    {
        !self.pending && !self.lost && now >= self.sym && now < self.heard
    }
}

/// A 2-hop tuple (RFC 6130, section 7.2, and RFC 7181, section 8.2): the neighbour's metrics from and to the address.
#[derive(Clone, Copy, PartialEq, Eq)]
pub struct TwoHop {
    pub metric_in: Option<Metric>,
    pub metric_out: Option<Metric>,
}

/// A neighbour tuple (RFC 6130, section 8.1, and RFC 7181, section 9), keyed by the neighbour's originator.
#[derive(Drop)]
pub struct Neighbour {
    /// The addresses of all its interfaces, ascending.
    pub addrs: Seq<Addr4>,
    /// Whether one of its links is symmetric.
    pub symmetric: bool,
    /// The least over its symmetric links, from the neighbour to this router.
    pub metric_in: Option<Metric>,
    /// The least known over its symmetric links, from this router to the neighbour.
    pub metric_out: Option<Metric>,
    pub willing: Willing,
    /// Whether the neighbour has chosen this router as a routing relay.
    pub selector: bool,
}

/// A lost neighbour tuple (RFC 6130, section 8.2), keyed by an address that was a symmetric neighbour's.
#[derive(Clone, Copy)]
pub struct Lost {}

/// An advertising remote router tuple (RFC 7181, section 10.1), keyed by the router's originator.
#[derive(Clone, Copy)]
pub struct Advertiser {
    pub ansn: u16,
}

/// A router topology tuple (RFC 7181, section 10.2).
#[derive(Clone, Copy)]
pub struct RouterTuple {
    pub ansn: u16,
    pub metric: Metric,
}

/// A routable address topology tuple (RFC 7181, section 10.3).
#[derive(Clone, Copy)]
pub struct AddressTuple {
    pub ansn: u16,
    pub metric: Metric,
}

/// An attached network tuple (RFC 7181, section 10.4), with the network's distance behind the router, in hops.
#[derive(Clone, Copy)]
pub struct NetworkTuple {
    pub ansn: u16,
    pub distance: u8,
    pub metric: Metric,
}

/// A received, processed or forwarded tuple (RFC 7181, section 11).
#[derive(Clone, Copy)]
pub struct Noted {}

/// A base that may be full.
#[derive(Clone, Copy, PartialEq, Eq)]
pub enum Base {
    Neighbours,
    TwoHops,
    Advertisers,
    Routers,
    Addresses,
    Networks,
    Received,
    Processed,
    Forwarded,
}

/// The relays that a router has chosen (RFC 7181, section 18), each by its originator, in ascending order: for flooding
/// on each interface, and for routing.
#[derive(Drop)]
pub struct Relays {
    pub flooding: Seq<Seq<Addr4>>,
    pub routing: Seq<Addr4>,
}
