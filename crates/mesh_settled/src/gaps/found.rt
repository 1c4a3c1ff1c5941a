//! Gaps of one router that are found, and the least of them.
ghost use Rattle.std.specs.Prelude.{◌≡◌};
ghost use Rattle.mesh_settled.specs.Gaps.Found.{lesser, found_at};
ghost use Rattle.mesh_settled.specs.Gaps.Gaps.{rank_of, is_ranked_before};

use crate::gaps::compare::HeldAndPresent;
use mesh_atoms::{Addr4, GapKey, GapValue};

/// A gap of a router.
#[derive(Clone, Copy)]
pub struct Found {
    pub key: GapKey,
    pub held: Option<GapValue>,
    pub present: Option<GapValue>,
}

/// Where a key stands among the keys of a router.
#[derive(Clone, Copy)]
pub struct Rank {
    pub kind: u8,
    pub iface: usize,
    pub first: u32,
    pub second: u32,
    pub prefix: u8,
}

/// A gap at that key, where the sides say something there.
pub fn found_at(key: GapKey, values: Option<HeldAndPresent>) -> Option<Found>
    ensures { result ≡ found_at key values }
{
    match values {
        Some(values) => Some(Found {
            key,
            held: values.held,
            present: values.present,
        }),
        None => None,
    }
}

fn make_rank(kind: u8, iface: usize, first: Addr4, second: u32, prefix: u8) -> Rank
    ensures { result ≡ record { kind = kind; iface = iface; first = first.0; second = second; prefix = prefix } }
{
    Rank {
        kind,
        iface,
        first: first.0,
        second,
        prefix,
    }
}

// Where the key stands: first by its kind, then by interface, by address, and for networks by prefix.
fn rank_of(key: &GapKey) -> Rank
    ensures { result ≡ rank_of key.now }
{
    match *key {
        GapKey::Link { iface, key } => make_rank(0, iface, key.addr, 0, 0),
        GapKey::Neighbour(originator) => make_rank(1, 0, originator, 0, 0),
        GapKey::TwoHop { iface, key } => make_rank(2, iface, key.link.addr, key.addr.0, 0),
        GapKey::Router { from, to } => make_rank(3, 0, from, to.0, 0),
        GapKey::Address { from, addr } => make_rank(4, 0, from, addr.0, 0),
        GapKey::Network { from, net } => make_rank(5, 0, from, net.addr.0, net.prefix),
    }
}

// Whether the one place comes before the other.
fn is_ranked_before(k: Rank, l: Rank) -> bool
    ensures { result ≡ is_ranked_before k l }
{
    k.kind < l.kind
        || k.kind == l.kind
            && (k.iface < l.iface
                || k.iface == l.iface
                    && (k.first < l.first
                        || k.first == l.first
                            && (k.second < l.second
                                || k.second == l.second && k.prefix < l.prefix)))
}

/// The gap with the lesser key.
pub fn lesser(first: Option<Found>, second: Option<Found>) -> Option<Found>
    ensures { result ≡ lesser first second }
{
    match (first, second) {
        (Some(a), Some(b)) => {
            if is_ranked_before(rank_of(&b.key), rank_of(&a.key)) {
                Some(b)
            } else {
                Some(a)
            }
        }
        (Some(a), None) => Some(a),
        (None, second) => second,
    }
}
