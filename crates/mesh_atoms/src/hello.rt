//! HELLO messages as typed values.
ghost use Rattle.std.specs.Prelude.{◌≤◌, AllPairs};
ghost use Rattle.mesh_atoms.specs.Nodes.{IsBefore};
ghost use Rattle.mesh_atoms.specs.Ascends.{ascends_prop};

use crate::{Addr4, Metric, NetAddr, Seq};

/// How willing a router is to be a relay, from 0 (never) to 15 (always), for flooding and for routing
/// (RFC 7181, section 13.3.1).
#[derive(Clone, Copy, PartialEq, Eq)]
pub struct Willing {
    pub flooding: u8,
    pub routing: u8,
    pub ghost flooding_within: { flooding ≤ 15 },
    pub ghost routing_within: { routing ≤ 15 },
}

/// The metrics that a HELLO shows of an address, each from the sender's side (RFC 7181, section 13.3.2).
#[derive(Clone, Copy, PartialEq, Eq)]
pub struct Metrics {
    /// Of the link from that address to the sender.
    pub link_in: Option<Metric>,
    /// Of the link from the sender to that address.
    pub link_out: Option<Metric>,
    /// From the neighbour of that address to the sender.
    pub near_in: Option<Metric>,
    /// From the sender to the neighbour of that address.
    pub near_out: Option<Metric>,
}

/// Which kinds of relay the sender has chosen the address's router as (RFC 7181, section 13.3.2).
#[derive(Clone, Copy, PartialEq, Eq)]
pub struct Mpr {
    pub flooding: bool,
    pub routing: bool,
}

/// An address of the sender: of the interface that sent the HELLO, or of another one (RFC 6130, section 10).
#[derive(Clone, Copy, PartialEq, Eq)]
pub enum LocalIf {
    This,
    Other,
}

/// What the sender says of its link with an address (RFC 6130, section 10).
#[derive(Clone, Copy, PartialEq, Eq)]
pub enum LinkStatus {
    Lost,
    Symmetric,
    Heard,
}

/// What the sender says of a neighbour's address, whatever the interface (RFC 6130, section 10).
#[derive(Clone, Copy, PartialEq, Eq)]
pub enum OtherStatus {
    Lost,
    Symmetric,
}

/// All that a HELLO says of one address.
#[derive(Clone, Copy, PartialEq, Eq)]
pub struct HelloRow {
    pub addr: NetAddr,
    pub local: Option<LocalIf>,
    pub link: Option<LinkStatus>,
    pub other: Option<OtherStatus>,
    pub metrics: Metrics,
    pub mpr: Mpr,
}

/// A HELLO (RFC 6130, section 10, and RFC 7181, section 15). Times are in ticks of 1/8192 s; rows are in ascending order
/// of address, each address once.
#[derive(Drop)]
pub struct Hello {
    pub originator: Option<Addr4>,
    pub validity: u64,
    pub interval: Option<u64>,
    pub willing: Willing,
    pub rows: Seq<HelloRow>,
    pub ghost ascending: { AllPairs (λ r t. IsBefore r.addr t.addr) rows } by { ascends_prop (λ r. r.addr) rows },
}

/// What a HELLO shows of the link that it came over (RFC 6130, section 12.5, and RFC 7181, section 15.3). The validity is in
/// ticks of 1/8192 s.
#[derive(Drop)]
pub struct Shown {
    /// The sending list: the addresses of the interface that sent it, ascending, each once.
    pub sending: Seq<Addr4>,
    /// What it says of the link.
    pub status: Option<LinkStatus>,
    /// The metric handed in for the sender.
    pub link_in: Metric,
    /// The least incoming metric that it shows of the link; it counts where the status is HEARD or SYMMETRIC.
    pub link_out: Option<Metric>,
    /// Whether the sender has chosen the receiver as a flooding relay.
    pub selector: bool,
    pub validity: u64,
}
