//! TC messages as typed values.
ghost use Rattle.std.specs.Prelude.{AllPairs};
ghost use Rattle.mesh_atoms.specs.Nodes.{IsBefore};
ghost use Rattle.mesh_atoms.specs.Ascends.{ascends_prop};

use crate::{Addr4, Metric, NetAddr, Seq};

/// All that a TC says of one address or network (RFC 7181, section 16).
#[derive(Clone, Copy, PartialEq, Eq)]
pub struct TcRow {
    pub dest: NetAddr,
    /// The address is a router's originator address.
    pub origin: bool,
    /// The address may be a destination.
    pub routable: bool,
    /// The network is attached at this distance, in hops.
    pub gateway: Option<u8>,
    /// The cost from the originator to it.
    pub metric: Option<Metric>,
}

/// A TC (RFC 7181, sections 13 and 16). Times are in ticks of 1/8192 s; rows are in ascending order of address, each
/// address once.
#[derive(Drop)]
pub struct Tc {
    pub originator: Addr4,
    /// The message's own sequence number.
    pub sequence: u16,
    /// The advertised neighbour sequence number, the same as long as the rows are.
    pub ansn: u16,
    /// Whether the rows are all that the originator advertises.
    pub complete: bool,
    pub validity: u64,
    pub interval: Option<u64>,
    pub rows: Seq<TcRow>,
    pub ghost ascending: { AllPairs (λ r t. IsBefore r.dest t.dest) rows } by { ascends_prop (λ r. r.dest) rows },
}
