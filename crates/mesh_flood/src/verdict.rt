//! What is asked of a message, and what is answered (RFC 7181, sections 14.2 and 14.3).
ghost use Rattle.std.specs.Prelude.{◌≡◌};
ghost use Rattle.mesh_flood.specs.Verdict.{key_of, has_no_hops, is_received, is_forwarded};

use mesh_atoms::{Addr4, Base, FloodKey};

/// What a message's header says: its type, originator, sequence number, and the hop limit and hop count where they are
/// there (RFC 5444, section 5.2).
#[derive(Clone, Copy, PartialEq, Eq)]
pub struct Heading {
    pub kind: u8,
    pub originator: Addr4,
    pub sequence: u16,
    pub limit: Option<u8>,
    pub count: Option<u8>,
}

/// Whether a message is processed (RFC 7181, section 14.2): `Do`, or the first reason why not.
#[derive(Clone, Copy, PartialEq, Eq)]
pub enum Process {
    Do,
    /// The message is the router's own.
    Own,
    /// A processed tuple stands until that moment.
    Done { until: u64 },
    /// The processed set has 16,384 tuples.
    Full,
}

/// Whether a message is forwarded (RFC 7181, section 14.3): `Do`, or the first reason why not.
#[derive(Clone, Copy, PartialEq, Eq)]
pub enum Forward {
    Do,
    /// The message is the router's own.
    Own,
    /// The message is none that is flooded. No verdict says so.
    NotFlooded,
    /// The sender has no symmetric link on the interface.
    NoSender,
    /// The hop limit is absent or at most 1, or the hop count is 255.
    NoHops,
    /// A received tuple of the interface stands until that moment.
    Seen { until: u64 },
    /// A forwarded tuple stands until that moment.
    Done { until: u64 },
    /// The sender has not chosen this router as a flooding relay.
    NotSelector,
    /// The interface's received set, or the forwarded set, has 16,384 tuples.
    Full(Base),
}

/// Both answers on a message.
#[derive(Clone, Copy, PartialEq, Eq)]
pub struct Verdict {
    pub process: Process,
    pub forward: Forward,
}

impl Heading {
    /// The key of the message's tuples.
    pub fn key(&self) -> FloodKey
        ensures { result ≡ key_of self.now }
    {
        FloodKey {
            kind: self.kind,
            originator: self.originator,
            sequence: self.sequence,
        }
    }

    /// Whether the message may take no further hop: the hop limit is absent or at most 1, or the hop count is 255.
    pub fn has_no_hops(&self) -> bool
        ensures { result ≡ has_no_hops self.now }
    {
        let last = match self.limit {
            Some(limit) => limit <= 1,
            None => true,
        };
        let far = match self.count {
            Some(count) => count == 255,
            None => false,
        };
        last || far
    }
}

impl Forward {
    /// Whether the message is noted as received: the answer is one that comes after the received set was asked.
    pub fn is_received(&self) -> bool
        ensures { result ≡ is_received self.now }
    {
        match self {
            Forward::Done { until: _ }
            | Forward::NotSelector
            | Forward::Full(Base::Forwarded)
            | Forward::Do => true,
            _ => false,
        }
    }

    /// Whether the message is forwarded, and noted as such.
    pub fn is_forwarded(&self) -> bool
        ensures { result ≡ is_forwarded self.now }
    {
        matches!(self, Forward::Do)
    }
}
