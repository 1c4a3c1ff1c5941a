//! What an air in memory is made with: what its interfaces hear, which calls fail, and for how much it has room.
use crate::Sent;
use mesh_atoms::{Addr4, Bytes, Endpoint, Seq};

/// What an interface of an air in memory hears: a frame from that sender, or nothing. Of a frame of more than 65,507 octets the
/// first 65,507 are heard.
#[derive(Drop)]
pub enum MemEar {
    Frame { sender: Addr4, bytes: Bytes },
    Silence,
}

/// The numbers of the calls that fail, counted from 1 for each kind of call by itself.
#[derive(Drop)]
pub struct AirFails {
    pub attach: Seq<u64>,
    pub hear: Seq<u64>,
    pub send: Seq<u64>,
}

/// For how many attaches with how many peers in all, for how many ears, and for how many frames with how many octets in all an air
/// in memory has room.
#[derive(Clone, Copy)]
pub struct AirRoom {
    pub attaches: usize,
    pub peers: usize,
    pub ears: usize,
    pub frames: usize,
    pub octets: usize,
}

/// What is kept of a call: an attach, its peers lying among all peers; an ear of a script; an ear that failed; and a frame that was
/// handed over, its octets lying among all octets.
#[derive(Clone, Copy)]
pub(crate) enum LoggedCall {
    Attached {
        local: Endpoint,
        from: usize,
        count: usize,
    },
    Heard {
        iface: usize,
        place: usize,
    },
    Fault {
        iface: usize,
    },
    Handed {
        iface: usize,
        from: usize,
        count: usize,
        answer: Sent,
    },
}
