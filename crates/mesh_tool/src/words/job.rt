//! What a command line asks for.
use mesh_atoms::Addr4;
use mesh_emulate::Kind;

/// What a command line asks for: to list lines of hexadecimal text as packets, with `recode` each one written again in its
/// least form; to run a router for at most so many turns, at least 1; to emulate the network of a scenario, with `trace` telling
/// each event, with `send`, the place of the word that names a router (counted from 0) and an address, the trip of a data packet from
/// there to the address at the end, and with `probe`, the place of the word that names a router, the probe of the network by that
/// router; to emulate the network of a scenario that is made of 2 to 64 routers by a seed below 2^32; or to say whether a trace is that
/// of a run of a network.
#[derive(Clone, Copy)]
pub enum Job {
    Dump {
        recode: bool,
    },
    Run {
        turns: u32,
    },
    Emulate {
        trace: bool,
        send: Option<(usize, Addr4)>,
        probe: Option<usize>,
    },
    Make {
        kind: Kind,
        routers: usize,
        seed: u64,
    },
    Replay,
}
