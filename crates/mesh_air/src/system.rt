//! What the operating system is told, and what its answers say.
ghost use Rattle.std.specs.Prelude.{◌≡◌, length};
ghost use Rattle.mesh_air.specs.System.{IsAddressOf, ear_of, sent_of};

use mesh_atoms::{Addr4, Endpoint};
use mesh_io::{Ear, Sent};
use std::io::{self, ErrorKind};
use std::net::{Ipv4Addr, SocketAddr, SocketAddrV4};

/// The address of an endpoint.
pub(crate) fn address_of(endpoint: Endpoint) -> SocketAddr
    ensures { IsAddressOf result endpoint }
{
    let host = Ipv4Addr::from_bits(endpoint.addr.0);
    SocketAddr::V4(SocketAddrV4::new(host, endpoint.port))
}

/// What a socket that never waits heard: a frame of so many octets from that host; nothing, where it would wait or was interrupted.
pub(crate) fn ear_of(answer: io::Result<(usize, SocketAddr)>) -> Ear
    ensures { result ≡ ear_of answer }
{
    match answer {
        Ok((len, SocketAddr::V4(sender))) => Ear::Frame {
            len,
            sender: Addr4(sender.ip().to_bits()),
        },
        Ok((_, SocketAddr::V6(_))) => Ear::Failed,
        Err(e) => match e.kind() {
            ErrorKind::WouldBlock | ErrorKind::Interrupted => Ear::Silence,
            _ => Ear::Failed,
        },
    }
}

/// Whether all octets of a frame were taken.
pub(crate) fn sent_of(answer: io::Result<usize>, frame: &[u8]) -> Sent
    ensures { result ≡ sent_of answer (length frame.now) }
{
    match answer {
        Ok(count) => {
            if count == frame.len() {
                Sent::Done
            } else {
                Sent::Failed
            }
        }
        Err(_) => Sent::Failed,
    }
}
