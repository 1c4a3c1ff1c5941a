//! An interface over a UDP socket whose calls never wait.
ghost use Rattle.std.specs.Prelude.{◌≡◌, ◌≤◌, ◌<◌, None, IfOk, length};
ghost use Rattle.mesh_io.specs.Airs.{FitsBuffer};

use crate::posts::{Post, post_to_each};
use crate::system::{address_of, ear_of, sent_of};
use mesh_atoms::Endpoint;
use mesh_io::{Ear, Sent};
use mio::net::UdpSocket;
use mio::{Interest, Poll, Token};
use std::io;
use std::net::Net;

/// An interface: its socket, and where it sends to.
#[derive(Drop)]
pub(crate) struct Face {
    socket: UdpSocket,
    pub peers: Vec<Endpoint>,
}

impl Face {
    /// An interface that receives at `local` and keeps its peers in `room`, in order. A frame that comes to it ends a wait of `poll`.
    pub fn open<N: Net>(
        net: &N,
        poll: &Poll,
        local: Endpoint,
        peers: &[Endpoint],
        room: Vec<Endpoint>,
    ) -> io::Result<Face>
        ensures { IfOk result (λ face. face.peers.items ≡ peers.now) }
    {
        let mut socket = UdpSocket::bind(net, address_of(local))?;
        poll.registry()
            .register(&mut socket, Token(0), Interest::READABLE)?;
        let mut kept = room;
        kept.clear();
        kept.extend_from_slice(peers)?;
        Ok(Face {
            socket,
            peers: kept,
        })
    }

    /// Hears once, without waiting.
    pub fn hear(&self, buf: &mut [u8]) -> Ear
        ensures { FitsBuffer buf.new result }
    {
        ear_of(self.socket.recv_from(buf))
    }

    /// Sends to each peer in order, without waiting. It fails where one of the sends did.
    pub fn send(&mut self, frame: &[u8]) -> Sent {
        post_to_each(&mut self.socket, frame, self.peers.as_slice())
    }
}

impl Post for UdpSocket {
    ghost posted = { λ s. None };

    fn post(&mut self, frame: &[u8], peer: Endpoint) -> Sent {
        sent_of(self.send_to(frame, address_of(peer)), frame)
    }
}
