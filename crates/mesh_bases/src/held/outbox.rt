//! The frames that a router sends (RFC 5444).
ghost use Rattle.std.specs.Prelude.{◌≡◌, ◌++◌, ◌∷◌, [], ◌<◌, ◌≤◌, ℕ, length, take, slice_get, OnOk, OnErr};
ghost use Rattle.mesh_bases.specs.Held.Outbox.{frame_of, OnlyAppends};
ghost use Rattle.mesh_machine.specs.Frames.{on_each};

use mesh_atoms::Bytes;
use mesh_machine::Frame;
use std::alloc::{AllocError, Global};
use std::marker::Model;

/// Frames in order of sending.
#[derive(Drop)]
pub struct Outbox {
    alloc: Global,
    frames: Vec<Frame>,
}

impl Model for Outbox {
    ghost use Rattle.std.specs.Prelude.{List};
    ghost use Rattle.mesh_machine.specs.declared.frame.Frame.{Frame};

    ghost Value = { List Frame };

    ghost view = { λ o. o.frames.items };
}

impl Outbox {
    /// No frames. Takes no memory.
    pub fn new(alloc: Global) -> Outbox
        ensures { result ≡ [] }
    {
        Outbox {
            alloc,
            frames: Vec::new(alloc),
        }
    }

    /// How many frames there are.
    pub fn len(&self) -> usize
        ensures { result ≡ length self.now }
    {
        self.frames.len()
    }

    /// The frame at a place, counted from 0, with its interface; `None` from the length on.
    pub fn frame(&self, i: usize) -> Option<(usize, &[u8])>
        ensures { frame_of result ≡ slice_get self.now i }
    {
        match self.frames.as_slice().get(i) {
            Some(frame) => Some((frame.iface, frame.bytes.as_slice())),
            None => None,
        }
    }

    /// Takes all frames out. Takes no memory.
    pub fn clear(&mut self)
        ensures { self.new ≡ [] }
    {
        self.frames.clear();
    }

    /// Takes out all frames from a place on, counted from 0. Takes no memory.
    pub fn truncate(&mut self, count: usize)
        ensures { self.new ≡ take count self.old }
    {
        self.frames.truncate(count);
    }

    /// Puts a frame at the end. An allocation failure leaves the outbox as it was.
    pub(crate) fn send(&mut self, iface: usize, bytes: Bytes) -> Result<(), AllocError>
        ensures ok { OnOk result (self.new ≡ self.old ++ (record { iface = iface; bytes = bytes }) ∷ []) }
        ensures err { OnErr result (self.new ≡ self.old) }
    {
        self.frames.push(Frame { iface, bytes })?;
        Ok(())
    }

    /// Puts the octets at the end as one frame on each interface, in order. After an allocation failure some of them may stand there.
    pub(crate) fn send_on_each(&mut self, count: usize, bytes: &[u8]) -> Result<(), AllocError>
        ensures ok { OnOk result (self.new ≡ self.old ++ on_each count bytes.now) }
        ensures appended { OnlyAppends self.old self.new }
    {
        for iface in 0..count {
            let mut copy = Bytes::new(self.alloc);
            copy.append(bytes)?;
            self.send(iface, copy)?;
        }
        Ok(())
    }
}
