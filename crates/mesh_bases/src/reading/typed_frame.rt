//! A frame with what it reads as (RFC 5444).
ghost use Rattle.std.specs.Prelude.{◌≡◌, IfOk};
ghost use Rattle.mesh_machine.specs.Sendable.{AreOctets};
ghost use Rattle.mesh_bases.specs.Reading.Content.{IsContentOf};

use crate::reading::content::{FrameContent, read_content};
use mesh_atoms::Bytes;
use std::alloc::{AllocError, Global};
use std::marker::Model;

/// The octets of a frame, with what they read as, so that many routers hear a frame that is read once. Contracts see the octets.
#[derive(Drop)]
pub struct TypedFrame {
    octets: Bytes,
    content: FrameContent,
}

impl Model for TypedFrame {
    ghost use Rattle.std.specs.Prelude.{List, ℕ};
    ghost use Rattle.mesh_machine.specs.Sendable.{AreOctets};
    ghost use Rattle.mesh_bases.specs.Reading.Content.{IsContentOf};

    ghost Value = { List ℕ };

    ghost view = { λ f. f.octets };

    ghost invariant = { λ f. AreOctets f.octets × IsContentOf f.octets f.content };
}

impl TypedFrame {
    /// Reads a frame of these octets. Only an allocation failure refuses.
    pub fn new(alloc: Global, octets: Bytes) -> Result<TypedFrame, AllocError>
        ensures { IfOk result (λ frame. frame ≡ octets) }
    {
        let content = read_content(alloc, octets.as_slice())?;
        Ok(TypedFrame { octets, content })
    }

    /// The octets. Takes no memory.
    pub fn octets(&self) -> &Bytes
        ensures { result.now ≡ self.now }
    {
        &self.octets
    }

    /// The octets, without what they read as. Takes no memory.
    pub fn into_octets(self) -> Bytes
        ensures { result ≡ self }
    {
        let TypedFrame { octets, content: _ } = self;
        octets
    }

    /// What the octets read as. Takes no memory.
    pub fn content(&self) -> &FrameContent
        ensures octets { AreOctets self.now }
        ensures content { IsContentOf self.now result.now }
    {
        &self.content
    }
}
