//! The bases of a router, with its settings (RFC 6130, sections 7 and 8, and RFC 7181, sections 8 to 11).
ghost use Rattle.std.specs.Prelude.{◌≡◌, ◌<◌, ◌^◌, length, IfOk, OnOk, IsTrue};
ghost use Rattle.mesh_atoms.specs.Live.{Live};
ghost use Rattle.mesh_machine.specs.Laws.{SoundBases};
ghost use Rattle.mesh_machine.specs.Machine.{no_bases};
ghost use Rattle.mesh_nbrs.specs.Same.{SameNear};
ghost use Rattle.mesh_nhdp.specs.Staying.{AllIsAsItWas};
ghost use Rattle.mesh_topo.specs.Same.{SameAdvertised};

use crate::held::quiet::Quiet;
use mesh_atoms::RouterSettings;
use mesh_expire::Bases;
use mesh_flood::Flood;
use mesh_nhdp::Nhdp;
use mesh_topo::Topology;
use std::alloc::{AllocError, Global};
use std::marker::Model;

/// The bases of a router: its neighbourhood, its topology, and the messages seen before. Moments are in ticks of 1/8192 s. After
/// an allocation failure the value may only be dropped.
pub struct InformationBases<B: Bases> {
    pub(crate) nhdp: Nhdp<B>,
    pub(crate) topology: Topology<B>,
    pub(crate) flood: Flood<B>,
}

// By hand, so that no crate that lets go of one has to know its parts.
impl<B: Bases> Drop for InformationBases<B> {
    fn drop(self) {
        let InformationBases {
            nhdp: _,
            topology: _,
            flood: _,
        } = self;
    }
}

impl<B: Bases> Model for InformationBases<B> {
    ghost use Rattle.std.specs.Prelude.{◌≡◌};
    ghost use Rattle.mesh_bases.specs.Held.Held.{Held};

    ghost Value = { Held };

    ghost view = { λ h. record { settings = h.nhdp.settings; bases = record { neighbourhood = h.nhdp.near; topology = h.topology; noted = h.flood.noted } } };

    ghost invariant = { λ h. h.flood.times ≡ h.nhdp.settings.times };
}

impl<B: Bases> InformationBases<B> {
    /// The bases of a router with these settings before its first event: they are empty.
    pub fn new(alloc: Global, settings: &RouterSettings) -> Result<InformationBases<B>, AllocError>
        ensures settings { IfOk result (λ holding. holding.settings ≡ settings.now) }
        ensures empty { IfOk result (λ holding. holding.bases ≡ no_bases (length settings.now.interfaces)) }
    {
        let flood = Flood::new(alloc, settings)?;
        let topology = Topology::new(alloc)?;
        let nhdp = Nhdp::new(alloc, settings)?;
        Ok(InformationBases {
            nhdp,
            topology,
            flood,
        })
    }

    /// The settings. Takes no memory.
    pub fn settings(&self) -> &RouterSettings
        ensures { result.now ≡ self.now.settings }
    {
        self.nhdp.settings()
    }

    /// The neighbourhood. Takes no memory.
    pub fn nhdp(&self) -> &Nhdp<B>
        ensures near { result.now.near ≡ self.now.bases.neighbourhood }
        ensures settings { result.now.settings ≡ self.now.settings }
    {
        &self.nhdp
    }

    /// The topology. Takes no memory.
    pub fn topology(&self) -> &Topology<B>
        ensures { result.now ≡ self.now.bases.topology }
    {
        &self.topology
    }

    /// The messages seen before. Takes no memory.
    pub fn flood(&self) -> &Flood<B>
        ensures { result.now.noted ≡ self.now.bases.noted }
    {
        &self.flood
    }

    /// Takes out what is expired at a moment below 2^62, where the last event was at `last` (RFC 6130, section 13, and RFC 7181,
    /// sections 10 and 14). The answer is what that has left as it was, the neighbourhood with its moments.
    pub fn expire(&mut self, last: u64, now: u64) -> Result<Quiet, AllocError>
        requires now { now < 2 ^ 62 }
        requires sound { SoundBases self.old.settings last self.old.bases }
        ensures live { OnOk result (Live self.old.settings now self.old.bases self.new.bases) }
        ensures settings { self.new.settings ≡ self.old.settings }
        ensures near { IfOk result (λ quiet. IsTrue quiet.near → SameNear self.old.bases.neighbourhood last self.new.bases.neighbourhood now) }
        ensures advertised { IfOk result (λ quiet. IsTrue quiet.advertised → SameAdvertised self.old.bases.topology self.new.bases.topology) }
        ensures same { IfOk result (λ quiet. IsTrue quiet.near → self.new.bases.neighbourhood ≡ self.old.bases.neighbourhood) }
        ensures links { IfOk result (λ quiet. IsTrue quiet.near → AllIsAsItWas self.old.settings last now self.old.bases.neighbourhood) }
    {
        let near = self.nhdp.expire_since(last, now)?;
        let changed = self.topology.expire_and_tell(now);
        self.flood.expire(now);
        Ok(Quiet {
            near,
            advertised: !changed,
        })
    }
}
