//! The neighbourhood of a router, and what it is made of (RFC 6130, sections 7 and 8, and RFC 7181, sections 8 and 9).
ghost use Rattle.std.specs.Prelude.{◌≡◌, ℕ, length, IfOk};
ghost use Rattle.mesh_atoms.specs.Sound.{SoundNeighbourhood};
ghost use Rattle.mesh_nhdp.specs.NhdpState.{NhdpState, empty_near};

use crate::sets::NeighbourhoodSets;
use mesh_atoms::{Addr4, RouterSettings, Seq};
use mesh_expire::Bases;
use mesh_hello::own_addresses;
use std::alloc::{AllocError, Global};
use std::marker::Model;

/// The neighbourhood of a router, with its settings and the addresses of its interfaces. Moments are in ticks of 1/8192 s. After an
/// allocation failure it may only be dropped.
pub struct Nhdp<B: Bases> {
    pub(crate) settings: RouterSettings,
    pub(crate) own: Seq<Addr4>,
    pub(crate) sets: NeighbourhoodSets<B>,
}

// By hand, so that no crate that lets go of one has to know its parts.
impl<B: Bases> Drop for Nhdp<B> {
    fn drop(self) {
        let Nhdp {
            settings: _,
            own: _,
            sets: _,
        } = self;
    }
}

impl<B: Bases> Model for Nhdp<B> {
    ghost use Rattle.mesh_nhdp.specs.NhdpState.{NhdpState};

    ghost Value = { NhdpState };

    ghost view = { λ n. record { settings = n.settings; near = n.sets } };

    ghost use Rattle.mesh_hello.specs.Told.Telling.{AreOwnAddresses};

    ghost invariant = { λ n. AreOwnAddresses n.settings n.own };
}

impl<B: Bases> Nhdp<B> {
    /// The empty neighbourhood of a router with these settings.
    pub fn new(alloc: Global, settings: &RouterSettings) -> Result<Nhdp<B>, AllocError>
        ensures settings { IfOk result (λ n. n.settings ≡ settings.now) }
        ensures empty { IfOk result (λ n. n.near ≡ empty_near (length settings.now.interfaces)) }
        ensures sound { IfOk result (λ n. (moment : ℕ) → SoundNeighbourhood n.settings moment n.near) }
    {
        let settings = settings.copy()?;
        let sets = NeighbourhoodSets::new(alloc, settings.interfaces.len())?;
        let own = own_addresses(alloc, &settings)?;
        Ok(Nhdp {
            settings,
            own: Seq::from_vec(own),
            sets,
        })
    }

    /// The settings. Takes no memory.
    pub fn settings(&self) -> &RouterSettings
        ensures { result.now ≡ self.now.settings }
    {
        &self.settings
    }
}
