//! Expiry (RFC 6130, section 13, and RFC 7181, section 17).
ghost use Rattle.std.specs.Prelude.{◌≡◌, ◌<◌, ◌^◌, ◌↔◌, ℕ, IsTrue, IfOk, OnOk};
ghost use Rattle.mesh_atoms.specs.Live.{LiveNeighbourhood};
ghost use Rattle.mesh_atoms.specs.Sound.{SoundNeighbourhood};
ghost use Rattle.mesh_nhdp.specs.Staying.{AllIsAsItWas};

use crate::follow::follow_links;
use crate::interfaces::{Change, Expiry, change_all};
use crate::near_addresses::{WantedNeighbours, wanted_addresses};
use crate::nhdp::Nhdp;
use crate::sets::NeighbourhoodSets;
use crate::staying::{are_links_unchanged, expire_beside};
use mesh_atoms::RouterSettings;
use mesh_expire::Bases;
use std::alloc::AllocError;

impl<B: Bases> Nhdp<B> {
    /// The same as `expire`, where the last event was at `last`; whether the neighbourhood is just as it was then: each link is
    /// as its quality has it, not expired, and SYMMETRIC where it was so, and no 2-hop tuple and no lost address is expired.
    /// Where nothing becomes of the links, it looks at each link once, takes no memory, and leaves the neighbours alone.
    pub fn expire_since(&mut self, last: u64, now: u64) -> Result<bool, AllocError>
        requires now { now < 2 ^ 62 }
        requires sound { SoundNeighbourhood self.old.settings last self.old.near }
        ensures live { OnOk result (LiveNeighbourhood self.old.settings now self.old.near self.new.near) }
        ensures sound { OnOk result (SoundNeighbourhood self.new.settings now self.new.near) }
        ensures settings { self.new.settings ≡ self.old.settings }
        ensures same { IfOk result (λ same. IsTrue same → self.new.near ≡ self.old.near) }
        ensures when { IfOk result (λ same. IsTrue same ↔ AllIsAsItWas self.old.settings last now self.old.near) }
    {
        expire_or_stay(&self.settings, last, now, &mut self.sets)
    }

    /// Brings links in line with their qualities, and takes out what is expired at a moment below 2^62: links, their 2-hop
    /// tuples where they aren't SYMMETRIC, and lost addresses; neighbours follow their links (RFC 6130, sections 13 and 14, and
    /// RFC 7181, section 17). After an allocation failure the neighbourhood may only be dropped. Beside what its tables' expiry costs,
    /// each link and each address of a neighbour is looked up.
    pub fn expire(&mut self, now: u64) -> Result<(), AllocError>
        requires now { now < 2 ^ 62 }
        requires sound { (moment : ℕ) × SoundNeighbourhood self.old.settings moment self.old.near }
        ensures live { OnOk result (LiveNeighbourhood self.old.settings now self.old.near self.new.near) }
        ensures sound { OnOk result (SoundNeighbourhood self.new.settings now self.new.near) }
        ensures settings { self.new.settings ≡ self.old.settings }
    {
        expire_all(&self.settings, now, &mut self.sets)
    }
}

/// The same over the sets, which after an allocation failure may only be dropped.
fn expire_all<B: Bases>(
    settings: &RouterSettings,
    now: u64,
    sets: &mut NeighbourhoodSets<B>,
) -> Result<(), AllocError>
    requires now { now < 2 ^ 62 }
    requires sound { (moment : ℕ) × SoundNeighbourhood settings.now moment sets.old }
    ensures live { OnOk result (LiveNeighbourhood settings.now now sets.old sets.new) }
    ensures sound { OnOk result (SoundNeighbourhood settings.now now sets.new) }
{
    let alloc = settings.interfaces.allocator();
    let until = now + settings.times.neighbour_hold;
    let before = wanted_addresses(alloc, sets.neighbours.table(), WantedNeighbours::Symmetric)?;
    let expiry = Expiry {
        now,
        hold: settings.times.link_hold,
        faces: settings.interfaces.as_slice(),
    };
    change_all(alloc, &Change::Expiry(expiry), sets)?;
    sets.losts.expire(now);
    follow_links(alloc, now, &before, until, sets)
}

/// Takes out the 2-hop tuples and the lost addresses that are expired where nothing becomes of the links since `last`, and else
/// brings all up to date; whether all is just as it was then.
fn expire_or_stay<B: Bases>(
    settings: &RouterSettings,
    last: u64,
    now: u64,
    sets: &mut NeighbourhoodSets<B>,
) -> Result<bool, AllocError>
    requires now { now < 2 ^ 62 }
    requires sound { SoundNeighbourhood settings.now last sets.old }
    ensures live { OnOk result (LiveNeighbourhood settings.now now sets.old sets.new) }
    ensures sound { OnOk result (SoundNeighbourhood settings.now now sets.new) }
    ensures same { IfOk result (λ same. IsTrue same → sets.new ≡ sets.old) }
    ensures when { IfOk result (λ same. IsTrue same ↔ AllIsAsItWas settings.now last now sets.old) }
{
    if are_links_unchanged(settings, sets, last, now) {
        Ok(expire_beside(sets, now))
    } else {
        expire_all(settings, now, sets)?;
        Ok(false)
    }
}
