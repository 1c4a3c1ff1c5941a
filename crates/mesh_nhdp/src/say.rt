//! The HELLO that a router sends, and whether a sender has chosen it as a flooding relay (RFC 6130, section 11, and RFC 7181, section
//! 15.1).
ghost use Rattle.std.specs.Prelude.{◌≡◌, ◌<◌, ◌≤◌, length, IfOk};
ghost use Rattle.mesh_atoms.specs.Base.{base_of};
ghost use Rattle.mesh_atoms.specs.Hello.{IsHelloNow};
ghost use Rattle.mesh_atoms.specs.Sound.{SoundNeighbourhood};
ghost use Rattle.mesh_atoms.specs.State.{State};
ghost use Rattle.mesh_atoms.specs.Writable.{HaveSenderAlone};
ghost use Rattle.mesh_links.specs.Links.{SelectorOf};

use crate::nhdp::Nhdp;
use mesh_atoms::{Addr4, Hello, Relays};
use mesh_expire::Bases;
use mesh_hello::{HelloBasis, make_hello};
use std::alloc::{AllocError, Global};

impl<B: Bases> Nhdp<B> {
    /// The HELLO that interface `iface` sends at `now`, in ticks of 1/8192 s: originator, validity and interval rounded up to
    /// time codes, willingness, and a row for each address of which something is to be said (RFC 6130, section 11, and
    /// RFC 7181, section 15.1). `iface` is an interface, and nothing is expired at `now`. Goes over the
    /// links of the interface, the neighbours and the lost addresses once, sorts the addresses, and looks each of them up once in
    /// each; nothing but the list of addresses and the rows is copied. Only an allocation failure refuses.
    pub fn hello_now(
        &self,
        alloc: Global,
        iface: usize,
        now: u64,
        relays: &Relays,
    ) -> Result<Hello, AllocError>
        requires iface { iface < length self.now.settings.interfaces }
        requires sound { SoundNeighbourhood self.now.settings now self.now.near }
        ensures ok { IfOk result (λ hello. (s : State) → s.settings ≡ self.now.settings →
            s.bases.neighbourhood ≡ self.now.near → s.relays ≡ relays.now → IsHelloNow s iface now hello) }
        // 32 addresses of its own, and 1,024 of others.
        ensures few { IfOk result (λ hello. length hello.rows ≤ 1056) }
        // An address of its own has no status, no metric and no relay.
        ensures own { IfOk result (λ hello. HaveSenderAlone hello.rows) }
    {
        let sets = &self.sets;
        let basis = HelloBasis {
            settings: &self.settings,
            links: &sets.links[iface],
            neighbours: &sets.neighbours,
            losts: sets.losts.table(),
            relays,
            iface,
            moment: now,
        };
        make_hello(alloc, &basis)
    }

    /// The selector flag of the SYMMETRIC link of interface `iface` that has the sender's address; `None` where there is no such
    /// link, or no such interface (RFC 7181, section 8.1). Takes no memory.
    pub fn symmetric_of(&self, iface: usize, sender: Addr4, now: u64) -> Option<bool>
        ensures { SelectorOf (base_of self.now.near.links iface) now sender result }
    {
        match self.sets.links_on(iface) {
            Some(links) => links.symmetric_of(sender, now),
            None => None,
        }
    }
}
