//! The Topology Information Base of a router (RFC 7181, section 10).
ghost use Rattle.std.specs.Prelude.{◌≡◌, [], ℕ, ◌<◌, ◌^◌, false, IfOk, OnOk};
ghost use Rattle.mesh_atoms.specs.declared.settings.RouterSettings.{RouterSettings};
ghost use Rattle.mesh_atoms.specs.AfterTc.{TakesTc};
ghost use Rattle.mesh_atoms.specs.Live.{LiveTopology};
ghost use Rattle.mesh_atoms.specs.Sound.{SoundTopology};
ghost use Rattle.mesh_atoms.specs.State.{IsOriginator};
ghost use Rattle.mesh_topo.specs.Answers.{answer_of};
ghost use Rattle.mesh_topo.specs.Same.{SameAdvertised};
ghost use Rattle.mesh_topo.specs.Sets.{AreFew, AreFresh};
ghost use Rattle.mesh_topo.specs.Tuples.{HasHosts};

use crate::take::take;
use crate::tc_sets::KeyedSet;
use mesh_atoms::{
    AddressKey, AddressTuple, Base, NetworkKey, NetworkTuple, RouterKey, RouterTuple, Tc,
};
use mesh_expire::{Bases, Table};
use std::alloc::{AllocError, Global};
use std::marker::Model;

/// What came of a TC.
#[derive(Clone, Copy, PartialEq, Eq)]
pub enum TcTaken {
    /// It is taken.
    Done,
    /// Nothing changed, since a newer number of its originator is kept.
    Old { kept: u16 },
    /// Nothing changed, since this set would have more than 16,384 tuples.
    Full(Base),
}

/// The four sets of the topology (RFC 7181, section 10): who advertises, and what. Moments are in ticks of 1/8192 s.
pub struct Topology<B: Bases> {
    advertisers: B::Advertisers,
    routers: KeyedSet<RouterKey, RouterTuple, B::Routers>,
    addresses: KeyedSet<AddressKey, AddressTuple, B::Addresses>,
    networks: KeyedSet<NetworkKey, NetworkTuple, B::Networks>,
}

// By hand, so that no crate that lets go of one has to know its parts.
impl<B: Bases> Drop for Topology<B> {
    fn drop(self) {
        let Topology {
            advertisers: _,
            routers: _,
            addresses: _,
            networks: _,
        } = self;
    }
}

impl<B: Bases> Model for Topology<B> {
    ghost use Rattle.mesh_atoms.specs.State.{TopologyBase as Sets};

    ghost Value = { Sets };

    ghost view = { λ t. record {
      advertisers = B.Advertisers.content t.advertisers;
      routers = t.routers;
      addresses = t.addresses;
      networks = t.networks;
    } };
}

impl<B: Bases> Topology<B> {
    /// Empty sets.
    pub fn new(alloc: Global) -> Result<Topology<B>, AllocError>
        ensures advertisers { IfOk result (λ topology. topology.advertisers ≡ []) }
        ensures routers { IfOk result (λ topology. topology.routers ≡ []) }
        ensures addresses { IfOk result (λ topology. topology.addresses ≡ []) }
        ensures networks { IfOk result (λ topology. topology.networks ≡ []) }
        ensures sound { IfOk result (λ topology. (settings : RouterSettings) (now : ℕ) → SoundTopology settings now topology) }
    {
        Ok(Topology {
            advertisers: B::Advertisers::new(alloc)?,
            routers: KeyedSet::new(alloc)?,
            addresses: KeyedSet::new(alloc)?,
            networks: KeyedSet::new(alloc)?,
        })
    }

    /// Takes a TC that is heard at that moment (RFC 7181, section 16.3.3). `Old` comes exactly where the number that is
    /// kept of its originator is newer than its own, and then `Full` where a set has more than 16,384 tuples with the
    /// rows that the TC has for it (one for the advertisers), the first such set. Rows without a metric count for
    /// nothing. Rows of originators and of routable addresses must have the prefix 32. After an allocation failure the value
    /// may only be dropped. Looks at the tuples of its originator alone, and takes memory for their keys.
    pub fn take_tc(&mut self, now: u64, tc: &Tc) -> Result<TcTaken, AllocError>
        requires now { now < 2 ^ 62 }
        requires validity { tc.now.validity < 2 ^ 62 }
        requires hosts { HasHosts tc.now }
        ensures ok { IfOk result (λ taken. TakesTc now tc.now self.old self.new (answer_of taken)) }
        ensures within { OnOk result (AreFew self.old → AreFew self.new) }
        ensures fresh { OnOk result (0 < tc.now.validity → AreFresh now self.old → AreFresh now self.new) }
        // A TC of another router keeps what holds of the topology after every event.
        ensures sound { OnOk result ((settings : RouterSettings) → 0 < tc.now.validity → (IsOriginator settings tc.now.originator → ⊥)
            → SoundTopology settings now self.old → SoundTopology settings now self.new) }
    {
        let (taken, _) = self.take_and_tell(now, tc)?;
        Ok(taken)
    }

    /// The same as `take_tc`; and `false` where the TC didn't change what is advertised: then the same routers, addresses and networks are
    /// advertised at the same metrics and distances as before. `true` promises nothing.
    pub fn take_and_tell(&mut self, now: u64, tc: &Tc) -> Result<(TcTaken, bool), AllocError>
        requires now { now < 2 ^ 62 }
        requires validity { tc.now.validity < 2 ^ 62 }
        requires hosts { HasHosts tc.now }
        ensures ok { IfOk result (λ answer. TakesTc now tc.now self.old self.new (answer_of answer.0)) }
        ensures same { IfOk result (λ answer. answer.1 ≡ false → SameAdvertised self.old self.new) }
        ensures within { OnOk result (AreFew self.old → AreFew self.new) }
        ensures fresh { OnOk result (0 < tc.now.validity → AreFresh now self.old → AreFresh now self.new) }
        ensures sound { OnOk result ((settings : RouterSettings) → 0 < tc.now.validity → (IsOriginator settings tc.now.originator → ⊥)
            → SoundTopology settings now self.old → SoundTopology settings now self.new) }
    {
        take(
            &mut self.advertisers,
            &mut self.routers,
            &mut self.addresses,
            &mut self.networks,
            now,
            tc,
        )
    }

    /// Takes out what is expired at that moment (RFC 7181, section 10). Takes no memory.
    pub fn expire(&mut self, now: u64)
        ensures live { LiveTopology now self.old self.new }
        ensures within { AreFew self.old → AreFew self.new }
        ensures fresh { AreFresh now self.new }
        ensures sound { (settings : RouterSettings) (before : ℕ) → SoundTopology settings before self.old → SoundTopology settings now self.new }
    {
        self.expire_and_tell(now);
    }

    /// The same as `expire`; and `false` where no router, address or network went: then the same are advertised at the same metrics and
    /// distances as before. `true` promises nothing.
    pub fn expire_and_tell(&mut self, now: u64) -> bool
        ensures live { LiveTopology now self.old self.new }
        ensures same { result ≡ false → SameAdvertised self.old self.new }
        ensures within { AreFew self.old → AreFew self.new }
        ensures fresh { AreFresh now self.new }
        ensures sound { (settings : RouterSettings) (before : ℕ) → SoundTopology settings before self.old → SoundTopology settings now self.new }
    {
        self.advertisers.expire(now);
        let mut changed = self.routers.expire(now);
        changed |= self.addresses.expire(now);
        changed |= self.networks.expire(now);
        changed
    }

    /// Who advertises.
    pub fn advertisers(&self) -> &B::Advertisers
        ensures { B.Advertisers.content result.now ≡ self.now.advertisers }
    {
        &self.advertisers
    }

    /// Which routers are advertised.
    pub fn routers(&self) -> &B::Routers
        ensures { B.Routers.content result.now ≡ self.now.routers }
    {
        self.routers.table()
    }

    /// Which routable addresses are advertised.
    pub fn addresses(&self) -> &B::Addresses
        ensures { B.Addresses.content result.now ≡ self.now.addresses }
    {
        self.addresses.table()
    }

    /// Which attached networks are advertised.
    pub fn networks(&self) -> &B::Networks
        ensures { B.Networks.content result.now ≡ self.now.networks }
    {
        self.networks.table()
    }
}
