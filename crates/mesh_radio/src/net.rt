//! The emulated network.
ghost use Rattle.std.specs.Prelude.{◌≡◌, List, false, is_err, IfOk, OnOk, IsErr, IsTrue, MatchOption, IfSome};
ghost use Rattle.mesh_atoms.specs.declared.network.NetEvent.{NetEvent};
ghost use Rattle.mesh_machine.specs.Net.{NetStep};
ghost use Rattle.mesh_machine.specs.NetRun.{IsOpeningNet, IsOver, IsOfScenario, IsOfPackets, NetRun};
ghost use Rattle.mesh_radio.specs.Value.{states_of};

use crate::deferring::run_to_end;
use crate::opening::{Opening, opening_of};
use crate::scene::Scene;
use crate::step::tell_next;
use mesh_atoms::{Counts, NetEvent, Scenario};
use mesh_core::{Core, DeferredCore};
use mesh_expire::Bases;
use std::alloc::{AllocError, Global};
use std::marker::Model;

/// An emulated network: the routers of a scenario, over these bases, and the frames in the air between them. Moments are in
/// ticks of 1/8192 s. After an allocation failure a network is spent: every further event is refused too, as if an allocation had failed.
pub struct Net<B: Bases> {
    alloc: Global,
    cores: Vec<Core<B>>,
    scene: Scene,
    spent: bool,
}

// By hand, so that no crate that lets go of one has to know its parts.
impl<B: Bases> Drop for Net<B> {
    fn drop(self) {
        let Net {
            alloc: _,
            cores: _,
            scene: _,
            spent: _,
        } = self;
    }
}

impl<B: Bases> Model for Net<B> {
    ghost use Rattle.std.specs.Prelude.{◌≡◌, false};
    ghost use Rattle.mesh_radio.specs.Value.{NetValue, states_of};
    ghost use Rattle.mesh_radio.specs.Scene.{IsSound, net_of};

    ghost Value = { NetValue };

    ghost view = { λ n. record { net = net_of (states_of n.cores.items) n.scene; is_spent = n.spent } };

    ghost invariant = { λ n. n.spent ≡ false → IsSound (states_of n.cores.items) n.scene };
}

impl<B: Bases> Net<B> {
    /// The network of a scenario before its first event.
    pub fn new(alloc: Global, scenario: &Scenario) -> Result<Net<B>, AllocError>
        ensures opening { IfOk result (λ net. IsOpeningNet scenario.now net.net) }
        ensures whole { IfOk result (λ net. net.is_spent ≡ false) }
    {
        let Opening { routers, scene } = opening_of(alloc, scenario)?;
        Ok(Net {
            alloc,
            cores: routers,
            scene,
            spent: false,
        })
    }

    /// Whether the network has met an allocation failure.
    pub fn is_spent(&self) -> bool
        ensures { result ≡ self.now.is_spent }
    {
        self.spent
    }

    /// Does the next event, and tells it; `None` where none is left. An allocation failure leaves the network spent: it then answers with an
    /// allocation failure to each event.
    pub fn step(&mut self) -> Result<Option<NetEvent>, AllocError>
        // The next event; none exactly where the run is over, and then nothing changes.
        ensures step { IfOk result (λ e. MatchOption e (IsOver self.old.net × (self.new.net ≡ self.old.net))
            (λ event. NetStep self.old.net event self.new.net)) }
        // Its router, interfaces and lost arcs are the scenario's.
        ensures named { IfOk result (λ e. IfSome e (IsOfScenario self.old.net.scenario)) }
        // What is heard and sent spells packets.
        ensures packets { IfOk result (λ e. IfSome e IsOfPackets) }
        ensures spent { self.new.is_spent ≡ is_err result }
        ensures stays { IsTrue self.old.is_spent → IsErr result }
    {
        if self.spent {
            return Err(AllocError);
        }
        let came = tell_next(self.alloc, &mut self.cores, &mut self.scene);
        self.spent = came.is_err();
        came
    }

    /// Does all events that are left. Until the end the routers put relays and routes off. After 2^64 - 1 events it gives up as if an allocation had
    /// failed, which leaves the network spent.
    pub fn run_until_end(&mut self) -> Result<(), AllocError>
        ensures over { OnOk result ((events : List NetEvent) × NetRun self.old.net events self.new.net × IsOver self.new.net) }
        ensures spent { self.new.is_spent ≡ is_err result }
        ensures stays { IsTrue self.old.is_spent → IsErr result }
    {
        if self.spent {
            return Err(AllocError);
        }
        let ran = run_to_end::<DeferredCore<B>, Core<B>>(
            self.alloc,
            &mut self.cores,
            &mut self.scene,
        );
        self.spent = ran.is_err();
        ran
    }

    /// The routers, in the order of the scenario.
    pub fn cores(&self) -> &[Core<B>]
        ensures { states_of result.now ≡ self.now.net.routers }
    {
        self.cores.as_slice()
    }

    /// The routers, in the order of the scenario. Takes no memory.
    pub fn into_cores(self) -> Vec<Core<B>>
        ensures { states_of result.items ≡ self.net.routers }
    {
        let Net {
            alloc: _,
            cores,
            scene: _,
            spent: _,
        } = self;
        cores
    }

    /// What was counted so far.
    pub fn counts(&self) -> Counts
        ensures { result ≡ self.now.net.traffic.counts }
    {
        self.scene.traffic.counts
    }
}
