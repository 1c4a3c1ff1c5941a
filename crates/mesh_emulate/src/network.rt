//! An emulated network, whatever tables its routers have.
ghost use Rattle.std.specs.Prelude.{◌≡◌, List, map, IfOk, OnOk, MatchOption, IfSome};
ghost use Rattle.mesh_atoms.specs.declared.network.NetEvent.{NetEvent};
ghost use Rattle.mesh_texts.specs.machine.Net.{NetState, NetStep};
ghost use Rattle.mesh_texts.specs.machine.NetRun.{IsOver, IsOfPackets, NetRun};

use mesh_expire::Bases;
use mesh_radio::{Core, Counts, Net, NetEvent, RouterCore};
use std::alloc::AllocError;

/// An emulated network. What is told of one needs no more than this, and knows nothing of tables.
pub trait Network: Sized + Drop {
    type Router: RouterCore;

    ghost net: { Self → NetState };

    /// Does the next event, and tells it; `None` where none is left.
    fn step(&mut self) -> Result<Option<NetEvent>, AllocError>
        ensures step { IfOk result (λ e. MatchOption e (IsOver (net self.old) × (net self.new ≡ net self.old))
            (λ event. NetStep (net self.old) event (net self.new))) }
        ensures packets { IfOk result (λ e. IfSome e IsOfPackets) };

    /// Does all events that are left.
    fn run_until_end(&mut self) -> Result<(), AllocError>
        ensures { OnOk result ((events : List NetEvent) × NetRun (net self.old) events (net self.new) × IsOver (net self.new)) };

    /// The routers, in the order of the scenario.
    fn routers(&self) -> &[Self::Router]
        ensures { map Self.Router.state result.now ≡ (net self.now).routers };

    /// The same. Takes no memory.
    fn into_routers(self) -> Vec<Self::Router>
        ensures { map Self.Router.state result.items ≡ (net self).routers };

    /// What was counted so far.
    fn counts(&self) -> Counts
        ensures { result ≡ (net self.now).traffic.counts };
}

impl<B: Bases> Network for Net<B> {
    type Router = Core<B>;

    ghost net = { λ n. n.net };

    fn step(&mut self) -> Result<Option<NetEvent>, AllocError> {
        self.step()
    }

    fn run_until_end(&mut self) -> Result<(), AllocError> {
        self.run_until_end()
    }

    fn routers(&self) -> &[Core<B>] {
        self.cores()
    }

    fn into_routers(self) -> Vec<Core<B>> {
        self.into_cores()
    }

    fn counts(&self) -> Counts {
        self.counts()
    }
}
