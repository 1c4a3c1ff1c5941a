//! A router as the checker keeps it: its bases, and what follows from them but for routes.
ghost use Rattle.mesh_bases.specs.Held.RouterState.{router_state};

use crate::checking::renewal::{begin, take_due_lines};
use crate::checking::router::{EventLines, RouterOfTrace};
use mesh_atoms::{Hello, NeighbourGraph, Relays, RouterSettings, Seq, TcRow};
use mesh_bases::{Derived, InformationBases, Outbox, ReadPacket, opening};
use mesh_expire::Bases;
use mesh_machine::Arrival;
use mesh_routes::graph_of;
use std::alloc::{AllocError, Global};

/// A router: its bases, and what follows from them. Routes stay as they were at the opening, since no line depends on them.
pub(crate) struct CheckedRouter<B: Bases> {
    derived: Derived,
    holding: InformationBases<B>,
}

// By hand, so that it isn't proved part by part.
impl<B: Bases> Drop for CheckedRouter<B> {
    fn drop(self) {
        let CheckedRouter {
            derived: _,
            holding: _,
        } = self;
    }
}

impl<B: Bases> RouterOfTrace for CheckedRouter<B> {
    ghost state = { λ r. router_state r.holding r.derived };

    fn make(alloc: Global, settings: &RouterSettings) -> Result<CheckedRouter<B>, AllocError> {
        let derived = opening(alloc, settings)?;
        let holding = InformationBases::new(alloc, settings)?;
        Ok(CheckedRouter { derived, holding })
    }

    fn due_next(&self) -> u64 {
        u64::min(self.derived.next_hello, self.derived.next_tc)
    }

    fn tick(&mut self, alloc: Global, now: u64) -> Result<EventLines, AllocError> {
        let quiet = self.holding.expire(self.derived.last, now)?;
        let near = self.holding.nhdp();
        let settings = self.holding.settings();
        let before = begin(alloc, near, settings, now, quiet.near, &mut self.derived)?;
        take_due_lines(alloc, settings, before, &mut self.derived)
    }

    fn hear(
        &mut self,
        alloc: Global,
        arrival: Arrival,
        bytes: &[u8],
        packet: &ReadPacket,
    ) -> Result<EventLines, AllocError> {
        let mut out = Outbox::new(alloc);
        let last = self.derived.last;
        let (_, quiet) = self
            .holding
            .take_frame(last, arrival, bytes, packet, false, &mut out)?;
        let near = self.holding.nhdp();
        let settings = self.holding.settings();
        let now = arrival.now;
        let before = begin(alloc, near, settings, now, quiet.near, &mut self.derived)?;
        Ok(EventLines {
            before,
            hellos: false,
            parts: Seq::new(alloc),
            sequence: self.derived.sequence,
            out,
        })
    }

    fn graph(&self, alloc: Global, iface: Option<usize>) -> Result<NeighbourGraph, AllocError> {
        graph_of(alloc, self.holding.nhdp(), self.holding.settings(), iface)
    }

    fn hello(&self, alloc: Global, iface: usize) -> Result<Hello, AllocError> {
        let relays = &self.derived.relays;
        let now = self.derived.last;
        self.holding.nhdp().hello_now(alloc, iface, now, relays)
    }

    fn rows(&self) -> &[TcRow] {
        self.derived.rows.as_slice()
    }

    fn ansn(&self) -> u16 {
        self.derived.ansn
    }

    fn take_relays(&mut self, relays: Relays) {
        self.derived.relays = relays;
    }
}
