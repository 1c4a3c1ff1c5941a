//! The routers that hear a flood.
ghost use Rattle.std.specs.Prelude.{◌≡◌, ◌≢◌, ◌↔◌, Contains, IsTrue, IfOk};
ghost use Rattle.mesh_probe.specs.Hearing.{BringsTo};
ghost use Rattle.mesh_probe.specs.Probes.{HearsOne, ListsNumbers};

use crate::coverage::Sending;
use mesh_atoms::{RadioArc, Scenario, Seq};
use std::alloc::{AllocError, Global};

// Whether the interface sends.
fn is_sent(sends: &[Sending], router: usize, iface: usize) -> bool
    ensures { IsTrue result ↔ Contains sends.now (record { router = router; iface = iface }) }
{
    sends.contains(&Sending { router, iface })
}

// Whether the arc leads to the router, from an interface that sends.
fn is_heard_by(arc: &RadioArc, sends: &[Sending], router: usize) -> bool
    ensures { IsTrue result ↔ BringsTo sends.now router arc.now }
{
    if arc.to != router {
        return false;
    }
    is_sent(sends, arc.from, arc.from_iface)
}

// Whether an arc leads to the router from an interface that sends.
fn can_hear_one(scenario: &Scenario, sends: &[Sending], router: usize) -> bool
    ensures { IsTrue result ↔ HearsOne scenario.now sends.now router }
{
    for arc in scenario.arcs.as_slice() {
        if is_heard_by(arc, sends, router) {
            return true;
        }
    }
    false
}

// Whether it is another router than the origin, and hears a frame.
fn is_reached(scenario: &Scenario, origin: usize, sends: &[Sending], router: usize) -> bool
    ensures { IsTrue result ↔ ((router ≢ origin) × HearsOne scenario.now sends.now router) }
{
    if router == origin {
        return false;
    }
    can_hear_one(scenario, sends, router)
}

/// The other routers than the origin that hear a frame.
pub(crate) fn reached_of(
    alloc: Global,
    scenario: &Scenario,
    origin: usize,
    sends: &[Sending],
) -> Result<Seq<usize>, AllocError>
    ensures { IfOk result (ListsNumbers (λ z. (z ≢ origin) × HearsOne scenario.now sends.now z)) }
{
    let mut reached = Seq::new(alloc);
    for router in 0..scenario.routers.len() {
        if is_reached(scenario, origin, sends, router) {
            reached.push(router)?;
        }
    }
    Ok(reached)
}
