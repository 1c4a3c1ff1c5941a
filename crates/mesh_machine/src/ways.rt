//! The arcs of a scenario by the interfaces that they leave, and the address of such an interface.
ghost use Rattle.std.specs.Prelude.{◌≡◌, ◌<◌, ℕ, length, map, IfOk, Some, slice_get};
ghost use Rattle.mesh_atoms.specs.declared.settings.RouterSettings.{RouterSettings};
ghost use Rattle.mesh_machine.specs.Net.{IsSender};
ghost use Rattle.mesh_machine.specs.Traffic.{leaves, leaving};
ghost use Rattle.mesh_machine.specs.Ways.{AreArcsOut, AreWaysOf, LeavesInterface};

use mesh_atoms::{Addr4, RadioArc, RouterSettings, Scenario, Seq};
use std::alloc::{AllocError, Global};

/// Arcs with their numbers, in order.
pub type ArcsOut = Seq<(usize, RadioArc)>;

/// The arcs that leave each interface of each router. Looks at each arc once for each interface.
pub fn ways_of(
    alloc: Global,
    routers: &[RouterSettings],
    arcs: &[RadioArc],
) -> Result<Seq<Seq<ArcsOut>>, AllocError>
    ensures { IfOk result (AreArcsOut arcs.now routers.now (length routers.now)) }
{
    let mut ways = Seq::new(alloc);
    for (x, router) in routers.iter().enumerate() {
        ways.push(ways_of_router(alloc, arcs, x, router.interfaces.len())?)?;
    }
    Ok(ways)
}

/// The arcs that leave an interface of a router.
pub fn leaving_of<'a>(
    scenario: &Scenario,
    ways: &'a Seq<Seq<ArcsOut>>,
    router: usize,
    iface: usize,
) -> &'a [(usize, RadioArc)]
    requires ways { AreArcsOut scenario.now.arcs scenario.now.routers (length scenario.now.routers) ways.now }
    requires face { (settings : RouterSettings) × (slice_get scenario.now.routers router ≡ Some settings) × (iface < length settings.interfaces) }
    ensures { result.now ≡ leaving scenario.now.arcs router iface }
{
    let of_router = &ways.as_slice()[router];
    let of_interface = &of_router.as_slice()[iface];
    of_interface.as_slice()
}

/// The first address of the interface that an arc leaves.
pub fn sender_of(scenario: &Scenario, arc: &RadioArc) -> Addr4
    requires { LeavesInterface scenario.now.routers arc.now }
    ensures { IsSender scenario.now.routers arc.now result }
{
    let router = &scenario.routers.as_slice()[arc.from];
    let interface = &router.interfaces.as_slice()[arc.from_iface];
    interface.addrs.as_slice()[0]
}

// The arcs that leave each of so many interfaces of a router.
fn ways_of_router(
    alloc: Global,
    arcs: &[RadioArc],
    router: usize,
    interfaces: usize,
) -> Result<Seq<ArcsOut>, AllocError>
    ensures { IfOk result (AreWaysOf arcs.now router interfaces) }
{
    let mut ways = Seq::new(alloc);
    for iface in 0..interfaces {
        ways.push(ways_of_interface(alloc, arcs, router, iface)?)?;
    }
    Ok(ways)
}

// The arcs that leave an interface of a router.
fn ways_of_interface(
    alloc: Global,
    arcs: &[RadioArc],
    router: usize,
    iface: usize,
) -> Result<ArcsOut, AllocError>
    ensures { IfOk result (λ ways. ways ≡ leaving arcs.now router iface) }
{
    let mut ways = Seq::new(alloc);
    for (number, arc) in arcs.iter().enumerate() {
        if is_arc_from(arc, router, iface) {
            ways.push((number, *arc))?;
        }
    }
    Ok(ways)
}

// Whether an arc leaves an interface of a router.
fn is_arc_from(arc: &RadioArc, router: usize, iface: usize) -> bool
    ensures { result ≡ leaves router iface arc.now }
{
    arc.from == router && arc.from_iface == iface
}
