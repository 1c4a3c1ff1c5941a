//! The senders of the interfaces of a scenario.
ghost use Rattle.std.specs.Prelude.{◌≡◌, ◌≤◌, ◌<◌, ◌++◌, length, map, IfOk, IfSome, OnOk};
ghost use Rattle.std.specs.List.{slice_get};
ghost use Rattle.mesh_config.specs.Checks.Compared.{stated_lists};
ghost use Rattle.mesh_config.specs.Senders.{first_addr, senders_to, sender_pair, stated_steps, steps_at, with_steps, quality_by, qualities_to};
ghost use Rattle.mesh_config.specs.Stated.Steps.{quality_pair};

use crate::stated::{StatedArc, StatedInterface, StatedRouter};
use mesh_atoms::{Addr4, RadioArc, SenderMetric, SenderQuality, Seq};
use std::alloc::{AllocError, Global};

fn first_of(interface: &StatedInterface) -> Option<Addr4>
    ensures exact { result ≡ slice_get interface.now.addrs 0 }
    ensures addressed { IfSome result (λ addr. 0 < addr.0) }
{
    interface.addrs.as_slice().first().copied()
}

// The first address of an interface.
fn first_addr(routers: &[StatedRouter], router: usize, iface: usize) -> Option<Addr4>
    ensures exact { result ≡ first_addr (stated_lists routers.now) router iface }
    ensures addressed { IfSome result (λ addr. 0 < addr.0) }
{
    let router = routers.get(router)?;
    let interface = router.interfaces.get(iface)?;
    first_of(interface)
}

/// The senders of an interface of a router, in order of the arcs that lead to it: the first address of the interface that sends,
/// with the metric of the arc.
pub fn senders_to(
    alloc: Global,
    routers: &[StatedRouter],
    arcs: &[RadioArc],
    router: usize,
    iface: usize,
) -> Result<Seq<SenderMetric>, AllocError>
    ensures exact { IfOk result (λ senders. map sender_pair senders ≡ senders_to (stated_lists routers.now) arcs.now router iface) }
    ensures few { IfOk result (λ senders. length senders ≤ length arcs.now) }
{
    let mut senders = Seq::new(alloc);
    for arc in arcs {
        if arc.to == router && arc.to_iface == iface {
            if let Some(sender) = first_addr(routers, arc.from, arc.from_iface) {
                senders.push(SenderMetric {
                    sender,
                    metric: arc.metric,
                })?;
            }
        }
    }
    Ok(senders)
}

// What a sender sends over the arc of that number; it has no step where nothing is stated of the arc.
fn quality_of(
    alloc: Global,
    stated: &[StatedArc],
    number: usize,
    sender: Addr4,
) -> Result<SenderQuality, AllocError>
    ensures { IfOk result (λ quality. quality_pair quality ≡ (sender, steps_at (stated_steps stated.now) number)) }
{
    match stated.get(number) {
        Some(arc) => Ok(SenderQuality {
            sender,
            steps: arc.steps.copy()?,
        }),
        None => Ok(SenderQuality {
            sender,
            steps: Seq::new(alloc),
        }),
    }
}

// The quality of the sender that the arc of that number gives, where it leads to the interface.
fn put_quality(
    out: &mut Seq<SenderQuality>,
    routers: &[StatedRouter],
    arc: &RadioArc,
    stated: &[StatedArc],
    number: usize,
    router: usize,
    iface: usize,
) -> Result<(), AllocError>
    ensures { OnOk result (map quality_pair out.new ≡ map quality_pair out.old ++ quality_by (stated_lists routers.now) router iface (arc.now, steps_at (stated_steps stated.now) number)) }
{
    if arc.to == router && arc.to_iface == iface {
        if let Some(sender) = first_addr(routers, arc.from, arc.from_iface) {
            let quality = quality_of(out.allocator(), stated, number, sender)?;
            out.push(quality)?;
        }
    }
    Ok(())
}

/// The qualities of the senders of an interface of a router, in order of the arcs that lead to it, where `stated` has the steps
/// of each arc; a sender has no step where nothing is stated of its arc.
pub fn qualities_to(
    alloc: Global,
    routers: &[StatedRouter],
    arcs: &[RadioArc],
    stated: &[StatedArc],
    router: usize,
    iface: usize,
) -> Result<Seq<SenderQuality>, AllocError>
    ensures { IfOk result (λ qualities. map quality_pair qualities ≡ qualities_to (stated_lists routers.now) (with_steps arcs.now (stated_steps stated.now)) router iface) }
{
    let mut qualities = Seq::new(alloc);
    for (number, arc) in arcs.iter().enumerate() {
        put_quality(&mut qualities, routers, arc, stated, number, router, iface)?;
    }
    Ok(qualities)
}
