//! What the interfaces of a running router hear.
ghost use Rattle.std.specs.Prelude.{◌≡◌, ◌<◌, ◌≤◌, ◌+◌, ◌^◌, [], length, OnOk, OnErr, IfOk};
ghost use Rattle.mesh_atoms.specs.declared.limits.TheConstants.{LONGEST_DATAGRAM};
ghost use Rattle.mesh_run.specs.Turns.Parts.{IsReady, HearsInterface, HearsInVain, Going, Broken, at};

use crate::turns::buffers::Buffers;
use crate::turns::events::hear;
use crate::turns::moment::TurnMoment;
use crate::turns::tally::Tally;
use mesh_atoms::Bytes;
use mesh_core::{Arrival, DeferringRouter, TypedFrame};
use mesh_io::{Air, Ear};
use std::alloc::{AllocError, Global};

// One more; an allocation failure at the end of the count.
fn one_more(count: u64) -> Result<u64, AllocError>
    ensures { IfOk result (λ more. more ≡ count + 1) }
{
    if count == u64::MAX {
        return Err(AllocError);
    }
    Ok(count + 1)
}

// A frame of these octets, read. Only an allocation failure refuses.
fn read_frame(alloc: Global, octets: &[u8]) -> Result<TypedFrame, AllocError>
    ensures { IfOk result (λ frame. frame ≡ octets.now) }
{
    let mut bytes = Bytes::new(alloc);
    bytes.append(octets)?;
    TypedFrame::new(alloc, bytes)
}

// Hears an interface once; a frame is an event of the router.
fn listen<M: DeferringRouter, A: Air>(
    router: &mut M,
    moment: TurnMoment,
    iface: usize,
    buffers: &mut Buffers,
    air: &mut A,
    tally: &mut Tally,
) -> Result<(), AllocError>
    requires now { moment.now < 2 ^ 62 }
    requires iface { iface < A.attached air.old }
    requires longest { length buffers.old.frame.items ≡ LONGEST_DATAGRAM }
    requires ready { IsReady (M.state router.old) (A.attached air.old) moment.now }
    ensures hears { OnOk result (HearsInterface moment.end moment.now iface (M.state router.old) (M.state router.new)
        (A.reports air.old) (A.reports air.new) tally.old tally.new) }
    ensures in_vain { OnErr result (HearsInVain iface (A.reports air.old) (A.reports air.new)) }
    ensures ready { OnOk result (IsReady (M.state router.new) (A.attached air.new) moment.now) }
    ensures attached { A.attached air.new ≡ A.attached air.old }
    ensures later { A.faults air.old ≤ A.faults air.new }
    ensures longest { length buffers.new.frame.items ≡ LONGEST_DATAGRAM }
{
    let alloc = *buffers.frame.allocator();
    let buf = buffers.frame.as_mut_slice();
    match air.hear(iface, buf) {
        Ear::Frame { len, sender } => {
            tally.heard = one_more(tally.heard)?;
            let frame = read_frame(alloc, &buf[..len])?;
            let arrival = Arrival {
                now: moment.now,
                iface,
                sender,
            };
            hear(
                router,
                moment.end,
                arrival,
                &frame,
                &mut buffers.outbox,
                air,
                tally,
            )
        }
        Ear::Silence => Ok(()),
        Ear::Failed => {
            tally.faults = one_more(tally.faults)?;
            Ok(())
        }
    }
}

/// Hears each interface once, in order of their numbers, at the moment of a turn. A frame is read before the router hears it.
pub fn listen_all<M: DeferringRouter, A: Air>(
    router: &mut M,
    moment: TurnMoment,
    count: usize,
    buffers: &mut Buffers,
    air: &mut A,
    tally: &mut Tally,
) -> Result<(), AllocError>
    requires now { moment.now < 2 ^ 62 }
    requires count { count ≡ A.attached air.old }
    requires longest { length buffers.old.frame.items ≡ LONGEST_DATAGRAM }
    requires ready { IsReady (M.state router.old) (A.attached air.old) moment.now }
    ensures goes { OnOk result (Going moment.end count (at (M.state router.old) moment.now 0) (at (M.state router.new) moment.now count) []
        (A.reports air.old) (A.reports air.new) tally.old tally.new) }
    ensures breaks { OnErr result (Broken moment.end count (at (M.state router.old) moment.now 0) []
        (A.reports air.old) (A.reports air.new)) }
    ensures ready { OnOk result (IsReady (M.state router.new) (A.attached air.new) moment.now) }
    ensures attached { A.attached air.new ≡ A.attached air.old }
    ensures later { A.faults air.old ≤ A.faults air.new }
    ensures longest { length buffers.new.frame.items ≡ LONGEST_DATAGRAM }
{
    for iface in 0..count {
        listen(router, moment, iface, buffers, air, tally)?;
    }
    Ok(())
}
