//! Frames, handed over to the air.
ghost use Rattle.std.specs.Prelude.{◌≡◌, ◌<◌, ◌≤◌, ◌+◌, ◌^◌, [], ◌∷◌, All, get_or, length, OnOk};
ghost use Rattle.mesh_run.specs.Turns.Parts.{Hands, no_frame};

use crate::turns::tally::Tally;
use mesh_core::Outbox;
use mesh_io::{Air, Sent};
use std::alloc::AllocError;

// Hands a frame over.
fn hand<A: Air>(air: &mut A, iface: usize, bytes: &[u8], tally: &mut Tally)
    requires iface { iface < A.attached air.old }
    requires sent { tally.old.sent + 1 < 2 ^ 64 }
    requires faults { tally.old.faults + 1 < 2 ^ 64 }
    ensures hands { Hands ((record { iface = iface; bytes = bytes.now }) ∷ [])
        (A.reports air.old) (A.reports air.new) tally.old tally.new }
    ensures attached { A.attached air.new ≡ A.attached air.old }
    ensures later { A.faults air.old ≤ A.faults air.new }
    ensures sent { tally.new.sent ≤ tally.old.sent + 1 }
    ensures faults { tally.new.faults ≤ tally.old.faults + 1 }
{
    match air.send(iface, bytes) {
        Sent::Done => tally.sent += 1,
        Sent::Failed => tally.faults += 1,
    }
}

// Hands the frame at a place over.
fn hand_at<A: Air>(air: &mut A, out: &Outbox, i: usize, tally: &mut Tally)
    requires on { All (λ f. f.iface < A.attached air.old) out.now }
    requires within { i < length out.now }
    requires sent { tally.old.sent + 1 < 2 ^ 64 }
    requires faults { tally.old.faults + 1 < 2 ^ 64 }
    ensures hands { Hands (get_or out.now i no_frame ∷ []) (A.reports air.old) (A.reports air.new) tally.old tally.new }
    ensures attached { A.attached air.new ≡ A.attached air.old }
    ensures later { A.faults air.old ≤ A.faults air.new }
    ensures sent { tally.new.sent ≤ tally.old.sent + 1 }
    ensures faults { tally.new.faults ≤ tally.old.faults + 1 }
{
    match out.frame(i) {
        Some((iface, bytes)) => hand(air, iface, bytes, tally),
        None => {}
    }
}

/// Hands the frames over in order. A send that fails is counted, and the next goes on.
pub fn hand_over<A: Air>(air: &mut A, out: &Outbox, tally: &mut Tally)
    requires on { All (λ f. f.iface < A.attached air.old) out.now }
    requires sent { tally.old.sent + length out.now < 2 ^ 64 }
    requires faults { tally.old.faults + length out.now < 2 ^ 64 }
    ensures hands { Hands out.now (A.reports air.old) (A.reports air.new) tally.old tally.new }
    ensures attached { A.attached air.new ≡ A.attached air.old }
    ensures later { A.faults air.old ≤ A.faults air.new }
{
    for i in 0..out.len() {
        hand_at(air, out, i, tally);
    }
}

/// Whether so many frames can still be counted; an allocation failure where they can't.
pub fn has_room(tally: &Tally, count: usize) -> Result<(), AllocError>
    ensures sent { OnOk result (tally.now.sent + count < 2 ^ 64) }
    ensures faults { OnOk result (tally.now.faults + count < 2 ^ 64) }
{
    let count = count as u64;
    if tally.sent >= u64::MAX - count || tally.faults >= u64::MAX - count {
        return Err(AllocError);
    }
    Ok(())
}
