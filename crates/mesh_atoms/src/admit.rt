//! Which links of an interface are admitted, by the qualities that are handed in (RFC 6130, section 14).
ghost use Rattle.std.specs.Prelude.{◌≤◌, length, map, IsTrue};
ghost use Rattle.mesh_atoms.specs.Settings.{is_step, are_thresholds, are_ascending};

use crate::{Addr4, Seq};

/// From a moment on, up to 29,491,200 (an hour) in ticks of 1/8192 s, the quality of what a sender sends, up to 100.
#[derive(Clone, Copy)]
pub struct QualityStep {
    pub at: u64,
    pub quality: u8,
    pub ghost in_range: { IsTrue (is_step at quality) },
}

/// The quality of what a sender sends: 100 before the first of at most 16 steps, which stand in order of their moments, no two
/// at one; from then on that of the last step that has begun.
#[derive(Drop)]
pub struct SenderQuality {
    pub sender: Addr4,
    pub steps: Seq<QualityStep>,
    pub ghost few_steps: { length steps ≤ 16 },
    pub ghost in_order: { IsTrue (are_ascending (map (λ s. s.at) steps)) },
}

/// Which links of an interface are admitted (RFC 6130, section 14): those whose quality is at least `accept`; one that was
/// admitted stays so until its quality is below `reject`. Both are up to 100, and `reject` is no greater than `accept`.
#[derive(Drop)]
pub struct Admit {
    pub accept: u8,
    pub reject: u8,
    pub senders: Seq<SenderQuality>,
    pub ghost thresholds: { IsTrue (are_thresholds accept reject) },
}
