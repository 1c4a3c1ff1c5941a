//! The frames in the air, in the order in which they were sent.
ghost use Rattle.std.specs.Prelude.{◌≡◌, ◌<◌, ◌≤◌, [], ◌∷◌, ◌++◌, length, All, OnOk, MatchOption};
ghost use Rattle.mesh_trace.specs.machine.Traffic.{IsHeardFirst};
ghost use Rattle.mesh_replay.specs.Traffic.Air.{delivery_of, IsNextFrame, AreNoEarlier};

use mesh_atoms::Bytes;
use std::alloc::{AllocError, Global};
use std::collections::VecDeque;
use std::marker::Model;
use std::rc::Rc;

/// A frame in the air or just out of it: when it is heard, the arc by which it comes, and its octets, which are kept once for all who
/// hear them.
#[derive(Drop)]
pub(crate) struct Delivered {
    pub moment: u64,
    pub arc: usize,
    pub frame: Rc<Bytes>,
}

/// The frames in the air, in order of sending and then arc; and a moment before which none of them is heard.
#[derive(Drop)]
pub(crate) struct AwaitedFrames {
    flights: VecDeque<Delivered>,
    least: u64,
}

impl Model for AwaitedFrames {
    ghost use Rattle.std.specs.Prelude.{List, map};
    ghost use Rattle.mesh_trace.specs.machine.Traffic.{Delivery};
    ghost use Rattle.mesh_replay.specs.Traffic.Air.{delivery_of, AreNoEarlier};

    ghost Value = { List Delivery };

    ghost view = { λ a. map delivery_of a.flights.items };

    ghost invariant = { λ a. AreNoEarlier a.least a.flights.items };
}

impl AwaitedFrames {
    /// Nothing.
    pub(crate) fn new(alloc: Global) -> AwaitedFrames
        ensures { result ≡ [] }
    {
        AwaitedFrames {
            flights: VecDeque::new(alloc),
            least: 0,
        }
    }

    /// Puts a frame in the air behind all others.
    pub(crate) fn put(
        &mut self,
        moment: u64,
        arc: usize,
        frame: Rc<Bytes>,
    ) -> Result<(), AllocError>
        ensures { OnOk result (self.new ≡ self.old ++ record { moment = moment; arc = arc; frame = frame.value } ∷ []) }
    {
        self.least = u64::min(self.least, moment);
        self.flights.push_back(Delivered { moment, arc, frame })?;
        Ok(())
    }

    /// Takes the frame that is heard first, if that is no later than a moment. Looks at the frames in the air up to the first that is heard
    /// no later than the one that was looked for before, and at all of them where there is none.
    pub(crate) fn take(&mut self, limit: u64) -> Option<Delivered>
        ensures first { MatchOption result (self.new ≡ self.old) (λ landed. IsHeardFirst self.old (delivery_of landed) self.new) }
        ensures limit { MatchOption result (All (λ d. limit < d.moment) self.old) (λ landed. landed.moment ≤ limit) }
    {
        if self.flights.is_empty() {
            return None;
        }
        let first = first_heard(&self.flights, self.least);
        self.least = self.flights[first].moment;
        if self.least > limit {
            return None;
        }
        self.flights.remove(first)
    }
}

// Where the frame stands that is heard first: of those of the least moment the first. None of them is heard before `least`.
fn first_heard(flights: &VecDeque<Delivered>, least: u64) -> usize
    requires some { 0 < length flights.now.items }
    requires least { AreNoEarlier least flights.now.items }
    ensures { IsNextFrame flights.now.items (length flights.now.items) result }
{
    let mut first = 0;
    for place in 0..flights.len() {
        if flights[first].moment <= least {
            return first;
        }
        if flights[place].moment < flights[first].moment {
            first = place;
        }
    }
    first
}
