//! The frames in the air, in the order in which they will be heard.
ghost use Rattle.std.specs.Prelude.{◌≡◌, ◌<◌, ◌≤◌, [], ◌∷◌, ◌++◌, All, OnOk, MatchOption};
ghost use Rattle.mesh_machine.specs.Traffic.{IsHeardFirst};
ghost use Rattle.mesh_radio.specs.Traffic.Air.{delivery_of};

use mesh_core::TypedFrame;
use std::alloc::{AllocError, Global};
use std::collections::BTreeMap;
use std::marker::Model;
use std::rc::Rc;

/// When a frame is heard, and the number of its delivery in order of sending and then arc.
#[derive(Clone, Copy, PartialEq, Eq, PartialOrd, Ord)]
pub struct DeliveryOrder {
    pub moment: u64,
    pub number: u64,
}

/// The arc by which a frame comes, and the frame, which is kept and read once for all who hear it.
#[derive(Drop)]
pub struct FrameInFlight {
    pub arc: usize,
    pub frame: Rc<TypedFrame>,
}

/// A frame that is heard.
#[derive(Drop)]
pub struct ArrivedFrame {
    pub moment: u64,
    pub arc: usize,
    pub frame: Rc<TypedFrame>,
}

/// The frames in the air. Contracts see them in order of sending and then arc.
#[derive(Drop)]
pub struct FramesInAir {
    flights: BTreeMap<DeliveryOrder, FrameInFlight>,
    /// How many deliveries were put in the air so far.
    made: u64,
}

impl Model for FramesInAir {
    ghost use Rattle.std.specs.Prelude.{List};
    ghost use Rattle.mesh_machine.specs.Traffic.{Delivery};
    ghost use Rattle.mesh_radio.specs.Traffic.Flights.{in_order, AreNumberedBelow};

    ghost Value = { List Delivery };

    ghost view = { λ a. in_order a.flights.entries };

    ghost invariant = { λ a. AreNumberedBelow a.made a.flights.entries };
}

impl FramesInAir {
    /// Nothing.
    pub fn new(alloc: Global) -> FramesInAir
        ensures { result ≡ [] }
    {
        FramesInAir {
            flights: BTreeMap::new(alloc),
            made: 0,
        }
    }

    /// Puts a frame in the air behind all others. After 2^64 - 1 deliveries it gives up as if an allocation had failed, which
    /// leaves everything as it was.
    pub fn put(&mut self, moment: u64, arc: usize, frame: Rc<TypedFrame>) -> Result<(), AllocError>
        ensures { OnOk result (self.new ≡ self.old ++ record { moment = moment; arc = arc; frame = frame.value } ∷ []) }
    {
        let Some(made) = self.made.checked_add(1) else {
            return Err(AllocError);
        };
        let turn = DeliveryOrder {
            moment,
            number: self.made,
        };
        self.flights.insert(turn, FrameInFlight { arc, frame })?;
        self.made = made;
        Ok(())
    }

    /// Takes the frame that is heard first, if that is no later than a moment.
    pub fn take(&mut self, limit: u64) -> Option<ArrivedFrame>
        ensures first { MatchOption result (self.new ≡ self.old) (λ landed. IsHeardFirst self.old (delivery_of landed) self.new) }
        ensures limit { MatchOption result (All (λ d. limit < d.moment) self.old) (λ landed. landed.moment ≤ limit) }
    {
        let (turn, _) = self.flights.first_key_value()?;
        if turn.moment > limit {
            return None;
        }
        let (DeliveryOrder { moment, .. }, FrameInFlight { arc, frame }) = self
            .flights
            .pop_first()?;
        Some(ArrivedFrame { moment, arc, frame })
    }
}
