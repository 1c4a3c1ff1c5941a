//! The taking of a HELLO (RFC 6130, section 12, and RFC 7181, section 15.3).
ghost use Rattle.std.specs.Prelude.{◌≡◌, ◌<◌, ◌^◌, false, length, IfOk, OnOk};
ghost use Rattle.mesh_atoms.specs.TakesHello.{HelloAnswer, TakesHello};
ghost use Rattle.mesh_atoms.specs.Sound.{SoundNeighbourhood};
ghost use Rattle.mesh_nbrs.specs.Same.{SameNear};
ghost use Rattle.mesh_hello.specs.Told.Telling.{AreOwnAddresses};
ghost use Rattle.mesh_nhdp.specs.Judged.{CanTakeHello, IsAnswer};

use crate::hearing::{HelloReceipt, hear};
use crate::judge::{HelloArrival, HelloCheck, judge};
use crate::nhdp::Nhdp;
use crate::repeating::is_repeated;
use crate::sets::NeighbourhoodSets;
use mesh_atoms::{Addr4, Base, Hello, RouterSettings};
use mesh_expire::Bases;
use std::alloc::AllocError;

/// What became of a HELLO: it was taken, it broke the rule of that number (RFC 6130, section 12.1), or a base would have been
/// full.
#[derive(Clone, Copy, PartialEq, Eq)]
pub enum HelloTaken {
    Done,
    Broken(u8),
    Full(Base),
}

impl<B: Bases> Nhdp<B> {
    /// Takes in a HELLO from that sender on an interface, at a moment below 2^62 at which nothing is expired; its validity is
    /// above 0 and below 2^62 (RFC 6130, section 12, and RFC 7181, section 15.3). One that is refused or too much changes
    /// nothing. After an allocation failure the neighbourhood may only be dropped. Looks the addresses that it lists up, and then at
    /// the neighbours, the links and the tuples of those alone that it speaks of, but where about 1,024 addresses are held: then
    /// it goes over all neighbours and lost addresses to count them. Each row is looked for among the addresses that it lists.
    pub fn take_hello(
        &mut self,
        now: u64,
        iface: usize,
        sender: Addr4,
        hello: &Hello,
    ) -> Result<HelloTaken, AllocError>
        requires now { now < 2 ^ 62 }
        requires iface { iface < length self.old.settings.interfaces }
        requires lasts { 0 < hello.now.validity }
        requires validity { hello.now.validity < 2 ^ 62 }
        requires sound { SoundNeighbourhood self.old.settings now self.old.near }
        ensures ok { IfOk result (λ taken. (answer : HelloAnswer) × IsAnswer taken answer × TakesHello self.old.settings now iface sender hello.now self.old.near self.new.near answer) }
        ensures sound { OnOk result (SoundNeighbourhood self.new.settings now self.new.near) }
        ensures settings { self.new.settings ≡ self.old.settings }
    {
        let (taken, _) = self.take_and_tell(now, iface, sender, hello)?;
        Ok(taken)
    }

    /// The same as `take_hello`; and `false` only if the same neighbours and 2-hop tuples stand as before, whatever their moments, and the
    /// same SYMMETRIC links lead to neighbours at the same known metrics. `true` promises nothing.
    pub fn take_and_tell(
        &mut self,
        now: u64,
        iface: usize,
        sender: Addr4,
        hello: &Hello,
    ) -> Result<(HelloTaken, bool), AllocError>
        requires now { now < 2 ^ 62 }
        requires iface { iface < length self.old.settings.interfaces }
        requires lasts { 0 < hello.now.validity }
        requires validity { hello.now.validity < 2 ^ 62 }
        requires sound { SoundNeighbourhood self.old.settings now self.old.near }
        ensures ok { IfOk result (λ told. (answer : HelloAnswer) × IsAnswer told.0 answer × TakesHello self.old.settings now iface sender hello.now self.old.near self.new.near answer) }
        ensures same { IfOk result (λ told. told.1 ≡ false → SameNear self.old.near now self.new.near now) }
        ensures sound { OnOk result (SoundNeighbourhood self.new.settings now self.new.near) }
        ensures settings { self.new.settings ≡ self.old.settings }
    {
        let arrival = HelloArrival {
            moment: now,
            iface,
            sender,
            hello,
            own: self.own.as_slice(),
        };
        take_in(&self.settings, &arrival, &mut self.sets)
    }
}

/// Takes in a HELLO, as `take_and_tell` does.
fn take_in<B: Bases>(
    settings: &RouterSettings,
    arrival: &HelloArrival,
    sets: &mut NeighbourhoodSets<B>,
) -> Result<(HelloTaken, bool), AllocError>
    requires ready { CanTakeHello settings.now arrival.now.moment arrival.now.iface arrival.now.hello.now }
    requires own { AreOwnAddresses settings.now arrival.now.own.now }
    requires sound { SoundNeighbourhood settings.now arrival.now.moment sets.old }
    ensures ok { IfOk result (λ told. (answer : HelloAnswer) × IsAnswer told.0 answer ×
        TakesHello settings.now arrival.now.moment arrival.now.iface arrival.now.sender arrival.now.hello.now
        sets.old sets.new answer) }
    ensures same { IfOk result (λ told. told.1 ≡ false → SameNear sets.old arrival.now.moment
        sets.new arrival.now.moment) }
    ensures sound { OnOk result (SoundNeighbourhood settings.now arrival.now.moment sets.new) }
{
    match judge(settings, sets, arrival)? {
        HelloCheck::Breaks(number) => Ok((HelloTaken::Broken(number), false)),
        HelloCheck::Overfills(base) => Ok((HelloTaken::Full(base), false)),
        HelloCheck::Fits(telling) => {
            let receipt = HelloReceipt {
                moment: arrival.moment,
                iface: arrival.iface,
                hello: arrival.hello,
                own: arrival.own,
                telling: &telling,
            };
            let repeated = is_repeated(arrival.moment, arrival.iface, &telling, sets);
            let rows = hear(settings, &receipt, sets)?;
            Ok((HelloTaken::Done, !(repeated & rows)))
        }
    }
}
