//! The Received Message Information Base of a router (RFC 7181, section 11).
ghost use Rattle.std.specs.Prelude.{◌≡◌, ◌≢◌, ◌<◌, ◌≤◌, ◌^◌, ◌↔◌, ◌⊎◌, ℕ, Bool, Option, [], length, IfOk, OnOk, IsTrue};
ghost use Rattle.mesh_atoms.specs.declared.addr.Addr4.{Addr4};
ghost use Rattle.mesh_atoms.specs.Base.{base_of, Expires, HasDistinctKeys, flood_eq};
ghost use Rattle.mesh_atoms.specs.declared.settings.RouterSettings.{RouterSettings};
ghost use Rattle.mesh_atoms.specs.Live.{LiveNoted};
ghost use Rattle.mesh_atoms.specs.Sound.{SoundNoted};
ghost use Rattle.mesh_flood.specs.Verdict.{process_of, forward_of, forward_by, is_full, key_of};
ghost use Rattle.mesh_flood.specs.Noting.{AfterNote, AreWithin};
ghost use Rattle.mesh_flood.specs.Standing.{HasKey, HasNoted, HasFullSet};

use crate::set::FloodSet;
use crate::verdict::{Forward, Heading, Process, Verdict};
use mesh_atoms::{Addr4, Base, FloodKey, Noted, RouterSettings, Times};
use mesh_expire::{Bases, Table};
use std::alloc::{AllocError, Global};
use std::marker::Model;

/// The received sets of a router's interfaces, its processed and its forwarded set (RFC 7181, section 11), and the times
/// for which their tuples are held. Moments are in ticks of 1/8192 s.
pub struct Flood<B: Bases> {
    times: Times,
    received: Vec<FloodSet<B::Received>>,
    processed: FloodSet<B::Processed>,
    forwarded: FloodSet<B::Forwarded>,
}

// By hand, so that no crate that lets go of one has to know its parts.
impl<B: Bases> Drop for Flood<B> {
    fn drop(self) {
        let Flood {
            times: _,
            received: _,
            processed: _,
            forwarded: _,
        } = self;
    }
}

impl<B: Bases> Model for Flood<B> {
    ghost use Rattle.mesh_flood.specs.Noting.{HeldSets, AreTables};

    ghost Value = { HeldSets };

    ghost view = { λ f. record { times = f.times; noted = record { received = f.received.items; processed = f.processed; forwarded = f.forwarded } } };

    ghost invariant = { λ f. AreTables (record { received = f.received.items; processed = f.processed; forwarded = f.forwarded }) };
}

impl<B: Bases> Flood<B> {
    /// Empty sets, one received set for each interface, and the hold times of the settings.
    pub fn new(alloc: Global, settings: &RouterSettings) -> Result<Flood<B>, AllocError>
        ensures times { IfOk result (λ flood. flood.times ≡ settings.now.times) }
        ensures interfaces { IfOk result (λ flood. length flood.noted.received ≡ length settings.now.interfaces) }
        ensures received { IfOk result (λ flood. (i : ℕ) → base_of flood.noted.received i ≡ []) }
        ensures processed { IfOk result (λ flood. flood.noted.processed ≡ []) }
        ensures forwarded { IfOk result (λ flood. flood.noted.forwarded ≡ []) }
        ensures sound { IfOk result (λ flood. (now : ℕ) → SoundNoted settings.now now flood.noted) }
    {
        Ok(Flood {
            times: settings.times,
            received: empty_sets(alloc, settings.interfaces.len())?,
            processed: FloodSet::new(alloc)?,
            forwarded: FloodSet::new(alloc)?,
        })
    }

    /// Whether a message that came in on the interface is processed and forwarded (RFC 7181, section 14). `own` is this
    /// router's originator, and `link` the selector flag of the symmetric link with the sender, where there is one. Answers
    /// by the tuples that the sets hold, also if they are expired. Takes no memory.
    pub fn judge(&self, iface: usize, own: Addr4, heading: &Heading, link: Option<bool>) -> Verdict
        requires { iface < length self.now.noted.received }
        ensures process { result.process ≡ process_of own heading.now self.now.noted }
        ensures forward { result.forward ≡ forward_of iface own heading.now link self.now.noted }
        ensures flooded { result.forward ≢ Forward.NotFlooded }
    {
        Verdict {
            process: process(&self.processed, own, heading),
            forward: forward(&self.received[iface], &self.forwarded, own, heading, link),
        }
    }

    /// Whether a received tuple of some interface, a processed or a forwarded tuple has the message's type, originator and
    /// sequence number, also one that is expired. Takes no memory.
    pub fn has_noted(&self, heading: &Heading) -> bool
        ensures { IsTrue result ↔ HasNoted self.now.noted (key_of heading.now) }
    {
        let key = heading.key();
        let received = has_one(&self.received, &key);
        is_any_true(
            received,
            self.processed.has_key(&key),
            self.forwarded.has_key(&key),
        )
    }

    /// Whether the received set of some interface, the processed or the forwarded set has 16,384 tuples. Takes no memory.
    pub fn is_full(&self) -> bool
        ensures { IsTrue result ↔ HasFullSet self.now.noted }
    {
        let received = has_full(&self.received);
        is_any_true(received, self.processed.is_full(), self.forwarded.is_full())
    }

    /// Makes the tuples of a message on which that verdict was given: until now plus the hold time of the set. `processed`
    /// says that the message was processed. After an allocation failure the value may only be dropped.
    pub fn note(
        &mut self,
        now: u64,
        iface: usize,
        heading: &Heading,
        verdict: &Verdict,
        processed: bool,
    ) -> Result<(), AllocError>
        requires iface { iface < length self.old.noted.received }
        requires now { now < 2 ^ 62 }
        requires judged { (own : Addr4) × (link : Option Bool) × (verdict.now.process ≡ process_of own heading.now self.old.noted)
            × (verdict.now.forward ≡ forward_of iface own heading.now link self.old.noted) }
        requires processed { IsTrue processed → verdict.now.process ≡ Process.Do }
        ensures ok { OnOk result (AfterNote self.old.times now iface heading.now processed verdict.now.forward self.old.noted self.new.noted) }
        ensures times { self.new.times ≡ self.old.times }
        ensures within { OnOk result (AreWithin self.old.noted → AreWithin self.new.noted) }
        // What is noted keeps what holds of the sets after every event.
        ensures sound { OnOk result ((settings : RouterSettings) → SoundNoted settings now self.old.noted → SoundNoted settings now self.new.noted) }
    {
        let key = heading.key();
        let times = self.times;
        self.processed
            .note(processed, key, now + times.processed_hold)?;
        self.received[iface].note(
            verdict.forward.is_received(),
            key,
            now + times.received_hold,
        )?;
        self.forwarded.note(
            verdict.forward.is_forwarded(),
            key,
            now + times.forwarded_hold,
        )
    }

    /// Takes out each tuple whose moment is at or below now. Takes no memory.
    pub fn expire(&mut self, now: u64)
        ensures live { LiveNoted now self.old.noted self.new.noted }
        ensures times { self.new.times ≡ self.old.times }
        ensures within { AreWithin self.old.noted → AreWithin self.new.noted }
        ensures sound { (settings : RouterSettings) (before : ℕ) → SoundNoted settings before self.old.noted → SoundNoted settings now self.new.noted }
    {
        expire_all(&mut self.received, now);
        self.processed.expire(now);
        self.forwarded.expire(now);
    }
}

// So many empty sets.
fn empty_sets<T: Table<FloodKey, Noted>>(
    alloc: Global,
    count: usize,
) -> Result<Vec<FloodSet<T>>, AllocError>
    ensures count { IfOk result (λ sets. length sets.items ≡ count) }
    ensures empty { IfOk result (λ sets. (i : ℕ) → base_of sets.items i ≡ []) }
{
    let mut sets = Vec::new(alloc);
    for _ in 0..count {
        sets.push(FloodSet::new(alloc)?)?;
    }
    Ok(sets)
}

// Whether one of these is true.
fn is_any_true(first: bool, second: bool, third: bool) -> bool
    ensures { IsTrue result ↔ (IsTrue first ⊎ (IsTrue second ⊎ IsTrue third)) }
{
    first || second || third
}

// Whether some set has a tuple of the key.
fn has_one<T: Table<FloodKey, Noted>>(sets: &[FloodSet<T>], key: &FloodKey) -> bool
    ensures { IsTrue result ↔ ((i : ℕ) × HasKey (base_of sets.now i) key.now) }
{
    for set in sets {
        if set.has_key(key) {
            return true;
        }
    }
    false
}

// Whether some set has 16,384 tuples.
fn has_full<T: Table<FloodKey, Noted>>(sets: &[FloodSet<T>]) -> bool
    ensures { IsTrue result ↔ ((i : ℕ) × IsTrue (is_full (base_of sets.now i))) }
{
    for set in sets {
        if set.is_full() {
            return true;
        }
    }
    false
}

// Takes out what is expired in each set.
fn expire_all<T: Table<FloodKey, Noted>>(sets: &mut Vec<FloodSet<T>>, now: u64)
    ensures count { length sets.new.items ≡ length sets.old.items }
    ensures kept { (i : ℕ) → Expires flood_eq now (base_of sets.old.items i) (base_of sets.new.items i) }
    ensures distinct { (i : ℕ) → HasDistinctKeys flood_eq (base_of sets.new.items i) }
    ensures fewer { (i : ℕ) → length (base_of sets.new.items i) ≤ length (base_of sets.old.items i) }
{
    for i in 0..sets.len() {
        sets[i].expire(now);
    }
}

// The answer on processing.
fn process<T: Table<FloodKey, Noted>>(
    processed: &FloodSet<T>,
    own: Addr4,
    heading: &Heading,
) -> Process
    ensures { result ≡ process_of own heading.now (record { received = []; processed = processed.now; forwarded = [] }) }
{
    if heading.originator == own {
        return Process::Own;
    }
    match processed.until(&heading.key()) {
        Some(until) => Process::Done { until },
        None if processed.is_full() => Process::Full,
        None => Process::Do,
    }
}

// The answer on forwarding.
fn forward<R: Table<FloodKey, Noted>, F: Table<FloodKey, Noted>>(
    received: &FloodSet<R>,
    forwarded: &FloodSet<F>,
    own: Addr4,
    heading: &Heading,
    link: Option<bool>,
) -> Forward
    ensures { result ≡ forward_by own heading.now link received.now forwarded.now }
{
    if heading.originator == own {
        return Forward::Own;
    }
    let Some(selector) = link else {
        return Forward::NoSender;
    };
    if heading.has_no_hops() {
        return Forward::NoHops;
    }
    let key = heading.key();
    if let Some(until) = received.until(&key) {
        return Forward::Seen { until };
    }
    if received.is_full() {
        return Forward::Full(Base::Received);
    }
    if let Some(until) = forwarded.until(&key) {
        return Forward::Done { until };
    }
    if !selector {
        Forward::NotSelector
    } else if forwarded.is_full() {
        Forward::Full(Base::Forwarded)
    } else {
        Forward::Do
    }
}
