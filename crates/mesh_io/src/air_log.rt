//! What an air in memory keeps, in memory that it took before.
ghost use Rattle.std.specs.Prelude.{◌≡◌, ℕ, ◌+◌, ◌^◌, ◌≤◌, ◌<◌, [], ◌∷◌, ◌++◌, length, replicate, take, Some, IsTrue, IsSome, IfOk, IfSome, slice_index_or, slice_set, if◌then◌else◌};
ghost use Rattle.std.specs.Option.{option_copied};
ghost use Rattle.std.specs.Vec.{vec_capacity};
ghost use Rattle.mesh_atoms.specs.declared.limits.TheConstants.{LONGEST_DATAGRAM};
ghost use Rattle.mesh_io.specs.Airs.{FitsBuffer, report_of_ear};
ghost use Rattle.mesh_io.specs.Airs.Report.{Heard_fault};
ghost use Rattle.mesh_io.specs.MemAir.{ear_at, next_ear, told_ear, one_further, has_room_for_attach, has_room_for_ear, has_room_for_frame, with_attach, with_ear, with_frame, with_nothing_told};

use crate::air_room::{AirRoom, LoggedCall, MemEar};
use crate::{Ear, Sent};
use mesh_atoms::{Endpoint, Seq};
use std::alloc::{AllocError, Global};
use std::marker::Model;

/// Scripts of what is heard, and what was told of calls.
#[derive(Drop)]
pub(crate) struct AirLog {
    scripts: Seq<Seq<MemEar>>,
    places: Vec<usize>,
    attached: usize,
    entries: Vec<LoggedCall>,
    peers: Vec<Endpoint>,
    octets: Vec<u8>,
    left: AirRoom,
    told: bool,
}

impl Model for AirLog {
    ghost use Rattle.std.specs.Prelude.{length, map, Some, None, if◌then◌else◌};
    ghost use Rattle.std.specs.Vec.{vec_capacity};
    ghost use Rattle.mesh_io.specs.MemAir.{LogState, IsRoomy, report_of};

    ghost Value = { LogState };

    ghost view = { λ s. record {
      attached = s.attached;
      told = if s.told then Some (map (report_of s.scripts s.peers.items s.octets.items) s.entries.items) else None;
      scripts = s.scripts;
      places = s.places.items;
      left = s.left;
    } };

    ghost invariant = { λ s. IsRoomy s.entries.items (length s.peers.items) (length s.octets.items)
        (vec_capacity s.entries) (vec_capacity s.peers) (vec_capacity s.octets) s.attached s.left };
}

// Puts an entry where there is room.
fn put_entry(entries: &mut Vec<LoggedCall>, entry: LoggedCall)
    requires { length entries.old.items < vec_capacity entries.old }
    ensures items { entries.new.items ≡ entries.old.items ++ entry ∷ [] }
    ensures capacity { vec_capacity entries.old ≤ vec_capacity entries.new }
{
    let _ = entries.push(entry);
}

// Puts peers where there is room.
fn put_peers(store: &mut Vec<Endpoint>, peers: &[Endpoint])
    requires { length store.old.items + length peers.now ≤ vec_capacity store.old }
    ensures items { store.new.items ≡ store.old.items ++ peers.now }
    ensures capacity { vec_capacity store.old ≤ vec_capacity store.new }
{
    let _ = store.extend_from_slice(peers);
}

// Puts octets where there is room.
fn put_octets(store: &mut Vec<u8>, octets: &[u8])
    requires { length store.old.items + length octets.now ≤ vec_capacity store.old }
    ensures items { store.new.items ≡ store.old.items ++ octets.now }
    ensures capacity { vec_capacity store.old ≤ vec_capacity store.new }
{
    let _ = store.extend_from_slice(octets);
}

// The ear of a script at that place.
fn script_ear(scripts: &Seq<Seq<MemEar>>, iface: usize, place: usize) -> Option<&MemEar>
    ensures ear { option_copied result ≡ ear_at scripts.now iface place }
    ensures within { IsSome result → place + 1 < 2 ^ 64 }
{
    match scripts.get(iface) {
        Some(script) => {
            if script.len() <= place {
                return None;
            }
            script.get(place)
        }
        None => None,
    }
}

// Puts a frame at the buffer's start, of a longer one the first octets.
fn give_frame(bytes: &[u8], buf: &mut [u8]) -> usize
    requires { length buf.old ≡ LONGEST_DATAGRAM }
    ensures within { result ≤ length buf.new }
    ensures front { take result buf.new ≡ take LONGEST_DATAGRAM bytes.now }
    ensures longest { length buf.new ≡ LONGEST_DATAGRAM }
{
    let len = usize::min(bytes.len(), buf.len());
    buf[..len].copy_from_slice(&bytes[..len]);
    len
}

// Gives an ear: a frame at the buffer's start.
fn give(ear: Option<&MemEar>, buf: &mut [u8]) -> Ear
    requires { length buf.old ≡ LONGEST_DATAGRAM }
    ensures within { FitsBuffer buf.new result }
    ensures heard { (iface : ℕ) → report_of_ear iface buf.new result ≡ told_ear iface (option_copied ear.entry) }
    ensures longest { length buf.new ≡ LONGEST_DATAGRAM }
    ensures no_fault { result ≡ Ear.Failed → ⊥ }
{
    match ear {
        Some(MemEar::Frame { sender, bytes }) => Ear::Frame {
            len: give_frame(bytes.as_slice(), buf),
            sender: *sender,
        },
        Some(MemEar::Silence) => Ear::Silence,
        None => Ear::Silence,
    }
}

// For how many calls there is room, where so many can be counted.
fn calls_within(room: AirRoom) -> Option<usize>
    ensures { IfSome result (λ calls. calls ≡ room.attaches + room.ears + room.frames) }
{
    let calls = room.attaches.checked_add(room.ears)?;
    calls.checked_add(room.frames)
}

impl AirLog {
    /// Nothing told, with room for so much. Takes all the memory that it will need.
    pub fn new(
        alloc: Global,
        scripts: Seq<Seq<MemEar>>,
        room: AirRoom,
    ) -> Result<AirLog, AllocError>
        ensures { IfOk result (λ log. log ≡ record {
          attached = 0;
          told = Some [];
          scripts = scripts;
          places = replicate (length scripts) 0;
          left = room;
        }) }
    {
        let Some(most) = calls_within(room) else {
            return Err(AllocError);
        };
        let places = vec![in alloc; 0; scripts.len()]?;
        Ok(AirLog {
            scripts,
            places,
            attached: 0,
            entries: Vec::with_capacity(alloc, most)?,
            peers: Vec::with_capacity(alloc, room.peers)?,
            octets: Vec::with_capacity(alloc, room.octets)?,
            left: room,
            told: true,
        })
    }

    /// Whether there is room for an attach with so many peers.
    pub fn has_room_for_attach(&self, peers: usize) -> bool
        ensures { result ≡ has_room_for_attach self.now.left peers }
    {
        0 < self.left.attaches && peers <= self.left.peers
    }

    /// Whether there is room for an ear.
    pub fn has_room_for_ear(&self) -> bool
        ensures { result ≡ has_room_for_ear self.now.left }
    {
        0 < self.left.ears
    }

    /// Whether there is room for a frame of so many octets.
    pub fn has_room_for_frame(&self, octets: usize) -> bool
        ensures { result ≡ has_room_for_frame self.now.left octets }
    {
        0 < self.left.frames && octets <= self.left.octets
    }

    /// Nothing is told any more.
    pub fn tell_nothing(&mut self)
        ensures { self.new ≡ with_nothing_told self.old }
    {
        self.told = false;
    }

    /// Tells an attach, for which there is room.
    pub fn attach(&mut self, local: Endpoint, peers: &[Endpoint])
        requires attaches { 0 < self.old.left.attaches }
        requires peers { length peers.now ≤ self.old.left.peers }
        ensures { self.new ≡ with_attach self.old local peers.now }
    {
        let from = self.peers.len();
        let count = peers.len();
        put_peers(&mut self.peers, peers);
        put_entry(
            &mut self.entries,
            LoggedCall::Attached { local, from, count },
        );
        self.attached += 1;
        self.left.attaches -= 1;
        self.left.peers -= count;
    }

    /// Tells an ear that failed, for which there is room.
    pub fn fail(&mut self, iface: usize)
        requires { 0 < self.old.left.ears }
        ensures { self.new ≡ with_ear self.old (Heard_fault iface) self.old.places }
    {
        put_entry(&mut self.entries, LoggedCall::Fault { iface });
        self.left.ears -= 1;
    }

    /// Gives the next ear of an interface and tells it, for which there is room.
    pub fn hear(&mut self, iface: usize, buf: &mut [u8]) -> Ear
        requires ears { 0 < self.old.left.ears }
        requires longest { length buf.old ≡ LONGEST_DATAGRAM }
        ensures kept { self.new ≡ with_ear self.old (told_ear iface (next_ear self.old.scripts self.old.places iface))
            (one_further self.old.places iface (next_ear self.old.scripts self.old.places iface)) }
        ensures within { FitsBuffer buf.new result }
        ensures heard { report_of_ear iface buf.new result ≡ told_ear iface (next_ear self.old.scripts self.old.places iface) }
        ensures longest { length buf.new ≡ LONGEST_DATAGRAM }
        ensures no_fault { result ≡ Ear.Failed → ⊥ }
    {
        let place = place_of(self.places.as_slice(), iface);
        let ear = script_ear(&self.scripts, iface, place);
        let taken = ear.is_some();
        let answer = give(ear, buf);
        advance(self.places.as_mut_slice(), iface, place, taken);
        put_entry(&mut self.entries, LoggedCall::Heard { iface, place });
        self.left.ears -= 1;
        answer
    }

    /// Tells a frame and what is answered to it, for which there is room.
    pub fn send(&mut self, iface: usize, bytes: &[u8], answer: Sent)
        requires frames { 0 < self.old.left.frames }
        requires octets { length bytes.now ≤ self.old.left.octets }
        ensures { self.new ≡ with_frame self.old iface bytes.now answer }
    {
        let from = self.octets.len();
        let count = bytes.len();
        put_octets(&mut self.octets, bytes);
        put_entry(
            &mut self.entries,
            LoggedCall::Handed {
                iface,
                from,
                count,
                answer,
            },
        );
        self.left.frames -= 1;
        self.left.octets -= count;
    }
}

// How many ears of a script were taken.
fn place_of(places: &[usize], iface: usize) -> usize
    ensures { result ≡ slice_index_or places.now iface 0 }
{
    match places.get(iface) {
        Some(place) => *place,
        None => 0,
    }
}

// One more was taken, where one was.
fn advance(places: &mut [usize], iface: usize, place: usize, taken: bool)
    requires { IsTrue taken → place + 1 < 2 ^ 64 }
    ensures { places.new ≡ (if taken then slice_set places.old iface (place + 1) else places.old) }
{
    if taken && iface < places.len() {
        places[iface] = place + 1;
    }
}
