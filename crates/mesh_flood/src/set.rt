//! One set of messages seen before: a Received Set, the Processed Set or the Forwarded Set (RFC 7181, section 11).
ghost use Rattle.std.specs.Prelude.{◌≡◌, ◌≤◌, ◌<◌, ◌↔◌, [], length, option_map, IfOk, OnOk, IsTrue, false};
ghost use Rattle.mesh_atoms.specs.Base.{HasDistinctKeys, Expires, find, flood_eq};
ghost use Rattle.mesh_flood.specs.Verdict.{is_full};
ghost use Rattle.mesh_flood.specs.Noting.{Notes};
ghost use Rattle.mesh_flood.specs.Standing.{HasKey};

use mesh_atoms::{FloodKey, MOST_TUPLES, Noted};
use mesh_expire::Table;
use std::alloc::{AllocError, Global};
use std::marker::Model;

/// A received, processed or forwarded set (RFC 7181, section 11).
#[derive(Drop)]
pub struct FloodSet<T: Table<FloodKey, Noted>> {
    table: T,
}

impl<T: Table<FloodKey, Noted>> Model for FloodSet<T> {
    ghost use Rattle.mesh_atoms.specs.declared.tuples.FloodKey.{FloodKey};
    ghost use Rattle.mesh_atoms.specs.declared.tuples.Noted.{Noted};
    ghost use Rattle.mesh_atoms.specs.Base.{Base};

    ghost Value = { Base FloodKey Noted };

    ghost view = { λ s. T.content s.table };
}

impl<T: Table<FloodKey, Noted>> FloodSet<T> {
    /// An empty set.
    pub fn new(alloc: Global) -> Result<FloodSet<T>, AllocError>
        ensures { IfOk result (λ set. set ≡ []) }
    {
        Ok(FloodSet {
            table: T::new(alloc)?,
        })
    }

    /// The moment of the tuple with that key.
    pub fn until(&self, key: &FloodKey) -> Option<u64>
        ensures { result ≡ option_map (λ e. e.1) (find flood_eq self.now key.now) }
    {
        match self.table.get(key) {
            Some((_, until)) => Some(until),
            None => None,
        }
    }

    /// Whether there is a tuple with that key.
    pub fn has_key(&self, key: &FloodKey) -> bool
        ensures { IsTrue result ↔ HasKey self.now key.now }
    {
        match self.table.get(key) {
            Some(_) => true,
            None => false,
        }
    }

    /// Whether the set has 16,384 tuples.
    pub fn is_full(&self) -> bool
        ensures { result ≡ is_full self.now }
    {
        self.table.len() >= MOST_TUPLES
    }

    /// Where `wanted`, makes the tuple with that key until the moment.
    pub fn note(&mut self, wanted: bool, key: FloodKey, until: u64) -> Result<(), AllocError>
        ensures ok { OnOk result (Notes wanted key until self.old self.new) }
        ensures distinct { HasDistinctKeys flood_eq self.old → HasDistinctKeys flood_eq self.new }
        ensures room { (IsTrue wanted → is_full self.old ≡ false) → length self.old ≤ MOST_TUPLES → OnOk result (length self.new ≤ MOST_TUPLES) }
    {
        if wanted {
            self.table.put(key, Noted {}, until)
        } else {
            Ok(())
        }
    }

    /// Takes out each tuple whose moment is at or below now.
    pub fn expire(&mut self, now: u64)
        ensures kept { Expires flood_eq now self.old self.new }
        ensures fewer { length self.new ≤ length self.old }
        ensures distinct { HasDistinctKeys flood_eq self.new }
    {
        self.table.expire(now);
    }
}
