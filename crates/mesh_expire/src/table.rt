//! What a table is.
ghost use Rattle.std.specs.Prelude.{◌≡◌, ◌+◌, ◌<◌, ℕ, [], length, swap_remove, true, false, if◌then◌else◌, is_some, IfOk, OnOk, OnErr, IfSome, IfNone, IsTrue, IsSome, ◌↔◌, slice_get, option_map, Some, None};
ghost use Rattle.std.specs.Option.{option_copied_mut};
ghost use Rattle.std.specs.Borrow.{sem};
ghost use Rattle.mesh_atoms.specs.Base.{Base, HasDistinctKeys, find, SetsOnly, Expires, IsFresh};
ghost use Rattle.mesh_expire.specs.Table.{entry_of, value_of, changed_at, TakesExpired, LendsValue};

use std::alloc::{AllocError, Global};

/// A key that `==` tells from every other.
pub trait Key: Eq + Copy {
    ghost exact: { (a b : Self) → Self.eq a b ≡ true → a ≡ b };
}

/// Tuples that expire: entries of a key, a record and a moment in ticks of 1/8192 s, no key twice. Their order has no
/// meaning.
pub trait Table<K: Key, V>: Sized + Drop {
    ghost content: { Self → Base K V };

    /// No entries.
    fn new(alloc: Global) -> Result<Self, AllocError>
        ensures { IfOk result (λ table. content table ≡ []) };

    /// How many entries there are.
    fn len(&self) -> usize
        ensures value { result ≡ length (content self.now) }
        ensures distinct { HasDistinctKeys K.eq (content self.now) };

    /// The entry at a place, counted from 0; `None` from the length on. An entry stays at its place up to the next `put`,
    /// `remove`, `expire` or `expire_next`.
    fn at(&self, place: usize) -> Option<(&K, &V, u64)>
        ensures { entry_of result ≡ slice_get (content self.now) place };

    /// The record and the moment of a key; `None` where the key isn't there.
    fn get(&self, key: &K) -> Option<(&V, u64)>
        ensures { value_of result ≡ find K.eq (content self.now) key.now };

    /// Makes the entry of a key, in place of the one that the key had. An allocation failure leaves the table unchanged, and drops
    /// the record.
    fn put(&mut self, key: K, value: V, until: u64) -> Result<(), AllocError>
        ensures ok { OnOk result (SetsOnly K.eq (content self.old) (content self.new) key (Some (value, until))) }
        ensures count { OnOk result (length (content self.new)
            ≡ length (content self.old) + (if is_some (find K.eq (content self.old) key) then 0 else 1)) }
        ensures err { OnErr result (content self.new ≡ content self.old) }
        ensures distinct { HasDistinctKeys K.eq (content self.new) };

    /// Gives the entry of a key a record and a moment, and gives back its record before; `None`, changing nothing, where the key isn't
    /// there. No entry comes to another place. An allocation failure leaves the table unchanged.
    fn renew(&mut self, key: &K, value: V, until: u64) -> Result<Option<V>, AllocError>
        ensures before { IfOk result (λ before. before ≡ option_map (λ e. e.0) (find K.eq (content self.old) key.now)) }
        ensures ok { OnOk result (content self.new ≡ changed_at K.eq (content self.old) key.now (λ _. (value, until))) }
        ensures err { OnErr result (content self.new ≡ content self.old) }
        ensures distinct { HasDistinctKeys K.eq (content self.new) };

    /// Takes out the entry of a key; false, changing nothing, where the key isn't there. Takes no memory.
    fn remove(&mut self, key: &K) -> bool
        ensures found { IsTrue result ↔ IsSome (find K.eq (content self.old) key.now) }
        ensures removed { SetsOnly K.eq (content self.old) (content self.new) key.now None }
        ensures unchanged { result ≡ false → content self.new ≡ content self.old }
        ensures count { length (content self.new) + (if result then 1 else 0) ≡ length (content self.old) }
        ensures distinct { HasDistinctKeys K.eq (content self.new) };

    /// Takes out each entry whose moment is at or below now, and gives their number; where there is none, no entry comes to
    /// another place. Takes no memory.
    fn expire(&mut self, now: u64) -> usize
        ensures kept { Expires K.eq now (content self.old) (content self.new) }
        ensures count { result + length (content self.new) ≡ length (content self.old) }
        ensures none { result ≡ 0 → content self.new ≡ content self.old }
        ensures distinct { HasDistinctKeys K.eq (content self.new) };

    /// Takes out one entry whose moment is at or below now, and gives its key and its record; `None`, changing nothing,
    /// where there is none. Takes no memory.
    fn expire_next(&mut self, now: u64) -> Option<(K, V)>
        ensures some { IfSome result (λ e. TakesExpired K.eq now e.0 e.1 (content self.old) (content self.new)) }
        ensures none { IfNone result (content self.new ≡ content self.old) }
        ensures fresh { IfNone result (IsFresh K.eq now (content self.old)) }
        ensures count { length (content self.new) + (if is_some result then 1 else 0) ≡ length (content self.old) }
        ensures distinct { HasDistinctKeys K.eq (content self.new) };

    /// The record of a key, to be written; `None` where the key isn't there. No entry comes to another place. Takes no
    /// memory.
    fn value_mut(&mut self, key: &K) -> Option<&mut V>
        ensures* lends { sem 𝓛 (LendsValue Self.row V.row content K.eq key.now self.entry result) }
        ensures value { option_copied_mut result ≡ option_map (λ e. e.0) (find K.eq (content self.old) key.now) }
        ensures distinct { HasDistinctKeys K.eq (content self.old) };

    /// Sets the moment of a key; false, changing nothing, where the key isn't there. No entry comes to another place. Want
    /// of memory leaves the table unchanged.
    fn set_until(&mut self, key: &K, until: u64) -> Result<bool, AllocError>
        ensures found { IfOk result (λ was_there. IsTrue was_there ↔ IsSome (find K.eq (content self.old) key.now)) }
        ensures ok { OnOk result (content self.new ≡ changed_at K.eq (content self.old) key.now (λ e. (e.0, until))) }
        ensures err { OnErr result (content self.new ≡ content self.old) }
        ensures distinct { HasDistinctKeys K.eq (content self.new) };
}

/// A table whose entries can be taken out by their place.
pub trait PlacedTable<K: Key, V>: Table<K, V> {
    /// Takes out the entry at a place, and the last entry comes to its place; false, changing nothing, from the length on. No
    /// other entry comes to another place. Takes no memory.
    fn remove_at(&mut self, place: usize) -> bool
        ensures found { IsTrue result ↔ (place < length (Self.content self.old)) }
        ensures removed { (e : K × (V × ℕ)) → slice_get (Self.content self.old) place ≡ Some e
            → Self.content self.new ≡ swap_remove (Self.content self.old) place e }
        ensures unchanged { result ≡ false → Self.content self.new ≡ Self.content self.old }
        ensures distinct { HasDistinctKeys K.eq (Self.content self.new) };
}
