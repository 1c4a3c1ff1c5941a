//! The moments of a table, in order, and at each a bucket of the keys whose entries end at it.
ghost use Rattle.std.specs.Prelude.{◌≡◌, ◌≤◌, ◌<◌, ℕ, ◌-◌, [], ◌∷◌, ◌++◌, false, IfSome, IfNone, OnOk, OnErr, IsTrue, Some, ◌+◌, length, drop, take, slice_get};
ghost use Rattle.std.specs.BTreeMap.{IsUnchanged};
ghost use Rattle.mesh_expire.specs.Index.Moments.{once_if, times_in, times_at, PutsAt, TakesAt, SetsMoment};

use crate::Key;
use std::alloc::{AllocError, Global};
use std::collections::{BTreeMap, VecDeque};
use std::marker::Model;

/// The keys of the entries that end at one moment: one at least, in a ring, in the order in which they came.
#[derive(Drop)]
pub struct Bucket<K> {
    first: K,
    // Takes no memory while it is empty.
    rest: VecDeque<K>,
}

impl<K> Model for Bucket<K> {
    ghost use Rattle.std.specs.Prelude.{List, ◌∷◌};

    ghost Value = { List K };

    ghost view = { λ b. b.first ∷ b.rest.items };
}

// The place of a key, which is looked for from the front.
fn place_of<K: Key>(keys: &VecDeque<K>, key: &K) -> Option<usize>
    ensures some { IfSome result (λ i. slice_get keys.now.items i ≡ Some key.now) }
    ensures none { IfNone result (times_in K.eq keys.now.items key.now ≡ 0) }
{
    for i in 0..keys.len() {
        if keys[i] == *key {
            return Some(i);
        }
    }
    None
}

// Takes the key at a place out, and turns the ring so that the key behind it is the next in front: keys mostly go in the order in which they
// came.
fn take_at<K: Drop>(keys: &mut VecDeque<K>, place: usize)
    requires { place < length keys.old.items }
    ensures { keys.new.items ≡ drop (place + 1) keys.old.items ++ take place keys.old.items }
{
    keys.rotate_left(place);
    keys.pop_front();
}

impl<K: Key + Drop> Bucket<K> {
    fn new(alloc: Global, key: K) -> Bucket<K>
        ensures { result ≡ key ∷ [] }
    {
        Bucket {
            first: key,
            rest: VecDeque::new(alloc),
        }
    }

    fn first(&self) -> K
        ensures { slice_get self.now 0 ≡ Some result }
    {
        self.first
    }

    // Whether its first key is its only one.
    fn has_one(&self) -> bool
        ensures { IsTrue result → length self.now ≡ 1 }
    {
        self.rest.is_empty()
    }

    fn push(&mut self, key: K) -> Result<(), AllocError>
        ensures ok { OnOk result (self.new ≡ self.old ++ key ∷ []) }
        ensures err { OnErr result (self.new ≡ self.old) }
    {
        self.rest.push_back(key)?;
        Ok(())
    }

    // Takes a key out, where it stands; true, and it stays, where it is the only one.
    fn take_out(&mut self, key: &K) -> bool
        ensures only { IsTrue result → self.old ≡ key.now ∷ [] }
        ensures left { result ≡ false → (q : K) → times_in K.eq self.new q ≡ times_in K.eq self.old q - once_if (K.eq key.now q) }
    {
        if self.first == *key {
            let Some(next) = self.rest.pop_front() else {
                return true;
            };
            self.first = next;
            return false;
        }
        if let Some(place) = place_of(&self.rest, key) {
            take_at(&mut self.rest, place);
        }
        false
    }
}

/// Puts a key at a moment, behind those that stand there.
pub fn put_key<K: Key + Drop>(
    moments: &mut BTreeMap<u64, Bucket<K>>,
    alloc: Global,
    moment: u64,
    key: K,
) -> Result<(), AllocError>
    ensures ok { OnOk result (PutsAt K.eq moments.old moments.new moment key) }
    ensures err { OnErr result (IsUnchanged moments.old moments.new) }
{
    if let Some(bucket) = moments.get_mut(&moment) {
        return bucket.push(key);
    }
    moments.insert(moment, Bucket::new(alloc, key))?;
    Ok(())
}

/// Takes a key out of a moment, where it stands there.
pub fn take_key<K: Key + Drop>(moments: &mut BTreeMap<u64, Bucket<K>>, moment: u64, key: &K)
    ensures { TakesAt K.eq moments.old moments.new moment key.now }
{
    let Some(bucket) = moments.get_mut(&moment) else {
        return;
    };
    if bucket.take_out(key) {
        moments.remove(&moment);
    }
}

/// Takes out the key that ends first, where its moment is at or below now.
pub fn take_expired<K: Key + Drop>(moments: &mut BTreeMap<u64, Bucket<K>>, now: u64) -> Option<K>
    ensures some { IfSome result (λ key. (moment : ℕ) × (moment ≤ now) × (0 < times_at K.eq moments.old moment key)
        × TakesAt K.eq moments.old moments.new moment key) }
    ensures none { IfNone result (IsUnchanged moments.old moments.new) }
    ensures rest { IfNone result ((moment : ℕ) (key : K) → 0 < times_at K.eq moments.old moment key → now < moment) }
{
    let (moment, bucket) = moments.first_key_value()?;
    let least = *moment;
    if now < least {
        return None;
    }
    let key = bucket.first();
    if bucket.has_one() {
        moments.remove(&least);
        return Some(key);
    }
    take_key(moments, least, &key);
    Some(key)
}

/// Gives a key a moment in place of the one that it had; the same one changes nothing.
pub fn move_moment<K: Key + Drop>(
    moments: &mut BTreeMap<u64, Bucket<K>>,
    alloc: Global,
    key: K,
    before: Option<u64>,
    until: u64,
) -> Result<(), AllocError>
    requires { SetsMoment K.eq moments.old moments.old key before }
    ensures ok { OnOk result (SetsMoment K.eq moments.old moments.new key (Some until)) }
    ensures err { OnErr result (IsUnchanged moments.old moments.new) }
{
    let Some(moment) = before else {
        return put_key(moments, alloc, until, key);
    };
    if moment == until {
        return Ok(());
    }
    put_key(moments, alloc, until, key)?;
    take_key(moments, moment, &key);
    Ok(())
}
