//! The same 2,000 calls on a plain list and on another table, drawn from words of ChaCha20.
use mesh_atoms::Addr4;
use mesh_expire::{IndexTable, ListTable, PlacedTable, SweptTable, Table};
use rand_chacha::ChaCha20Rng;
use rand_core::SeedableRng;
use rand_core::utils::NextWord;
use std::alloc::{AllocError, Global};
use std::test::Fail;

/// What a call answers.
#[derive(Clone, Copy, PartialEq, Eq)]
enum Reply {
    Put,
    Renewed(Option<u64>),
    Removed(bool),
    Set(bool),
    Written(Option<u64>),
    Expired(usize),
}

/// A call that a word picks, at one of 32 keys and one of 64 moments, with a value.
#[derive(Clone, Copy)]
struct Draw {
    kind: u32,
    key: Addr4,
    moment: u64,
    value: u64,
}

fn draw_of(word: u32, value: u64) -> Draw {
    Draw {
        kind: word % 7,
        key: Addr4(word / 7 % 32),
        moment: u64::from(word / 224 % 64),
        value,
    }
}

/// Takes out the entry of a key by its place.
fn remove_by_place<T: PlacedTable<Addr4, u64>>(table: &mut T, key: Addr4) -> bool {
    for place in 0..table.len() {
        let is_there = match table.at(place) {
            Some((other, _, _)) => *other == key,
            None => false,
        };
        if is_there {
            return table.remove_at(place);
        }
    }
    false
}

/// Writes a value where the key is there, and gives the one before.
fn write<T: Table<Addr4, u64>>(table: &mut T, key: &Addr4, value: u64) -> Option<u64> {
    match table.value_mut(key) {
        Some(place) => {
            let old = *place;
            *place = value;
            Some(old)
        }
        None => None,
    }
}

fn call<T: PlacedTable<Addr4, u64>>(table: &mut T, draw: Draw) -> Result<Reply, AllocError> {
    match draw.kind {
        0 => {
            table.put(draw.key, draw.value, draw.moment)?;
            Ok(Reply::Put)
        }
        1 => Ok(Reply::Renewed(table.renew(&draw.key, draw.value, draw.moment)?)),
        2 => Ok(Reply::Removed(table.remove(&draw.key))),
        3 => Ok(Reply::Removed(remove_by_place(table, draw.key))),
        4 => Ok(Reply::Set(table.set_until(&draw.key, draw.moment)?)),
        5 => Ok(Reply::Written(write(table, &draw.key, draw.value))),
        _ => Ok(Reply::Expired(table.expire(draw.moment))),
    }
}

/// The value and the moment of a key.
fn entry_of<T: Table<Addr4, u64>>(table: &T, key: u32) -> Option<(u64, u64)> {
    match table.get(&Addr4(key)) {
        Some((value, until)) => Some((*value, until)),
        None => None,
    }
}

/// Whether both have the same entries at all keys that are drawn.
fn are_alike<S: Table<Addr4, u64>, T: Table<Addr4, u64>>(one: &S, other: &T) -> bool {
    for key in 0..32 {
        if entry_of(one, key) != entry_of(other, key) {
            return false;
        }
    }
    one.len() == other.len()
}

/// Whether the entry at each place is the one that its key has.
fn has_its_places<T: Table<Addr4, u64>>(table: &T) -> bool {
    for place in 0..table.len() {
        let Some((key, value, until)) = table.at(place) else {
            return false;
        };
        if entry_of(table, key.0) != Some((*value, until)) {
            return false;
        }
    }
    true
}

/// Makes a call on both, and says whether they answer alike and are alike then.
fn stay_alike<S: PlacedTable<Addr4, u64>, T: PlacedTable<Addr4, u64>>(
    one: &mut S,
    other: &mut T,
    draw: Draw,
) -> Result<bool, AllocError> {
    Ok(
        call(one, draw)? == call(other, draw)?
            && are_alike(one, other)
            && has_its_places(one)
            && has_its_places(other),
    )
}

/// The same of so many calls, each by the next word.
fn stay_alike_long<S: PlacedTable<Addr4, u64>, T: PlacedTable<Addr4, u64>>(
    one: &mut S,
    other: &mut T,
    words: &mut ChaCha20Rng,
    calls: u64,
) -> Result<bool, AllocError> {
    for value in 0..calls {
        if !stay_alike(one, other, draw_of(words.next_word(), value))? {
            return Ok(false);
        }
    }
    Ok(true)
}

/// A table and a list.
fn stays_like_a_list<T: PlacedTable<Addr4, u64>>(alloc: Global) -> Result<bool, AllocError> {
    let mut list = ListTable::<Addr4, u64>::new(alloc)?;
    let mut table = T::new(alloc)?;
    let mut words = ChaCha20Rng::from_seed([0; 32]);
    stay_alike_long(&mut list, &mut table, &mut words, 2000)
}

/// The first word of the key of zeros (RFC 7539, appendix A.1).
fn begins_right() -> bool {
    ChaCha20Rng::from_seed([0; 32]).next_word() == 0xade0_b876
}

#[test]
fn tables_answer_alike(rt: HostRuntime) -> Result<(), Fail> {
    assert!(rt; begins_right());
    assert!(rt; stays_like_a_list::<IndexTable<Addr4, u64>>(rt.alloc())?);
    assert!(rt; stays_like_a_list::<SweptTable<Addr4, u64>>(rt.alloc())?);
    Ok(())
}
