//! The taking of a TC (RFC 7181, section 16.3.3).
ghost use Rattle.std.specs.Prelude.{◌≡◌, ◌+◌, ◌<◌, ◌≤◌, ◌^◌, ℕ, length, count_by, is_some, nat_lt, false, IfSome, IfNone, IfOk, OnOk};
ghost use Rattle.mesh_atoms.specs.Base.{find, addr_eq};
ghost use Rattle.mesh_atoms.specs.Codes.Codes.{Newer};
ghost use Rattle.mesh_atoms.specs.AfterTc.{TakesTc, first_overfull};
ghost use Rattle.mesh_topo.specs.Answers.{answer_of};
ghost use Rattle.mesh_topo.specs.Same.{SameAdvertised};
ghost use Rattle.mesh_topo.specs.Sets.{AreFew, KeepsNewer, sets_of};
ghost use Rattle.mesh_topo.specs.TcSets.Tuples.{given};
ghost use Rattle.mesh_topo.specs.Tuples.{HasHosts};

use crate::tc_sets::{KeyedSet, TopologyTuple};
use crate::topology::TcTaken;
use mesh_atoms::{
    Addr4, AddressKey, AddressTuple, Advertiser, Base, MOST_TUPLES, NetworkKey, NetworkTuple,
    RouterKey, RouterTuple, Tc, seq_newer,
};
use mesh_expire::Table;
use std::alloc::AllocError;

/// Takes a TC into the four sets; what came of it, and whether what is advertised may have changed. `Old` and `Full` change
/// nothing.
pub(crate) fn take<
    A: Table<Addr4, Advertiser>,
    R: Table<RouterKey, RouterTuple>,
    D: Table<AddressKey, AddressTuple>,
    N: Table<NetworkKey, NetworkTuple>,
>(
    advertisers: &mut A,
    routers: &mut KeyedSet<RouterKey, RouterTuple, R>,
    addresses: &mut KeyedSet<AddressKey, AddressTuple, D>,
    networks: &mut KeyedSet<NetworkKey, NetworkTuple, N>,
    now: u64,
    tc: &Tc,
) -> Result<(TcTaken, bool), AllocError>
    requires now { now < 2 ^ 62 }
    requires validity { tc.now.validity < 2 ^ 62 }
    requires hosts { HasHosts tc.now }
    ensures ok { IfOk result (λ answer. TakesTc now tc.now
        (sets_of (A.content advertisers.old) routers.old addresses.old networks.old)
        (sets_of (A.content advertisers.new) routers.new addresses.new networks.new)
        (answer_of answer.0)) }
    ensures same { IfOk result (λ answer. answer.1 ≡ false → SameAdvertised
        (sets_of (A.content advertisers.old) routers.old addresses.old networks.old)
        (sets_of (A.content advertisers.new) routers.new addresses.new networks.new)) }
    ensures within { OnOk result (AreFew (sets_of (A.content advertisers.old) routers.old addresses.old networks.old)
        → AreFew (sets_of (A.content advertisers.new) routers.new addresses.new networks.new)) }
{
    if let Some(kept) = newer_kept(advertisers, tc) {
        return Ok((TcTaken::Old { kept }, false));
    }
    if let Some(base) = first_full(advertisers, routers, addresses, networks, tc) {
        return Ok((TcTaken::Full(base), false));
    }
    let until = now + tc.validity;
    advertisers.put(tc.originator, Advertiser { ansn: tc.ansn }, until)?;
    let mut changed = routers.take_rows(tc, until)?;
    changed |= addresses.take_rows(tc, until)?;
    changed |= networks.take_rows(tc, until)?;
    Ok((TcTaken::Done, changed))
}

// The number that is kept of the TC's originator, if it is newer than the TC's.
fn newer_kept<A: Table<Addr4, Advertiser>>(advertisers: &A, tc: &Tc) -> Option<u16>
    ensures some { IfSome result (KeepsNewer (A.content advertisers.now) tc.now) }
    ensures none { IfNone result ((kept : ℕ) → KeepsNewer (A.content advertisers.now) tc.now kept → ⊥) }
{
    let (advertiser, _) = advertisers.get(&tc.originator)?;
    if seq_newer(advertiser.ansn, tc.ansn) {
        Some(advertiser.ansn)
    } else {
        None
    }
}

// Whether the tuples of a set and the rows for it are more than 16,384.
fn is_overfull(held: usize, rows: usize) -> bool
    ensures { result ≡ nat_lt MOST_TUPLES (held + rows) }
{
    held > MOST_TUPLES || rows > MOST_TUPLES - held
}

// How many rows of the TC give a tuple.
fn count_given<K: Ord + Drop, V: TopologyTuple<K>>(tc: &Tc) -> usize
    ensures value { result ≡ count_by (λ row. is_some (given V.kind tc.now.originator tc.now.ansn row)) tc.now.rows }
{
    let mut count = 0;
    for row in tc.rows.as_slice() {
        if V::given_by(tc.originator, tc.ansn, row).is_some() {
            count += 1;
        }
    }
    count
}

// The first of the sets that would be too large with the TC's rows.
fn first_full<
    A: Table<Addr4, Advertiser>,
    R: Table<RouterKey, RouterTuple>,
    D: Table<AddressKey, AddressTuple>,
    N: Table<NetworkKey, NetworkTuple>,
>(
    advertisers: &A,
    routers: &KeyedSet<RouterKey, RouterTuple, R>,
    addresses: &KeyedSet<AddressKey, AddressTuple, D>,
    networks: &KeyedSet<NetworkKey, NetworkTuple, N>,
    tc: &Tc,
) -> Option<Base>
    ensures { result ≡ first_overfull
        (sets_of (A.content advertisers.now) routers.now addresses.now networks.now) tc.now }
{
    if is_overfull(advertisers.len(), 1) {
        return Some(Base::Advertisers);
    }
    if is_overfull(routers.len(), count_given::<RouterKey, RouterTuple>(tc)) {
        return Some(Base::Routers);
    }
    if is_overfull(addresses.len(), count_given::<AddressKey, AddressTuple>(tc)) {
        return Some(Base::Addresses);
    }
    if is_overfull(networks.len(), count_given::<NetworkKey, NetworkTuple>(tc)) {
        return Some(Base::Networks);
    }
    None
}
