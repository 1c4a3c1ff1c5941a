//! Expiry where nothing becomes of links (RFC 6130, section 13).
ghost use Rattle.std.specs.Prelude.{◌≡◌, ◌↔◌, ◌<◌, ◌^◌, ◌&&◌, ℕ, IsTrue, true, false, nat_eq, length};
ghost use Rattle.mesh_atoms.specs.Base.{HasDistinctKeys, Expires, base_of, two_hop_eq};
ghost use Rattle.mesh_atoms.specs.Quality.{rule_of};
ghost use Rattle.mesh_links.specs.Links.{AllStay};
ghost use Rattle.mesh_nhdp.specs.Staying.{LinksStay, ExpiresBeside};

use crate::sets::NeighbourhoodSets;
use mesh_atoms::{Link, LinkKey, RouterSettings, TwoHop, TwoHopKey};
use mesh_expire::{Bases, PlacedTable, Table};
use mesh_links::LinkSet;
use mesh_nbrs::TwoHopSet;

/// Whether nothing becomes of the links of the interface of that number.
fn are_unchanged_on<L: Table<LinkKey, Link>>(
    settings: &RouterSettings,
    links: &LinkSet<L>,
    iface: usize,
    last: u64,
    now: u64,
) -> bool
    requires now { now < 2 ^ 62 }
    requires iface { iface < length settings.now.interfaces }
    ensures { IsTrue result ↔ AllStay (rule_of settings.now iface) settings.now.times.link_hold last now links.now }
{
    let face = &settings.interfaces.as_slice()[iface];
    links.are_unchanged(last, now, settings.times.link_hold, &face.admit)
}

/// Whether nothing becomes of the links of any interface. Looks at each link once. Takes no memory.
pub fn are_links_unchanged<B: Bases>(
    settings: &RouterSettings,
    sets: &NeighbourhoodSets<B>,
    last: u64,
    now: u64,
) -> bool
    requires now { now < 2 ^ 62 }
    requires same { length sets.now.links ≡ length settings.now.interfaces }
    ensures { IsTrue result ↔ LinksStay settings.now last now sets.now.links }
{
    for i in 0..sets.links.len() {
        if !are_unchanged_on(settings, &sets.links[i], i, last, now) {
            return false;
        }
    }
    true
}

/// Whether nothing went before, and nothing now.
fn is_none_gone(before: bool, gone: usize) -> bool
    ensures { result ≡ (before && nat_eq gone 0) }
{
    before && gone == 0
}

/// Takes out the 2-hop tuples that are expired, interface by interface; whether none is. Takes no memory.
fn expire_two_hops<H: PlacedTable<TwoHopKey, TwoHop>>(sets: &mut [TwoHopSet<H>], now: u64) -> bool
    ensures length { length sets.new ≡ length sets.old }
    ensures each { (i : ℕ) → i < length sets.old → Expires two_hop_eq now (base_of sets.old i) (base_of sets.new i) }
    ensures distinct { (i : ℕ) → i < length sets.old → HasDistinctKeys two_hop_eq (base_of sets.new i) }
    ensures same { result ≡ true → sets.new ≡ sets.old }
    ensures changed { result ≡ false → (i : ℕ) × (length (base_of sets.new i) < length (base_of sets.old i)) }
{
    let mut same = true;
    for i in 0..sets.len() {
        let gone = sets[i].expire_and_count(now);
        same = is_none_gone(same, gone);
    }
    same
}

/// Takes out the 2-hop tuples and the lost addresses that are expired; whether none is. Takes no memory.
pub fn expire_beside<B: Bases>(sets: &mut NeighbourhoodSets<B>, now: u64) -> bool
    ensures { ExpiresBeside now result sets.old sets.new }
{
    let same = expire_two_hops(&mut sets.two_hops, now);
    let gone = sets.losts.expire_and_count(now);
    is_none_gone(same, gone)
}
