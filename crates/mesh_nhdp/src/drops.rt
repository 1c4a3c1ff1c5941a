//! The end of 2-hop tuples whose link isn't SYMMETRIC (RFC 6130, section 13).
ghost use Rattle.std.specs.Prelude.{◌≡◌, ◌&&◌, not, cond, None};
ghost use Rattle.mesh_atoms.specs.Base.{find, link_eq, two_hop_eq};
ghost use Rattle.mesh_nhdp.specs.Calls.{is_symmetric_in, DropsEnded};

use mesh_atoms::{Link, LinkKey, TwoHop, TwoHopKey};
use mesh_expire::{PlacedTable, Table};
use mesh_links::LinkSet;
use mesh_nbrs::TwoHopSet;

/// Whether there is a link with that key, and it is SYMMETRIC. Takes no memory.
pub fn has_symmetric<T: Table<LinkKey, Link>>(table: &T, key: LinkKey, now: u64) -> bool
    ensures { result ≡ is_symmetric_in (T.content table.now) now key }
{
    match table.get(&key) {
        Some((link, _)) => link.is_symmetric(now),
        None => false,
    }
}

/// Takes out the tuples of the link with that key, where it isn't SYMMETRIC.
fn drop_if_ended<L: Table<LinkKey, Link>, H: PlacedTable<TwoHopKey, TwoHop>>(
    links: &LinkSet<L>,
    two_hops: &mut TwoHopSet<H>,
    key: LinkKey,
    now: u64,
)
    ensures { (q : TwoHopKey) → find two_hop_eq two_hops.new q ≡ cond (link_eq q.link key && not (is_symmetric_in links.now now key)) None (find two_hop_eq two_hops.old q) }
{
    if !has_symmetric(links.table(), key, now) {
        two_hops.drop_link(key);
    }
}

/// Takes out the tuples of those of these links that aren't SYMMETRIC. Takes no memory.
pub fn drop_ended<L: Table<LinkKey, Link>, H: PlacedTable<TwoHopKey, TwoHop>>(
    links: &LinkSet<L>,
    two_hops: &mut TwoHopSet<H>,
    keys: &[LinkKey],
    now: u64,
)
    ensures dropped { DropsEnded keys.now links.now now two_hops.old two_hops.new }
{
    for key in keys {
        drop_if_ended(links, two_hops, *key, now);
    }
}
