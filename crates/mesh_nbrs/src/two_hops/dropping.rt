//! The 2-hop tuples of a link that has ended (RFC 6130, section 13).
ghost use Rattle.std.specs.Prelude.{◌≡◌, ◌+◌, ℕ, length, false, slice_get, Some, None};
ghost use Rattle.mesh_atoms.specs.Base.{HasDistinctKeys, link_eq, two_hop_eq};
ghost use Rattle.mesh_nbrs.specs.TwoHops.TwoHops.{DropsLink};
ghost use Rattle.mesh_atoms.specs.declared.tuples.TwoHopKey.{TwoHopKey};
ghost use Rattle.mesh_atoms.specs.declared.tuples.TwoHop.{TwoHop};

use mesh_atoms::{LinkKey, TwoHop, TwoHopKey};
use mesh_expire::PlacedTable;

// Whether the tuple at a place is one of that link.
fn is_of<T: PlacedTable<TwoHopKey, TwoHop>>(table: &T, place: usize, link: LinkKey) -> bool
    ensures there { (e : TwoHopKey × (TwoHop × ℕ)) → slice_get (T.content table.now) place ≡ Some e → result ≡ link_eq e.0.link link }
    ensures past { slice_get (T.content table.now) place ≡ None → result ≡ false }
{
    match table.at(place) {
        Some((key, _, _)) => key.link == link,
        None => false,
    }
}

/// Takes out all tuples of a link, and gives their number. Goes over all places, from the last one on, since the last entry comes to the
/// place of one that goes.
pub(crate) fn drop_all<T: PlacedTable<TwoHopKey, TwoHop>>(table: &mut T, link: LinkKey) -> usize
    ensures dropped { DropsLink link (T.content table.old) (T.content table.new) }
    ensures count { result + length (T.content table.new) ≡ length (T.content table.old) }
    ensures distinct { HasDistinctKeys two_hop_eq (T.content table.new) }
{
    let before = table.len();
    let mut place = before;
    while place > 0 {
        place -= 1;
        if is_of(table, place, link) {
            table.remove_at(place);
        }
    }
    before - table.len()
}
