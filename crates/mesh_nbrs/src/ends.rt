//! Taking out the neighbours that no note is of (RFC 6130, sections 12.3 and 13).
ghost use Rattle.std.specs.Prelude.{◌≡◌, ◌+◌, ◌<◌, ◌≤◌, IfSome, IfNone, ℕ, length, slice_get, Some};
ghost use Rattle.mesh_atoms.specs.Base.{find, HasDistinctKeys, addr_eq};
ghost use Rattle.mesh_atoms.specs.Words.{IsKept};
ghost use Rattle.mesh_nbrs.specs.Parts.{HasSummaryAt};

use crate::parts::has_part;
use crate::summary::Summary;
use indexmap::IndexMap;
use mesh_atoms::{Addr4, Neighbour};
use mesh_expire::Table;

// The first neighbour that no note is of at a place from `start` on and below `end`, by its place and its originator.
fn next_in<T: Table<Addr4, Neighbour>>(
    table: &T,
    parts: &IndexMap<Addr4, Summary>,
    start: usize,
    end: usize,
) -> Option<(usize, Addr4)>
    requires { HasDistinctKeys addr_eq (T.content table.now) }
    ensures some { IfSome result (λ next. (e : _) × (find addr_eq (T.content table.now) next.1 ≡ Some e) × (HasSummaryAt parts.now.entries e.0.addrs → ⊥)) }
    ensures none { IfNone result ((place : ℕ) (e : _) → start ≤ place → place < end → slice_get (T.content table.now) place ≡ Some e
        → (HasSummaryAt parts.now.entries e.1.0.addrs → ⊥) → ⊥) }
{
    for place in start..end {
        if let Some((originator, neighbour, _)) = table.at(place) {
            if !has_part(parts, neighbour.addrs.as_slice()) {
                return Some((place, *originator));
            }
        }
    }
    None
}

// The next neighbour that no note is of, from a place on and round to it again.
fn next_from<T: Table<Addr4, Neighbour>>(
    table: &T,
    parts: &IndexMap<Addr4, Summary>,
    start: usize,
) -> Option<(usize, Addr4)>
    requires { HasDistinctKeys addr_eq (T.content table.now) }
    ensures some { IfSome result (λ next. (e : _) × (find addr_eq (T.content table.now) next.1 ≡ Some e) × (HasSummaryAt parts.now.entries e.0.addrs → ⊥)) }
    ensures none { IfNone result ((q : Addr4) (e : _) → find addr_eq (T.content table.now) q ≡ Some e → (HasSummaryAt parts.now.entries e.0.addrs → ⊥) → ⊥) }
{
    match next_in(table, parts, start, table.len()) {
        Some(next) => Some(next),
        None => next_in(table, parts, 0, start),
    }
}

/// Takes out each neighbour that no note is of, and gives their number. Takes no memory. The search for the next one goes on at
/// the place of the one before.
pub fn end_all<T: Table<Addr4, Neighbour>>(table: &mut T, parts: &IndexMap<Addr4, Summary>) -> usize
    requires { HasDistinctKeys addr_eq (T.content table.old) }
    ensures kept { (q : Addr4) → IsKept (λ e. (HasSummaryAt parts.now.entries e.0.addrs → ⊥) → ⊥) (find addr_eq (T.content table.old) q) (find addr_eq (T.content table.new) q) }
    ensures count { result + length (T.content table.new) ≡ length (T.content table.old) }
    ensures none { result ≡ 0 → T.content table.new ≡ T.content table.old }
    ensures distinct { HasDistinctKeys addr_eq (T.content table.new) }
{
    let before = table.len();
    let mut start = 0;
    while let Some(next) = next_from(table, parts, start) {
        table.remove(&next.1);
        start = next.0;
    }
    before - table.len()
}
