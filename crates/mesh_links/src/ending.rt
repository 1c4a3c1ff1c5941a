//! Links that end (RFC 6130, section 13).
ghost use Rattle.std.specs.Prelude.{◌≡◌, ◌+◌, ◌≤◌, ◌↔◌, ℕ, IsTrue, IfSome, IfNone, Some, Contains, length};
ghost use Rattle.mesh_atoms.specs.declared.tuples.LinkKey.{LinkKey};
ghost use Rattle.mesh_atoms.specs.declared.tuples.Link.{Link};
ghost use Rattle.mesh_atoms.specs.Base.{HasDistinctKeys, find, link_eq};
ghost use Rattle.mesh_atoms.specs.Words.{IsKept, Meets};
ghost use Rattle.mesh_links.specs.Ending.{Spares};
ghost use Rattle.mesh_links.specs.Owners.{HasLinkOwners, owner_of, IsKeptOrGone};

use crate::addresses::{are_outside, is_apart};
use indexmap::IndexMap;
use mesh_atoms::{Addr4, Link, LinkKey};
use mesh_expire::Table;

/// Which links end.
#[derive(Clone, Copy)]
pub enum LinksToEnd<'a> {
    /// Those that have an address of the first list and one outside the second.
    Outside(&'a [Addr4], &'a [Addr4]),
    /// Those that have an address of the list, but for the one that has just this list.
    Beside(&'a [Addr4]),
}

/// Whether the link stays.
fn is_spared(which: LinksToEnd, link: &Link) -> bool
    ensures { IsTrue result ↔ Spares which.entry link.now }
{
    let addrs = link.addrs.as_slice();
    match which {
        LinksToEnd::Outside(old, new) => !are_outside(addrs, old, new),
        LinksToEnd::Beside(sending) => is_apart(addrs, sending),
    }
}

/// The key of the link that has the address, where it ends.
fn ended_at<T: Table<LinkKey, Link>>(
    table: &T,
    owners: &IndexMap<Addr4, LinkKey>,
    addr: Addr4,
    which: LinksToEnd,
) -> Option<LinkKey>
    requires { HasLinkOwners owners.now.entries (T.content table.now) }
    ensures some { IfSome result (λ key. (e : Link × ℕ) × (find link_eq (T.content table.now) key ≡ Some e) × (Spares which.entry e.0 → ⊥)) }
    ensures owner { IfSome result (λ key. owner_of owners.now.entries addr ≡ Some key) }
    ensures none { IfNone result ((key : LinkKey) (e : Link × ℕ) → find link_eq (T.content table.now) key ≡ Some e → Contains e.0.addrs addr → Spares which.entry e.0) }
{
    let Some(key) = owners.get(&addr) else {
        return None;
    };
    let Some((link, _until)) = table.get(key) else {
        return None;
    };
    if is_spared(which, link) {
        None
    } else {
        Some(*key)
    }
}

/// Takes out the link that has the address, where it ends.
fn end_at<T: Table<LinkKey, Link>>(
    table: &mut T,
    owners: &IndexMap<Addr4, LinkKey>,
    addr: Addr4,
    which: LinksToEnd,
)
    requires owned { HasLinkOwners owners.now.entries (T.content table.old) }
    requires distinct { HasDistinctKeys link_eq (T.content table.old) }
    ensures left { (key : LinkKey) → IsKeptOrGone (λ e. Spares which.entry e.0 → ⊥) (find link_eq (T.content table.old) key) (find link_eq (T.content table.new) key) }
    ensures done { (key : LinkKey) (e : Link × ℕ) → find link_eq (T.content table.new) key ≡ Some e → Contains e.0.addrs addr → Spares which.entry e.0 }
    ensures distinct { HasDistinctKeys link_eq (T.content table.new) }
    ensures within { length (T.content table.new) ≤ length (T.content table.old) }
{
    if let Some(key) = ended_at(table, owners, addr, which) {
        table.remove(&key);
    }
}

/// Takes out the links that end, each of which has one of the addresses, and gives their number. Looks each address up once.
/// Takes no memory.
pub fn end_all<T: Table<LinkKey, Link>>(
    table: &mut T,
    owners: &IndexMap<Addr4, LinkKey>,
    addrs: &[Addr4],
    which: LinksToEnd,
) -> usize
    requires owned { HasLinkOwners owners.now.entries (T.content table.old) }
    requires others { (link : Link) → (Meets link.addrs addrs.now → ⊥) → Spares which link }
    ensures kept { (key : LinkKey) → IsKept (λ e. Spares which.entry e.0) (find link_eq (T.content table.old) key) (find link_eq (T.content table.new) key) }
    ensures count { result + length (T.content table.new) ≡ length (T.content table.old) }
    ensures distinct { HasDistinctKeys link_eq (T.content table.new) }
    ensures owned { HasLinkOwners owners.now.entries (T.content table.new) }
{
    let before = table.len();
    for addr in addrs {
        end_at(table, owners, *addr, which);
    }
    before - table.len()
}
