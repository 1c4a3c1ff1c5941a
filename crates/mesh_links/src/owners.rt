//! The map from addresses to the keys of links. It is tied one way: each address of a link leads to the link's key. An address
//! of a link that is gone may stand there up to the next purge, and lead to no link, or to one that hasn't the address.
ghost use Rattle.std.specs.Prelude.{◌≡◌, ◌<◌, ℕ, is_some, IsSome, IfSome, IfNone, OnOk, Some};
ghost use Rattle.mesh_atoms.specs.declared.addr.Addr4.{Addr4};
ghost use Rattle.mesh_atoms.specs.declared.tuples.LinkKey.{LinkKey};
ghost use Rattle.mesh_atoms.specs.declared.tuples.Link.{Link};
ghost use Rattle.mesh_atoms.specs.Base.{HasDistinctKeys, find, link_eq};
ghost use Rattle.mesh_links.specs.Links.{HasLinkWith};
ghost use Rattle.mesh_links.specs.Owners.{owner_of, purged, HasLinkOwners, OwnsAll, OwnsMore};

use indexmap::IndexMap;
use mesh_atoms::{Addr4, Link, LinkKey, contains};
use mesh_expire::Table;
use std::alloc::AllocError;

/// The link that has the address, with its key and its moment.
pub fn link_with<'a, T: Table<LinkKey, Link>>(
    table: &'a T,
    owners: &'a IndexMap<Addr4, LinkKey>,
    addr: Addr4,
) -> Option<(&'a LinkKey, &'a Link, u64)>
    requires { HasLinkOwners owners.now.entries (T.content table.now) }
    ensures some { IfSome result (λ e. HasLinkWith (T.content table.now) addr e.0.now (e.1.now, e.2)) }
    ensures only { IfSome result (λ e. (key : LinkKey) (other : Link × ℕ) → HasLinkWith (T.content table.now) addr key other → key ≡ e.0.now) }
    ensures none { IfNone result ((key : LinkKey) (e : Link × ℕ) → HasLinkWith (T.content table.now) addr key e → ⊥) }
{
    let Some(key) = owners.get(&addr) else {
        return None;
    };
    let Some((link, until)) = table.get(key) else {
        return None;
    };
    if contains(link.addrs.as_slice(), addr) {
        Some((key, link, until))
    } else {
        None
    }
}

/// Notes the key for each of the addresses.
pub fn own_all(
    owners: &mut IndexMap<Addr4, LinkKey>,
    addrs: &[Addr4],
    key: LinkKey,
) -> Result<(), AllocError>
    ensures ok { OnOk result (OwnsAll owners.new.entries addrs.now key) }
    ensures more { OwnsMore owners.old.entries owners.new.entries addrs.now key }
{
    for addr in addrs {
        owners.insert(*addr, key)?;
    }
    Ok(())
}

/// Whether a link has the key.
fn has_key<T: Table<LinkKey, Link>>(table: &T, key: LinkKey) -> bool
    ensures { result ≡ is_some (find link_eq (T.content table.now) key) }
{
    table.get(&key).is_some()
}

/// Takes out each address whose link is gone. Goes over the whole map. Takes no memory.
fn purge<T: Table<LinkKey, Link>>(owners: &mut IndexMap<Addr4, LinkKey>, table: &T)
    ensures purged { owners.new.entries ≡ purged (T.content table.now) owners.old.entries }
    ensures kept { (a : Addr4) (key : LinkKey) → IsSome (find link_eq (T.content table.now) key) → owner_of owners.old.entries a ≡ Some key → owner_of owners.new.entries a ≡ Some key }
{
    owners.retain(|_, key| has_key(table, *key));
}

/// Takes out each address whose link is gone, where some are.
pub fn purge_after<T: Table<LinkKey, Link>>(
    owners: &mut IndexMap<Addr4, LinkKey>,
    table: &T,
    gone: usize,
)
    ensures none { gone ≡ 0 → owners.new.entries ≡ owners.old.entries }
    ensures purged { 0 < gone → owners.new.entries ≡ purged (T.content table.now) owners.old.entries }
    ensures kept { (a : Addr4) (key : LinkKey) → IsSome (find link_eq (T.content table.now) key) → owner_of owners.old.entries a ≡ Some key → owner_of owners.new.entries a ≡ Some key }
{
    if gone > 0 {
        purge(owners, table);
    }
}
