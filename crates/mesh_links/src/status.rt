//! What a link is at a moment (RFC 6130, section 7.1).
ghost use Rattle.mesh_links.specs.Links.{SelectorOf};
ghost use Rattle.mesh_links.specs.Owners.{HasLinkOwners};

use crate::owners::link_with;
use indexmap::IndexMap;
use mesh_atoms::{Addr4, Link, LinkKey};
use mesh_expire::Table;

/// The selector flag of the SYMMETRIC link that has the address.
pub fn selector_of<T: Table<LinkKey, Link>>(
    table: &T,
    owners: &IndexMap<Addr4, LinkKey>,
    addr: Addr4,
    now: u64,
) -> Option<bool>
    requires { HasLinkOwners owners.now.entries (T.content table.now) }
    ensures { SelectorOf (T.content table.now) now addr result }
{
    let Some((_, link, _)) = link_with(table, owners, addr) else {
        return None;
    };
    if link.is_symmetric(now) {
        Some(link.selector)
    } else {
        None
    }
}
