//! What expiry leaves of the links of an interface (RFC 6130, section 13).
ghost use Rattle.std.specs.Prelude.{◌≡◌, ◌+◌, length, map};
ghost use Rattle.mesh_atoms.specs.Base.{HasDistinctKeys, link_eq};
ghost use Rattle.mesh_atoms.specs.Live.{trimmed};
ghost use Rattle.mesh_expire.specs.Table.{changed_at};
ghost use Rattle.mesh_links.specs.Links.{HasRoom, ExpiresLinks};

use crate::renewal::trim;
use mesh_atoms::{Link, LinkKey};
use mesh_expire::Table;

/// Takes link_out and the selector flag from the link with that key, where it isn't SYMMETRIC.
fn trim_at<T: Table<LinkKey, Link>>(table: &mut T, key: &LinkKey, now: u64)
    ensures { T.content table.new ≡ changed_at link_eq (T.content table.old) key.now (trimmed now) }
{
    if let Some(link) = table.value_mut(key) {
        trim(link, now);
    }
}

/// Takes link_out and the selector flag from each link that isn't SYMMETRIC, place by place.
fn trim_all<T: Table<LinkKey, Link>>(table: &mut T, now: u64)
    ensures trimmed { T.content table.new ≡ map (λ e. (e.0, trimmed now e.1)) (T.content table.old) }
    ensures distinct { HasDistinctKeys link_eq (T.content table.new) }
{
    for place in 0..table.len() {
        let key = match table.at(place) {
            Some((key, _, _)) => *key,
            None => return,
        };
        trim_at(table, &key, now);
    }
}

/// Takes out the links that are expired, and link_out and the selector flag of those that aren't SYMMETRIC. The number of
/// those that it takes out. Takes no memory.
pub fn expire_all<T: Table<LinkKey, Link>>(table: &mut T, now: u64) -> usize
    requires room { HasRoom (T.content table.old) }
    ensures expired { ExpiresLinks now (T.content table.old) (T.content table.new) }
    ensures count { result + length (T.content table.new) ≡ length (T.content table.old) }
    ensures room { HasRoom (T.content table.new) }
    ensures distinct { HasDistinctKeys link_eq (T.content table.new) }
{
    let expired = table.expire(now);
    trim_all(table, now);
    expired
}
