//! Tests on lists of addresses (RFC 6130, section 12.5).
ghost use Rattle.std.specs.Prelude.{◌≡◌, ◌↔◌, ◌⊎◌, IsTrue};
ghost use Rattle.mesh_atoms.specs.Words.{Meets, IsBeyond};

use mesh_atoms::{Addr4, contains, have_common_addr};

/// Whether the first list has an address outside the second.
pub fn is_beyond(addrs: &[Addr4], others: &[Addr4]) -> bool
    ensures { IsTrue result ↔ IsBeyond addrs.now others.now }
{
    for addr in addrs {
        if !contains(others, *addr) {
            return true;
        }
    }
    false
}

/// Whether two lists are the same.
pub fn are_same(addrs: &[Addr4], others: &[Addr4]) -> bool
    ensures { IsTrue result ↔ (addrs.now ≡ others.now) }
{
    addrs == others
}

/// Whether a list has an address among the old ones and one outside the new ones.
pub fn are_outside(addrs: &[Addr4], old: &[Addr4], new: &[Addr4]) -> bool
    ensures { IsTrue result ↔ (Meets addrs.now old.now × IsBeyond addrs.now new.now) }
{
    have_common_addr(addrs, old) && is_beyond(addrs, new)
}

/// Whether a list is the other, or has none of its addresses.
pub fn is_apart(addrs: &[Addr4], others: &[Addr4]) -> bool
    ensures { IsTrue result ↔ ((addrs.now ≡ others.now) ⊎ (Meets addrs.now others.now → ⊥)) }
{
    are_same(addrs, others) || !have_common_addr(addrs, others)
}
