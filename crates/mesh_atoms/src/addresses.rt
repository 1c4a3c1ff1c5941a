//! Tests on lists of addresses.
ghost use Rattle.std.specs.Prelude.{◌↔◌, Contains, IsTrue};
ghost use Rattle.mesh_atoms.specs.Words.{Meets};

use crate::Addr4;

/// Whether the address is in the list. Takes no memory.
pub fn contains(addrs: &[Addr4], addr: Addr4) -> bool
    ensures { IsTrue result ↔ Contains addrs.now addr }
{
    for other in addrs {
        if *other == addr {
            return true;
        }
    }
    false
}

/// Whether two lists have an address in common. Takes no memory, and time by the product of their lengths.
pub fn have_common_addr(addrs: &[Addr4], others: &[Addr4]) -> bool
    ensures { IsTrue result ↔ Meets addrs.now others.now }
{
    addrs.iter().any(|addr| contains(others, *addr))
}
