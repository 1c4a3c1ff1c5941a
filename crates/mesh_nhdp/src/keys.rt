//! The keys of links (RFC 6130, section 7.1).
ghost use Rattle.std.specs.Prelude.{◌≡◌, ◌⊎◌, ◌++◌, map, Contains, IfOk, OnOk};
ghost use Rattle.mesh_atoms.specs.declared.addr.Addr4.{Addr4};
ghost use Rattle.mesh_nhdp.specs.Calls.{key_at};

use mesh_atoms::{Addr4, LinkKey};
use std::alloc::{AllocError, Global};

/// Puts the keys of links with these least addresses at the end of a list.
fn put_keys(keys: &mut Vec<LinkKey>, addrs: &[Addr4]) -> Result<(), AllocError>
    ensures { OnOk result (keys.new.items ≡ keys.old.items ++ map key_at addrs.now) }
{
    for addr in addrs {
        keys.push(LinkKey { addr: *addr })?;
    }
    Ok(())
}

/// The keys of links whose least addresses are in one of the lists.
pub fn keys_of_both(
    alloc: Global,
    addrs: &[Addr4],
    others: &[Addr4],
) -> Result<Vec<LinkKey>, AllocError>
    ensures { IfOk result (λ keys. (a : Addr4) → Contains addrs.now a ⊎ Contains others.now a → Contains keys.items (key_at a)) }
{
    let mut keys = Vec::new(alloc);
    put_keys(&mut keys, addrs)?;
    put_keys(&mut keys, others)?;
    Ok(keys)
}
