//! Of which addresses a HELLO says something (RFC 6130, section 11).
ghost use Rattle.std.specs.Prelude.{◌≡◌, ◌++◌, ◌↔◌, List, Contains, IfOk, OnOk};
ghost use Rattle.std.specs.List.{flat_map};
ghost use Rattle.mesh_atoms.specs.declared.addr.Addr4.{Addr4};
ghost use Rattle.mesh_atoms.specs.Words.{IsAscending};
ghost use Rattle.mesh_hello.specs.Saying.Said.{linked_addresses, symmetric_addresses, said_addresses};

use crate::lists::{ascending, put_table_keys};
use mesh_atoms::{Addr4, Link, LinkKey, Lost, Neighbour, RouterSettings, Seq};
use mesh_expire::{Key, Table};
use std::alloc::{AllocError, Global};

/// Puts the router's own addresses at the end of a list.
fn put_own(list: &mut Vec<Addr4>, settings: &RouterSettings) -> Result<(), AllocError>
    ensures { OnOk result (list.new.items ≡ list.old.items ++ flat_map (λ face. face.addrs) settings.now.interfaces) }
{
    for face in settings.interfaces.as_slice() {
        list.extend_from_slice(face.addrs.as_slice())?;
    }
    Ok(())
}

/// A tuple of whose addresses a HELLO says something.
pub trait HasSaid {
    ghost said: { Self → List Addr4 };

    /// The addresses of which it does: all addresses of a link that is not PENDING, and of a neighbour that is symmetric; none of
    /// others. Takes no memory.
    fn said(&self) -> &[Addr4]
        ensures { result.now ≡ said self.now };
}

impl HasSaid for Link {
    ghost said = { linked_addresses };

    fn said(&self) -> &[Addr4] {
        if self.pending {
            &[]
        } else {
            self.addrs.as_slice()
        }
    }
}

impl HasSaid for Neighbour {
    ghost said = { symmetric_addresses };

    fn said(&self) -> &[Addr4] {
        if self.symmetric {
            self.addrs.as_slice()
        } else {
            &[]
        }
    }
}

/// Puts the addresses of a table of which something is said at the end of a list.
fn put_said<K: Key, V: HasSaid, T: Table<K, V>>(
    list: &mut Vec<Addr4>,
    table: &T,
) -> Result<(), AllocError>
    ensures { OnOk result (list.new.items ≡ list.old.items ++ flat_map (λ e. V.said e.1.0) (T.content table.now)) }
{
    for place in 0..table.len() {
        if let Some((_, tuple, _)) = table.at(place) {
            list.extend_from_slice(tuple.said())?;
        }
    }
    Ok(())
}

/// The addresses of which a HELLO says something, in ascending order, each once.
pub fn said_addresses<L: Table<LinkKey, Link>, N: Table<Addr4, Neighbour>, O: Table<Addr4, Lost>>(
    alloc: Global,
    settings: &RouterSettings,
    links: &L,
    neighbours: &N,
    losts: &O,
) -> Result<Seq<Addr4>, AllocError>
    ensures ascending { IfOk result IsAscending }
    ensures same { IfOk result (λ list. (a : Addr4) →
        Contains list a ↔ Contains (said_addresses settings.now (L.content links.now) (N.content neighbours.now) (O.content losts.now)) a) }
{
    let mut list = Vec::new(alloc);
    put_table_keys(&mut list, losts)?;
    put_own(&mut list, settings)?;
    put_said(&mut list, links)?;
    put_said(&mut list, neighbours)?;
    Ok(ascending(list))
}
