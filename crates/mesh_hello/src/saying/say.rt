//! The HELLO of an interface (RFC 6130, section 11, and RFC 7181, section 15.1).
ghost use Rattle.std.specs.Prelude.{◌≡◌, IfOk};
ghost use Rattle.mesh_atoms.specs.Hello.{IsHelloNow};
ghost use Rattle.mesh_atoms.specs.State.{State};
ghost use Rattle.mesh_hello.specs.Saying.Said.{AreDisjoint, IsSeen};

use crate::saying::rows::{HelloBasis, rows_of};
use crate::saying::said_addresses::said_addresses;
use mesh_atoms::{Addr4, Hello, Link, LinkKey, Lost, Neighbour, time_at_least};
use mesh_expire::Table;
use std::alloc::{AllocError, Global};

/// The HELLO that an interface sends: originator, validity and interval rounded up to time codes, willingness, and a row for each
/// address of which something is to be said (RFC 6130, section 11, and RFC 7181, section 15.1). Two links, or two neighbours, have no
/// address in common, and all addresses of a link are one neighbour's. Only an allocation failure refuses.
pub fn make_hello<L: Table<LinkKey, Link>, N: Table<Addr4, Neighbour>, O: Table<Addr4, Lost>>(
    alloc: Global,
    basis: &HelloBasis<'_, L, N, O>,
) -> Result<Hello, AllocError>
    requires { AreDisjoint basis.now.links.now basis.now.neighbours.now (O.content basis.now.losts.now) }
    ensures { IfOk result (λ hello. (s : State) →
        IsSeen s basis.now.settings.now basis.now.links.now basis.now.neighbours.now (O.content basis.now.losts.now) basis.now.relays.now basis.now.iface
        → IsHelloNow s basis.now.iface basis.now.moment hello) }
{
    let settings = basis.settings;
    let links = basis.links.table();
    let neighbours = basis.neighbours.table();
    let addrs = said_addresses(alloc, settings, links, neighbours, basis.losts)?;
    let rows = rows_of(alloc, basis, addrs.as_slice())?;
    Ok(Hello {
        originator: Some(settings.originator()),
        validity: time_at_least(settings.times.hold),
        interval: Some(time_at_least(settings.times.hello)),
        willing: settings.willing,
        rows,
    })
}
