//! The rows of a HELLO (RFC 6130, section 11).
ghost use Rattle.std.specs.Prelude.{◌≡◌, ◌↔◌, IsTrue, Contains, IfOk, map};
ghost use Rattle.mesh_atoms.specs.Base.{Has, HasDistinctKeys, addr_eq, host};
ghost use Rattle.mesh_hello.specs.Saying.Said.{AreDisjoint, IsHelloRowOf, said_addresses};

use crate::saying::said_of::{
    is_flooding_relay, is_relay, link_in_said, link_out_said, link_status_said, local_of,
    near_in_said, near_out_said, neighbour_with, other_said,
};
use mesh_atoms::{
    Addr4, HelloRow, Link, LinkKey, Lost, Metrics, Mpr, Neighbour, Relays, RouterSettings, Seq,
    host,
};
use mesh_expire::Table;
use mesh_links::LinkSet;
use mesh_nbrs::NeighbourSet;
use std::alloc::{AllocError, Global};

/// What the HELLO of an interface is made of at a moment in ticks of 1/8192 s: the settings, the links of that interface, the
/// neighbours, the lost addresses and the relays.
#[derive(Drop)]
pub struct HelloBasis<'a, L: Table<LinkKey, Link>, N: Table<Addr4, Neighbour>, O> {
    pub settings: &'a RouterSettings,
    pub links: &'a LinkSet<L>,
    pub neighbours: &'a NeighbourSet<N>,
    pub losts: &'a O,
    pub relays: &'a Relays,
    pub iface: usize,
    pub moment: u64,
}

/// Whether the address is lost.
fn is_lost<T: Table<Addr4, Lost>>(losts: &T, addr: Addr4) -> bool
    requires { HasDistinctKeys addr_eq (T.content losts.now) }
    ensures { IsTrue result ↔ ((lost : _) × Has (T.content losts.now) addr lost) }
{
    losts.get(&addr).is_some()
}

/// The row of an address of which something is said.
fn row_of<L: Table<LinkKey, Link>, N: Table<Addr4, Neighbour>, O: Table<Addr4, Lost>>(
    basis: &HelloBasis<'_, L, N, O>,
    addr: Addr4,
) -> HelloRow
    requires apart { AreDisjoint basis.now.links.now basis.now.neighbours.now (O.content basis.now.losts.now) }
    requires said { Contains (said_addresses basis.now.settings.now basis.now.links.now basis.now.neighbours.now (O.content basis.now.losts.now)) addr }
    ensures addr { result.addr ≡ host addr }
    ensures says { IsHelloRowOf basis.now.settings.now basis.now.links.now basis.now.neighbours.now (O.content basis.now.losts.now)
        basis.now.relays.now basis.now.iface basis.now.moment result addr }
{
    let link = basis.links.with_address(addr);
    let neighbour = neighbour_with(basis.neighbours, addr);
    let status = link_status_said(link, basis.moment);
    HelloRow {
        addr: host(addr),
        local: local_of(basis.settings, basis.iface, addr),
        link: status,
        other: other_said(status, neighbour.is_some(), is_lost(basis.losts, addr)),
        metrics: Metrics {
            link_in: link_in_said(status, link),
            link_out: link_out_said(status, link),
            near_in: near_in_said(neighbour),
            near_out: near_out_said(neighbour),
        },
        mpr: Mpr {
            flooding: is_flooding_relay(&basis.relays.flooding, basis.iface, status, neighbour),
            routing: is_relay(basis.relays.routing.as_slice(), neighbour),
        },
    }
}

/// The rows of those addresses, in their order. Each address is looked up among the links, the neighbours and the lost ones.
pub fn rows_of<L: Table<LinkKey, Link>, N: Table<Addr4, Neighbour>, O: Table<Addr4, Lost>>(
    alloc: Global,
    basis: &HelloBasis<'_, L, N, O>,
    addrs: &[Addr4],
) -> Result<Seq<HelloRow>, AllocError>
    requires apart { AreDisjoint basis.now.links.now basis.now.neighbours.now (O.content basis.now.losts.now) }
    requires said { (a : Addr4) → Contains addrs.now a
        → Contains (said_addresses basis.now.settings.now basis.now.links.now basis.now.neighbours.now (O.content basis.now.losts.now)) a }
    ensures addrs { IfOk result (λ rows. map (λ row. row.addr) rows ≡ map host addrs.now) }
    ensures says { IfOk result (λ rows. (row : HelloRow) → Contains rows row → (a : Addr4) ×
        IsHelloRowOf basis.now.settings.now basis.now.links.now basis.now.neighbours.now (O.content basis.now.losts.now)
        basis.now.relays.now basis.now.iface basis.now.moment row a) }
{
    let mut rows = Seq::new(alloc);
    for addr in addrs {
        rows.push(row_of(basis, *addr))?;
    }
    Ok(rows)
}
