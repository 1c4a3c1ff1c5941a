//! What expiry and a HELLO make of the links and the 2-hop tuples, interface by interface (RFC 6130, sections 12.5, 12.6 and 13).
ghost use Rattle.std.specs.Prelude.{◌≡◌, ◌<◌, ◌^◌, true, false, Some, length, slice_get, IfOk, OnOk};
ghost use Rattle.mesh_atoms.specs.Base.{HasDistinctKeys, link_eq};
ghost use Rattle.mesh_atoms.specs.declared.tuples.LinkKey.{LinkKey};
ghost use Rattle.mesh_atoms.specs.declared.settings.Interface.{Interface};
ghost use Rattle.mesh_links.specs.Links.{AdmitsLinks, CanHearHello, HearsOn};
ghost use Rattle.mesh_nhdp.specs.Calls.{TellsKeys};
ghost use Rattle.mesh_nhdp.specs.Changes.{CanChange, ChangesOn};
ghost use Rattle.mesh_nhdp.specs.Interfaces.{ChangesEach};

use crate::drops::drop_ended;
use crate::sets::NeighbourhoodSets;
use mesh_atoms::{Addr4, Admit, Interface, Link, LinkKey, Shown, TwoHop, TwoHopKey};
use mesh_expire::{Bases, PlacedTable, Table};
use mesh_hello::put_table_keys;
use mesh_links::LinkSet;
use mesh_nbrs::TwoHopSet;
use std::alloc::{AllocError, Global};

/// The keys of the links of one interface.
fn link_keys<L: Table<LinkKey, Link>>(
    alloc: Global,
    links: &LinkSet<L>,
) -> Result<Vec<LinkKey>, AllocError>
    ensures { IfOk result (λ keys. TellsKeys links.now keys.items) }
{
    let mut found = Vec::new(alloc);
    put_table_keys(&mut found, links.table())?;
    Ok(found)
}

/// Expiry at a moment in ticks of 1/8192 s, with the hold time of links, and the interfaces, whose rules say which links are
/// admitted.
#[derive(Clone, Copy)]
pub struct Expiry<'a> {
    pub now: u64,
    pub hold: u64,
    pub faces: &'a [Interface],
}

/// Brings the links of the interface of that number in line with their qualities.
fn admit_on<L: Table<LinkKey, Link>>(
    links: &mut LinkSet<L>,
    faces: &[Interface],
    iface: usize,
    now: u64,
    hold: u64,
) -> Result<(), AllocError>
    requires now { now < 2 ^ 62 }
    requires hold { hold < 2 ^ 62 }
    ensures { OnOk result ((face : Interface) → slice_get faces.now iface ≡ Some face → AdmitsLinks face.admit hold now links.old links.new) }
{
    match faces.get(iface) {
        Some(face) => links.admit(now, hold, &face.admit),
        None => Ok(()),
    }
}

/// The taking of a HELLO on an interface: the moment, the hold time of links, which links the interface admits, what the HELLO
/// shows of its link, the addresses of the neighbours that it speaks of, those that it tells of, and the keys of the links of all
/// these.
#[derive(Clone, Copy)]
pub struct Hearing<'a> {
    pub moment: u64,
    pub hold: u64,
    pub iface: usize,
    pub rule: &'a Admit,
    pub shown: &'a Shown,
    pub theirs: &'a [Addr4],
    pub listed: &'a [Addr4],
    pub keys: &'a [LinkKey],
}

/// Hears the HELLO, if it came over these links.
fn hear_here<L: Table<LinkKey, Link>>(
    hearing: &Hearing,
    links: &mut LinkSet<L>,
    here: bool,
) -> Result<(), AllocError>
    requires ready { CanHearHello hearing.now.moment hearing.now.hold hearing.now.shown.now }
    requires distinct { HasDistinctKeys link_eq links.old }
    ensures elsewhere { OnOk result (here ≡ false → links.new ≡ links.old) }
    ensures here { OnOk result (here ≡ true → (least : LinkKey) → slice_get hearing.now.shown.now.sending 0 ≡ Some least.addr
        → HearsOn hearing.now.rule.now hearing.now.shown.now least hearing.now.hold hearing.now.moment links.old links.new) }
    ensures distinct { HasDistinctKeys link_eq links.new }
{
    if here {
        links.hear(hearing.moment, hearing.hold, hearing.shown, hearing.rule)
    } else {
        Ok(())
    }
}

/// A change of the links and the 2-hop tuples of all interfaces: expiry, or the taking of a HELLO.
#[derive(Clone, Copy)]
pub enum Change<'a> {
    Expiry(Expiry<'a>),
    Hearing(Hearing<'a>),
}

/// Makes the change on the interface of that number. After an allocation failure its links and its 2-hop tuples may only be dropped.
fn change_on<L: Table<LinkKey, Link>, H: PlacedTable<TwoHopKey, TwoHop>>(
    alloc: Global,
    change: &Change,
    iface: usize,
    links: &mut LinkSet<L>,
    two_hops: &mut TwoHopSet<H>,
) -> Result<(), AllocError>
    requires ready { CanChange change.now }
    ensures { OnOk result (ChangesOn change.now iface links.old links.new two_hops.old two_hops.new) }
{
    match change {
        Change::Expiry(expiry) => {
            let before = link_keys(alloc, links)?;
            admit_on(links, expiry.faces, iface, expiry.now, expiry.hold)?;
            links.expire(expiry.now);
            two_hops.expire(expiry.now);
            drop_ended(links, two_hops, &before, expiry.now);
        }
        Change::Hearing(hearing) => {
            links.end_outside(hearing.theirs, hearing.listed);
            hear_here(hearing, links, iface == hearing.iface)?;
            drop_ended(links, two_hops, hearing.keys, hearing.moment);
        }
    }
    two_hops.keys_are_distinct();
    Ok(())
}

/// Makes the change on all interfaces.
pub fn change_all<B: Bases>(
    alloc: Global,
    change: &Change,
    sets: &mut NeighbourhoodSets<B>,
) -> Result<(), AllocError>
    requires ready { CanChange change.now }
    requires length { length sets.old.links ≡ length sets.old.two_hops }
    ensures { OnOk result (ChangesEach (ChangesOn change.now) sets.old sets.new) }
{
    for i in 0..sets.links.len() {
        change_on(alloc, change, i, &mut sets.links[i], &mut sets.two_hops[i])?;
    }
    Ok(())
}
