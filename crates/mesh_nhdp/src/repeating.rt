//! Whether what a HELLO tells of its link and its neighbour is held already, so that its taking changes nothing of them but moments (RFC
//! 6130, section 12).
ghost use Rattle.std.specs.Prelude.{◌≡◌, ◌↔◌, ◌&&◌, IsTrue};
ghost use Rattle.mesh_hello.specs.Told.Telling.{told_of};
ghost use Rattle.mesh_nhdp.specs.Repeats.{Repeats, RepeatsLink, RepeatsNeighbour, RepeatsStatus};

use crate::sets::NeighbourhoodSets;
use mesh_atoms::{Addr4, Link, LinkKey, LinkStatus, Lost, Metric, Neighbour, Shown, Willing};
use mesh_expire::{Bases, Table};
use mesh_hello::HelloInfo;
use mesh_links::LinkSet;
use mesh_nbrs::NeighbourSet;

/// Whether two metrics, which may be unknown, are the same.
fn is_metric_same(metric: Option<Metric>, other: Option<Metric>) -> bool
    ensures { IsTrue result ↔ (metric ≡ other) }
{
    metric == other
}

/// Whether two routers are as willing.
fn is_willing_same(willing: Willing, other: Willing) -> bool
    ensures { IsTrue result ↔ (willing ≡ other) }
{
    willing == other
}

/// Whether two lists of addresses are the same.
fn are_addrs_same(addrs: &[Addr4], others: &[Addr4]) -> bool
    ensures { IsTrue result ↔ (addrs.now ≡ others.now) }
{
    addrs == others
}

/// Whether two flags are the same.
fn is_flag_same(flag: bool, other: bool) -> bool
    ensures { IsTrue result ↔ (flag ≡ other) }
{
    flag == other
}

/// Whether what a HELLO shows of the link leaves that SYMMETRIC, at the same metric, or not SYMMETRIC.
fn is_status_repeated(link: &Link, shown: &Shown, now: u64) -> bool
    ensures { IsTrue result → RepeatsStatus shown.now now link.now shown.now.status }
{
    match shown.status {
        None => true,
        Some(LinkStatus::Lost) => !link.is_symmetric(now),
        Some(_) => {
            link.pending
                || link.lost
                || link.is_symmetric(now) && is_metric_same(link.link_out, shown.link_out)
        }
    }
}

/// Whether the link has the sending list, and what the HELLO shows of it leaves it SYMMETRIC, at the same metric, or not SYMMETRIC.
fn is_shown(link: &Link, shown: &Shown, now: u64) -> bool
    ensures addrs { IsTrue result → link.now.addrs ≡ shown.now.sending }
    ensures status { IsTrue result → RepeatsStatus shown.now now link.now shown.now.status }
{
    if !is_status_repeated(link, shown, now) {
        return false;
    }
    are_addrs_same(link.addrs.as_slice(), shown.sending.as_slice())
}

/// Whether the link that the HELLO came over stands.
fn is_link_repeated<L: Table<LinkKey, Link>>(
    now: u64,
    telling: &HelloInfo,
    links: &LinkSet<L>,
) -> bool
    ensures { IsTrue result → RepeatsLink now (told_of telling.now) links.now }
{
    let Some((link, _)) = links.table().get(&telling.least) else {
        return false;
    };
    is_shown(link, &telling.shown, now)
}

/// Whether the neighbour is as the HELLO tells of it, but for what its links say.
fn is_told(neighbour: &Neighbour, telling: &HelloInfo) -> bool
    ensures addrs { IsTrue result → neighbour.now.addrs ≡ telling.now.listed }
    ensures willing { IsTrue result → neighbour.now.willing ≡ telling.now.willing }
    ensures selector { IsTrue result → neighbour.now.selector ≡ (telling.now.routing && neighbour.now.symmetric) }
{
    let selector = telling.routing && neighbour.symmetric;
    if !is_flag_same(neighbour.selector, selector) {
        return false;
    }
    if !is_willing_same(neighbour.willing, telling.willing) {
        return false;
    }
    are_addrs_same(neighbour.addrs.as_slice(), telling.listed.as_slice())
}

/// Whether the neighbour that the HELLO tells of stands, with the same addresses, willingness and routing selector flag.
fn is_neighbour_repeated<N: Table<Addr4, Neighbour>>(
    neighbours: &NeighbourSet<N>,
    telling: &HelloInfo,
) -> bool
    ensures { IsTrue result → RepeatsNeighbour (told_of telling.now) neighbours.now }
{
    let Some((neighbour, _)) = neighbours.table().get(&telling.originator) else {
        return false;
    };
    is_told(neighbour, telling)
}

/// Whether what the HELLO tells of its link and its neighbour is held already, but for moments. Looks up these two alone. Takes no memory.
pub fn is_repeated<B: Bases>(
    now: u64,
    iface: usize,
    telling: &HelloInfo,
    sets: &NeighbourhoodSets<B>,
) -> bool
    ensures { IsTrue result → Repeats now iface (told_of telling.now) sets.now }
{
    if !is_neighbour_repeated(&sets.neighbours, telling) {
        return false;
    }
    match sets.links_on(iface) {
        Some(links) => is_link_repeated(now, telling, links),
        None => false,
    }
}
