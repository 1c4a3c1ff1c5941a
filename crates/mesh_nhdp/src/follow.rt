//! Neighbours and lost addresses follow the links (RFC 6130, sections 12.3, 12.4 and 13).
ghost use Rattle.std.specs.Prelude.{◌<◌, length, OnOk};
ghost use Rattle.mesh_atoms.specs.Words.{IsAscending};
ghost use Rattle.mesh_hello.specs.Told.Telling.{told_of};
ghost use Rattle.mesh_nhdp.specs.Follows.{FollowsLinks, FollowsLinksOf, RenewsNeighbour};

use crate::near_addresses::{WantedNeighbours, symmetric_at, wanted_addresses};
use crate::notes::{notes_among, notes_of};
use crate::sets::NeighbourhoodSets;
use mesh_atoms::Addr4;
use mesh_expire::Bases;
use mesh_hello::HelloInfo;
use std::alloc::{AllocError, Global};

/// Sets the neighbours as their links have them, and the addresses as lost until that moment that were a symmetric
/// neighbour's and are none's now (RFC 6130, sections 12.4 and 13). After an allocation failure the sets may only be dropped.
pub fn follow_links<B: Bases>(
    alloc: Global,
    now: u64,
    before: &[Addr4],
    until: u64,
    sets: &mut NeighbourhoodSets<B>,
) -> Result<(), AllocError>
    ensures { OnOk result (FollowsLinks now before.now until sets.old sets.new) }
{
    let notes = notes_of(alloc, &sets.links, now)?;
    sets.neighbours.expire(&notes)?;
    let after = wanted_addresses(alloc, sets.neighbours.table(), WantedNeighbours::Symmetric)?;
    sets.losts.settle_lost(before, &after, until)
}

/// The neighbour that a HELLO speaks of (RFC 6130, section 12.3): what the HELLO tells of it, the addresses of the symmetric neighbours
/// that become this one, and the moment, in ticks of 1/8192 s, until which those of these addresses are lost that it doesn't have.
#[derive(Clone, Copy)]
pub struct SendingNeighbour<'a> {
    pub telling: &'a HelloInfo,
    pub before: &'a [Addr4],
    pub until: u64,
}

/// Sets the neighbour that the HELLO speaks of, which has the listed addresses, as its links have it, and the addresses as lost that
/// were a symmetric neighbour's, of those that became this one, and aren't this one's now. Looks at no other neighbour.
/// After an allocation failure the sets may only be dropped.
fn follow_links_of<B: Bases>(
    alloc: Global,
    now: u64,
    neighbour: &SendingNeighbour,
    sets: &mut NeighbourhoodSets<B>,
) -> Result<(), AllocError>
    ensures { OnOk result (FollowsLinksOf now neighbour.now.telling.now.originator neighbour.now.telling.now.listed
        neighbour.now.before.now neighbour.now.until sets.old sets.new) }
{
    let originator = neighbour.telling.originator;
    let listed = neighbour.telling.listed.as_slice();
    let notes = notes_among(alloc, &sets.links, listed, now)?;
    sets.neighbours.follow(originator, &notes)?;
    let after = symmetric_at(sets.neighbours.table(), originator);
    sets.losts
        .settle_lost(neighbour.before, after, neighbour.until)
}

/// Makes one neighbour of all that a HELLO speaks of, and sets it as its links have it, with the addresses as lost that were a
/// symmetric neighbour's, of those that became this one, and aren't this one's now. Looks at no other neighbour. After an allocation failure
/// the sets may only be dropped.
pub fn renew_neighbour<B: Bases>(
    alloc: Global,
    now: u64,
    neighbour: &SendingNeighbour,
    sets: &mut NeighbourhoodSets<B>,
) -> Result<(), AllocError>
    requires ascending { IsAscending neighbour.now.telling.now.listed }
    requires some { 0 < length neighbour.now.telling.now.listed }
    ensures { OnOk result (RenewsNeighbour now (told_of neighbour.now.telling.now) neighbour.now.before.now neighbour.now.until sets.old sets.new) }
{
    let telling = neighbour.telling;
    sets.neighbours.replace(
        telling.originator,
        telling.listed.as_slice(),
        telling.willing,
        telling.routing,
        now,
    )?;
    follow_links_of(alloc, now, neighbour, sets)
}
