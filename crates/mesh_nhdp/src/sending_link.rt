//! The 2-hop tuples of the link that a HELLO came over (RFC 6130, section 12.6).
ghost use Rattle.std.specs.Prelude.{◌≡◌, ◌≢◌, ◌↔◌, ◌<◌, ℕ, length, Some, IsTrue, true, false, IfOk, OnOk};
ghost use Rattle.mesh_atoms.specs.Base.{base_of, find, link_eq};
ghost use Rattle.mesh_atoms.specs.HelloTold.{Told};
ghost use Rattle.mesh_atoms.specs.declared.tuples.Link.{Link};
ghost use Rattle.mesh_atoms.specs.declared.settings.RouterSettings.{RouterSettings};
ghost use Rattle.mesh_nbrs.specs.TwoHops.TwoHops.{DropsLink};
ghost use Rattle.mesh_hello.specs.Told.Telling.{AreOwnAddresses};
ghost use Rattle.mesh_nhdp.specs.Calls.{TellsTwoHops};
ghost use Rattle.mesh_nhdp.specs.Hearings.{UpdatesTwoHops};
ghost use Rattle.mesh_nhdp.specs.Repeats.{RepeatsRows};

use crate::two_hop_rows::{TwoHopRows, tell_two_hops};
use mesh_atoms::{Addr4, Link, LinkKey, TwoHop, TwoHopKey};
use mesh_expire::{PlacedTable, Table};
use mesh_links::LinkSet;
use mesh_nbrs::TwoHopSet;
use std::alloc::AllocError;

/// Whether the link with that key has exactly these addresses.
pub fn has_link<L: Table<LinkKey, Link>>(links: &LinkSet<L>, key: LinkKey, addrs: &[Addr4]) -> bool
    ensures { IsTrue result ↔ ((e : Link × ℕ) × (find link_eq links.now key ≡ Some e) × (e.0.addrs ≡ addrs.now)) }
{
    match links.table().get(&key) {
        Some((link, _)) => link.addrs.as_slice() == addrs,
        None => false,
    }
}

/// Takes out the tuples of the link, where it is a new one.
fn start_two_hops<H: PlacedTable<TwoHopKey, TwoHop>>(
    two_hops: &mut TwoHopSet<H>,
    link: LinkKey,
    stood: bool,
)
    ensures stood { stood ≡ true → two_hops.new ≡ two_hops.old }
    ensures anew { stood ≡ false → DropsLink link two_hops.old two_hops.new }
{
    if !stood {
        two_hops.drop_link(link);
    }
}

/// Makes of the tuples of the link what the rows of the HELLO tell, where it is SYMMETRIC; whether all those rows repeat what was held.
fn tell_if_symmetric<H: PlacedTable<TwoHopKey, TwoHop>>(
    two_hops: &mut TwoHopSet<H>,
    rows: &TwoHopRows,
    symmetric: bool,
) -> Result<bool, AllocError>
    ensures rows { OnOk result (symmetric ≡ true → (settings : RouterSettings) (told : Told) → AreOwnAddresses settings rows.now.own.now
        → told.listed ≡ rows.now.listed.now → TellsTwoHops settings told rows.now.hello.now rows.now.link rows.now.until two_hops.old two_hops.new) }
    ensures no_rows { OnOk result (symmetric ≡ false → two_hops.new ≡ two_hops.old) }
    ensures repeats { IfOk result (λ repeats. IsTrue repeats → symmetric ≡ true
        → RepeatsRows rows.now.own.now rows.now.listed.now two_hops.old rows.now.link rows.now.hello.now) }
{
    if symmetric {
        tell_two_hops(two_hops, rows)
    } else {
        Ok(true)
    }
}

/// Brings the tuples of the link that the HELLO came over up to date: where it is a new one they go, and where it is SYMMETRIC
/// they are made as the rows tell; whether it stood, and all those rows repeat what was held.
pub fn update_two_hops<H: PlacedTable<TwoHopKey, TwoHop>>(
    two_hops: &mut TwoHopSet<H>,
    rows: &TwoHopRows,
    stood: bool,
    symmetric: bool,
) -> Result<bool, AllocError>
    ensures updates { OnOk result (UpdatesTwoHops stood symmetric rows.now.own.now rows.now.listed.now rows.now.hello.now rows.now.link rows.now.until
        two_hops.old two_hops.new) }
    ensures repeats { IfOk result (λ repeats. IsTrue repeats → symmetric ≡ true
        → RepeatsRows rows.now.own.now rows.now.listed.now two_hops.old rows.now.link rows.now.hello.now) }
{
    start_two_hops(two_hops, rows.link, stood);
    let repeats = tell_if_symmetric(two_hops, rows, symmetric)?;
    two_hops.keys_are_distinct();
    Ok(stood & repeats)
}
