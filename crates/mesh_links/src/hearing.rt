//! What a HELLO makes of the links of the interface that hears it (RFC 6130, section 12.5).
ghost use Rattle.std.specs.Prelude.{◌≡◌, ◌≢◌, ℕ, OnOk, OnErr, IfSome, IfNone, Some, slice_get};
ghost use Rattle.mesh_atoms.specs.declared.tuples.Link.{Link};
ghost use Rattle.mesh_atoms.specs.declared.tuples.LinkKey.{LinkKey};
ghost use Rattle.mesh_atoms.specs.Base.{HasDistinctKeys, SetsOnly, find, link_eq};
ghost use Rattle.mesh_atoms.specs.AfterHello.{LinkKeptOrMade, made, renewed};
ghost use Rattle.mesh_links.specs.Links.{CanHearHello, HasRoom, HearsOn};
ghost use Rattle.mesh_links.specs.Owners.{SoundLinks, OwnsAll, IsFewer};

use crate::addresses::are_same;
use crate::ending::{LinksToEnd, end_all};
use crate::owners::own_all;
use crate::renewal::{LinkHearing, make, renew};
use indexmap::IndexMap;
use mesh_atoms::{Addr4, Link, LinkKey};
use mesh_expire::Table;
use std::alloc::AllocError;

/// The moment of the link with that key, where it has these addresses.
fn standing<T: Table<LinkKey, Link>>(table: &T, key: LinkKey, addrs: &[Addr4]) -> Option<u64>
    ensures some { IfSome result (λ until. (link : Link) × (find link_eq (T.content table.now) key ≡ Some (link, until)) × (link.addrs ≡ addrs.now)) }
    ensures none { IfNone result ((e : Link × ℕ) → find link_eq (T.content table.now) key ≡ Some e → e.0.addrs ≢ addrs.now) }
{
    let (link, until) = table.get(&key)?;
    if are_same(link.addrs.as_slice(), addrs) {
        Some(until)
    } else {
        None
    }
}

/// Renews the link with that key and moment, but for the moment; the moment up to which it then stays.
fn renew_value<T: Table<LinkKey, Link>>(
    table: &mut T,
    key: &LinkKey,
    until: u64,
    hearing: &LinkHearing,
) -> u64
    requires ready { CanHearHello hearing.now.moment hearing.now.hold hearing.now.shown.now }
    requires room { HasRoom (T.content table.old) }
    ensures renewed { (link : Link) → find link_eq (T.content table.old) key.now ≡ Some (link, until)
        → (after : Link) × ((after, result) ≡ renewed hearing.now.shown.now hearing.now.hold hearing.now.moment (link, until)) × SetsOnly link_eq (T.content table.old) (T.content table.new) key.now (Some (after, until)) }
    ensures room { HasRoom (T.content table.new) }
    ensures distinct { HasDistinctKeys link_eq (T.content table.new) }
    ensures fewer { IsFewer (T.content table.old) (T.content table.new) }
{
    match table.value_mut(key) {
        Some(link) => renew(link, until, hearing),
        None => until,
    }
}

/// Renews the link with that key and moment.
fn renew_standing<T: Table<LinkKey, Link>>(
    table: &mut T,
    key: LinkKey,
    until: u64,
    hearing: &LinkHearing,
) -> Result<(), AllocError>
    requires ready { CanHearHello hearing.now.moment hearing.now.hold hearing.now.shown.now }
    requires room { HasRoom (T.content table.old) }
    ensures ok { (link : Link) → find link_eq (T.content table.old) key ≡ Some (link, until)
        → OnOk result (SetsOnly link_eq (T.content table.old) (T.content table.new) key (Some (renewed hearing.now.shown.now hearing.now.hold hearing.now.moment (link, until)))) }
    ensures room { HasRoom (T.content table.new) }
    ensures distinct { HasDistinctKeys link_eq (T.content table.new) }
    ensures fewer { IsFewer (T.content table.old) (T.content table.new) }
{
    let until = renew_value(table, &key, until, hearing);
    table.set_until(&key, until)?;
    Ok(())
}

/// Makes the link with the sending list, in place of one that had its key.
fn put_made<T: Table<LinkKey, Link>>(
    table: &mut T,
    key: LinkKey,
    hearing: &LinkHearing,
) -> Result<(), AllocError>
    requires ready { CanHearHello hearing.now.moment hearing.now.hold hearing.now.shown.now }
    requires room { HasRoom (T.content table.old) }
    requires distinct { HasDistinctKeys link_eq (T.content table.old) }
    ensures ok { OnOk result (SetsOnly link_eq (T.content table.old) (T.content table.new) key (Some (renewed hearing.now.shown.now hearing.now.hold hearing.now.moment (made hearing.now.rule.now hearing.now.shown.now hearing.now.moment)))) }
    ensures room { HasRoom (T.content table.new) }
    ensures distinct { HasDistinctKeys link_eq (T.content table.new) }
    ensures err { OnErr result (T.content table.new ≡ T.content table.old) }
{
    let mut link = make(hearing)?;
    let until = renew(&mut link, hearing.moment + hearing.shown.validity, hearing);
    table.put(key, link, until)
}

/// Renews the link with that key where it has the sending list, else makes it. The key is noted for each of its addresses.
fn renew_at<T: Table<LinkKey, Link>>(
    table: &mut T,
    owners: &IndexMap<Addr4, LinkKey>,
    key: LinkKey,
    hearing: &LinkHearing,
) -> Result<(), AllocError>
    requires ready { CanHearHello hearing.now.moment hearing.now.hold hearing.now.shown.now }
    requires sound { SoundLinks owners.now.entries (T.content table.old) }
    requires mine { OwnsAll owners.now.entries hearing.now.shown.now.sending key }
    requires first { slice_get hearing.now.shown.now.sending 0 ≡ Some key.addr }
    ensures ok { OnOk result ((start : Link × ℕ) × LinkKeptOrMade hearing.now.rule.now hearing.now.shown.now hearing.now.moment (find link_eq (T.content table.old) key) start
        × SetsOnly link_eq (T.content table.old) (T.content table.new) key (Some (renewed hearing.now.shown.now hearing.now.hold hearing.now.moment start))) }
    ensures sound { SoundLinks owners.now.entries (T.content table.new) }
{
    match standing(table, key, hearing.shown.sending.as_slice()) {
        Some(until) => renew_standing(table, key, until, hearing),
        None => put_made(table, key, hearing),
    }
}

/// The links after a HELLO, with the map from addresses to them: first the others end, then the map leads from each address of
/// the sending list to its link, and then that link is renewed or made. Addresses of links that ended stay in the map up to the
/// next purge. After an allocation failure the table and the map may only be dropped.
pub fn hear_on<T: Table<LinkKey, Link>>(
    table: &mut T,
    owners: &mut IndexMap<Addr4, LinkKey>,
    hearing: &LinkHearing,
) -> Result<(), AllocError>
    requires ready { CanHearHello hearing.now.moment hearing.now.hold hearing.now.shown.now }
    requires sound { SoundLinks owners.old.entries (T.content table.old) }
    ensures ok { OnOk result ((least : LinkKey) → slice_get hearing.now.shown.now.sending 0 ≡ Some least.addr → HearsOn hearing.now.rule.now hearing.now.shown.now least hearing.now.hold hearing.now.moment (T.content table.old) (T.content table.new)) }
    ensures sound { SoundLinks owners.new.entries (T.content table.new) }
{
    match hearing.shown.sending.get(0) {
        Some(addr) => {
            let key = LinkKey { addr: *addr };
            let sending = hearing.shown.sending.as_slice();
            end_all(table, owners, sending, LinksToEnd::Beside(sending));
            own_all(owners, sending, key)?;
            renew_at(table, owners, key, hearing)
        }
        None => Ok(()),
    }
}
