//! The Link Set of one interface (RFC 6130, section 7.1).
ghost use Rattle.std.specs.Prelude.{◌≡◌, ◌+◌, ◌<◌, ◌^◌, ◌↔◌, ℕ, [], length, slice_get, IsTrue, IfOk, IfSome, IfNone, OnOk, Some};
ghost use Rattle.mesh_atoms.specs.Base.{Base, HasDistinctKeys, find, link_eq};
ghost use Rattle.mesh_atoms.specs.Words.{IsAscending};
ghost use Rattle.mesh_atoms.specs.declared.tuples.LinkKey.{LinkKey};
ghost use Rattle.mesh_atoms.specs.declared.tuples.Link.{Link};
ghost use Rattle.mesh_links.specs.Links.{status_at, HasLinkWith, SelectorOf, AllStay, AdmitsLinks, ExpiresLinks, EndsOutside, HearsOn};

use crate::admittance::admit_all;
use crate::ending::{LinksToEnd, end_all};
use crate::expiry::expire_all;
use crate::hearing::hear_on;
use crate::owners::{link_with, purge_after};
use crate::renewal::LinkHearing;
use crate::status::selector_of;
use crate::staying::are_all_unchanged;
use indexmap::IndexMap;
use mesh_atoms::{Addr4, Admit, Link, LinkKey, LinkState, Shown};
use mesh_expire::Table;
use std::alloc::{AllocError, Global};
use std::marker::Model;

/// The links of one interface, with a map from addresses to their keys. The map is tied one way: each address of a link leads
/// to it, and addresses of links that are gone may stand there up to the next purge, at `expire`. Moments are in ticks of
/// 1/8192 s. After an allocation failure the set may only be dropped.
#[derive(Drop)]
pub struct LinkSet<T: Table<LinkKey, Link>> {
    table: T,
    owners: IndexMap<Addr4, LinkKey>,
}

impl<T: Table<LinkKey, Link>> Model for LinkSet<T> {
    ghost use Rattle.mesh_atoms.specs.Base.{Base, HasDistinctKeys, link_eq};
    ghost use Rattle.mesh_links.specs.Links.{HasRoom};
    ghost use Rattle.mesh_links.specs.Owners.{HasLinkOwners};
    ghost use Rattle.mesh_atoms.specs.declared.tuples.LinkKey.{LinkKey};
    ghost use Rattle.mesh_atoms.specs.declared.tuples.Link.{Link};

    ghost Value = { Base LinkKey Link };

    ghost view = { λ s. T.content s.table };

    ghost invariant = { λ s. HasDistinctKeys link_eq (T.content s.table) × HasRoom (T.content s.table) × HasLinkOwners s.owners.entries (T.content s.table) };
}

impl<T: Table<LinkKey, Link>> LinkSet<T> {
    /// No links.
    pub fn new(alloc: Global) -> Result<LinkSet<T>, AllocError>
        ensures { IfOk result (λ set. set ≡ []) }
    {
        Ok(LinkSet {
            table: T::new(alloc)?,
            owners: IndexMap::new(alloc),
        })
    }

    /// The links as a table. Takes no memory.
    pub fn table(&self) -> &T
        ensures content { T.content result.now ≡ self.now }
        ensures distinct { HasDistinctKeys link_eq self.now }
    {
        &self.table
    }

    /// The status of the link with a key; `None` exactly where no link has it (RFC 6130, section 7.1). Takes no memory.
    pub fn status(&self, key: LinkKey, now: u64) -> Option<LinkState>
        ensures { result ≡ status_at (find link_eq self.now key) now }
    {
        let (link, _until) = self.table.get(&key)?;
        Some(link.state(now))
    }

    /// The link that has an address, with its key and its moment; `None` exactly where no link has it. Looks the address up
    /// once, and then the link. Takes no memory.
    pub fn with_address(&self, addr: Addr4) -> Option<(&LinkKey, &Link, u64)>
        ensures some { IfSome result (λ e. HasLinkWith self.now addr e.0.now (e.1.now, e.2)) }
        ensures only { IfSome result (λ e. (key : LinkKey) (other : Link × ℕ) → HasLinkWith self.now addr key other → key ≡ e.0.now) }
        ensures none { IfNone result ((key : LinkKey) (e : Link × ℕ) → HasLinkWith self.now addr key e → ⊥) }
        ensures distinct { HasDistinctKeys link_eq self.now }
    {
        link_with(&self.table, &self.owners, addr)
    }

    /// The selector flag of a SYMMETRIC link that has the sender's address; `None` exactly where there is no such link
    /// (RFC 7181, section 8.1). Takes no memory.
    pub fn symmetric_of(&self, sender: Addr4, now: u64) -> Option<bool>
        ensures { SelectorOf self.now now sender result }
    {
        selector_of(&self.table, &self.owners, sender, now)
    }

    /// Whether nothing becomes of any link at a moment: each is as its quality has it, none is expired, and each is SYMMETRIC
    /// where it was so at the last moment. The moment and the hold time are below 2^62. Looks at each link once. Takes no memory.
    pub fn are_unchanged(&self, last: u64, now: u64, hold: u64, rule: &Admit) -> bool
        requires now { now < 2 ^ 62 }
        requires hold { hold < 2 ^ 62 }
        ensures { IsTrue result ↔ AllStay rule.now hold last now self.now }
    {
        are_all_unchanged(&self.table, last, now, hold, rule)
    }

    /// Takes in what a HELLO shows of its link: the link with the sending list is renewed or made, PENDING where the rule
    /// doesn't accept its quality, and each other link that has an address of that list ends (RFC 6130, sections 12.5 and 14,
    /// and RFC 7181, section 15.3). The moment, the hold time and the validity are below 2^62. Copies the sending list where
    /// it makes a link, and takes memory for its addresses; looks each of them up once. Addresses of links that end stay in the
    /// map up to the next purge. After an allocation failure the set may only be dropped.
    pub fn hear(
        &mut self,
        now: u64,
        hold: u64,
        shown: &Shown,
        rule: &Admit,
    ) -> Result<(), AllocError>
        requires now { now < 2 ^ 62 }
        requires hold { hold < 2 ^ 62 }
        requires validity { 0 < shown.now.validity }
        requires validity_bound { shown.now.validity < 2 ^ 62 }
        requires ascending { IsAscending shown.now.sending }
        requires some { 0 < length shown.now.sending }
        ensures ok { OnOk result ((least : LinkKey) → slice_get shown.now.sending 0 ≡ Some least.addr → HearsOn rule.now shown.now least hold now self.old self.new) }
        ensures distinct { HasDistinctKeys link_eq self.new }
    {
        let hearing = LinkHearing {
            moment: now,
            hold,
            rule,
            shown,
        };
        hear_on(&mut self.table, &mut self.owners, &hearing)
    }

    /// Ends each link that has an address among the old ones and one outside the new ones, and gives their number
    /// (RFC 6130, section 12.3). Looks each of the old ones up once. Takes no memory.
    pub fn end_outside(&mut self, old: &[Addr4], new: &[Addr4]) -> usize
        ensures ended { EndsOutside old.now new.now self.old self.new }
        ensures count { result + length self.new ≡ length self.old }
        ensures distinct { HasDistinctKeys link_eq self.new }
    {
        end_all(
            &mut self.table,
            &self.owners,
            old,
            LinksToEnd::Outside(old, new),
        )
    }

    /// Brings each link in line with its quality: it is admitted where that is accepted, lost where it is rejected, and else as
    /// it was. One that becomes lost stays for the hold time at most (RFC 6130, section 14). The moment and the hold time are
    /// below 2^62. Looks at each link once, and takes memory where one becomes lost. After an allocation failure the set may only be
    /// dropped.
    pub fn admit(&mut self, now: u64, hold: u64, rule: &Admit) -> Result<(), AllocError>
        requires now { now < 2 ^ 62 }
        requires hold { hold < 2 ^ 62 }
        ensures ok { OnOk result (AdmitsLinks rule.now hold now self.old self.new) }
        ensures distinct { HasDistinctKeys link_eq self.new }
    {
        admit_all(&mut self.table, now, hold, rule)
    }

    /// Takes out the links that are expired, and link_out and the selector flag of those that aren't SYMMETRIC (RFC 6130,
    /// section 13). Looks each link up once. Takes no memory.
    pub fn expire(&mut self, now: u64)
        ensures expired { ExpiresLinks now self.old self.new }
        ensures distinct { HasDistinctKeys link_eq self.new }
    {
        let gone = expire_all(&mut self.table, now);
        purge_after(&mut self.owners, &self.table, gone);
    }
}
