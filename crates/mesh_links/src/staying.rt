//! Whether anything becomes of links at a moment (RFC 6130, section 13).
ghost use Rattle.std.specs.Prelude.{◌≡◌, ◌↔◌, ◌<◌, ◌^◌, ℕ, IsTrue, Some, slice_get};
ghost use Rattle.mesh_atoms.specs.declared.tuples.LinkKey.{LinkKey};
ghost use Rattle.mesh_atoms.specs.declared.tuples.Link.{Link};
ghost use Rattle.mesh_atoms.specs.Quality.{admitted};
ghost use Rattle.mesh_links.specs.Links.{IsLinkUnchanged, AllStay};
ghost use Rattle.mesh_links.specs.Rulings.{is_steady};

use crate::admittance::{is_steady, ruling_on};
use mesh_atoms::{Admit, Link, LinkKey};
use mesh_expire::Table;

/// Whether a link with that moment is as its quality has it.
fn is_admitted_so(link: &Link, until: u64, now: u64, hold: u64, rule: &Admit, steady: bool) -> bool
    requires now { now < 2 ^ 62 }
    requires hold { hold < 2 ^ 62 }
    requires steady { steady ≡ is_steady rule.now }
    ensures { IsTrue result ↔ (admitted rule.now hold now (link.now, until) ≡ (link.now, until)) }
{
    match ruling_on(link, until, now, hold, rule, steady) {
        Some(_) => false,
        None => true,
    }
}

/// Whether nothing becomes of a link with that moment.
fn is_unchanged(
    link: &Link,
    until: u64,
    last: u64,
    now: u64,
    hold: u64,
    rule: &Admit,
    steady: bool,
) -> bool
    requires now { now < 2 ^ 62 }
    requires hold { hold < 2 ^ 62 }
    requires steady { steady ≡ is_steady rule.now }
    ensures { IsTrue result ↔ IsLinkUnchanged rule.now hold last now (link.now, until) }
{
    now < until
        && link.is_symmetric(now) == link.is_symmetric(last)
        && is_admitted_so(link, until, now, hold, rule, steady)
}

/// Whether nothing becomes of the link at a place.
fn is_unchanged_at<T: Table<LinkKey, Link>>(
    table: &T,
    place: usize,
    last: u64,
    now: u64,
    hold: u64,
    rule: &Admit,
    steady: bool,
) -> bool
    requires now { now < 2 ^ 62 }
    requires hold { hold < 2 ^ 62 }
    requires steady { steady ≡ is_steady rule.now }
    ensures { IsTrue result ↔ ((x : LinkKey × (Link × ℕ)) → slice_get (T.content table.now) place ≡ Some x → IsLinkUnchanged rule.now hold last now x.1) }
{
    match table.at(place) {
        Some((_, link, until)) => is_unchanged(link, until, last, now, hold, rule, steady),
        None => true,
    }
}

/// Whether nothing becomes of any link. Looks at each of them once, up to the first of which something becomes. Takes no
/// memory.
pub fn are_all_unchanged<T: Table<LinkKey, Link>>(
    table: &T,
    last: u64,
    now: u64,
    hold: u64,
    rule: &Admit,
) -> bool
    requires now { now < 2 ^ 62 }
    requires hold { hold < 2 ^ 62 }
    ensures { IsTrue result ↔ AllStay rule.now hold last now (T.content table.now) }
{
    let steady = is_steady(rule);
    for place in 0..table.len() {
        if !is_unchanged_at(table, place, last, now, hold, rule, steady) {
            return false;
        }
    }
    true
}
