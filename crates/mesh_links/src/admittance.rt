//! Which links are admitted, by their quality (RFC 6130, section 14).
ghost use Rattle.std.specs.Prelude.{◌≡◌, ◌↔◌, ◌<◌, ◌^◌, ℕ, IsTrue, IfSome, IfNone, OnOk, OnErr, Some, slice_get};
ghost use Rattle.mesh_atoms.specs.declared.tuples.LinkKey.{LinkKey};
ghost use Rattle.mesh_atoms.specs.declared.tuples.Link.{Link};
ghost use Rattle.mesh_atoms.specs.Base.{HasDistinctKeys, link_eq};
ghost use Rattle.mesh_atoms.specs.Quality.{quality_at, by_quality, admitted};
ghost use Rattle.mesh_expire.specs.Table.{changed_at};
ghost use Rattle.mesh_links.specs.Links.{HasRoom, AdmitsLinks};
ghost use Rattle.mesh_links.specs.Owners.{IsFewer};
ghost use Rattle.mesh_links.specs.Rulings.{ruled, is_steady};

use mesh_atoms::{Admit, Link, LinkKey, quality_at};
use mesh_expire::Table;
use std::alloc::AllocError;

/// What its quality makes of a link, and up to which moment the link then stays.
#[derive(Clone, Copy)]
pub struct Ruling {
    pub quality: u8,
    pub pending: bool,
    pub lost: bool,
    pub until: u64,
}

/// What that quality makes of a link with that moment.
fn rule_on(link: &Link, until: u64, quality: u8, now: u64, hold: u64, rule: &Admit) -> Ruling
    requires now { now < 2 ^ 62 }
    requires hold { hold < 2 ^ 62 }
    ensures { ruled result link.now ≡ by_quality rule.now hold now quality (link.now, until) }
{
    if rule.accept <= quality {
        Ruling {
            quality,
            pending: false,
            lost: false,
            until,
        }
    } else if quality < rule.reject && !(link.pending || link.lost) {
        Ruling {
            quality,
            pending: link.pending,
            lost: true,
            until: u64::min(until, now + hold),
        }
    } else {
        Ruling {
            quality,
            pending: link.pending,
            lost: link.lost,
            until,
        }
    }
}

/// Whether the link with that moment is already as the ruling has it.
fn is_as_ruled(link: &Link, until: u64, ruling: Ruling) -> bool
    ensures { IsTrue result ↔ (ruled ruling link.now ≡ (link.now, until)) }
{
    link.quality == ruling.quality
        && link.pending == ruling.pending
        && link.lost == ruling.lost
        && until == ruling.until
}

/// Whether no sender has a step, so that every quality is 100.
pub fn is_steady(rule: &Admit) -> bool
    ensures { result ≡ is_steady rule.now }
{
    for sender in rule.senders.as_slice() {
        if sender.steps.len() != 0 {
            return false;
        }
    }
    true
}

/// The quality of a link; where the rule is a steady one no sender is looked at.
fn quality_of(link: &Link, now: u64, rule: &Admit, steady: bool) -> u8
    requires { steady ≡ is_steady rule.now }
    ensures { result ≡ quality_at rule.now link.now.addrs now }
{
    if steady {
        100
    } else {
        quality_at(rule, link.addrs.as_slice(), now)
    }
}

/// What its quality makes of a link with that moment; `None` where that is what it is.
pub fn ruling_on(
    link: &Link,
    until: u64,
    now: u64,
    hold: u64,
    rule: &Admit,
    steady: bool,
) -> Option<Ruling>
    requires now { now < 2 ^ 62 }
    requires hold { hold < 2 ^ 62 }
    requires steady { steady ≡ is_steady rule.now }
    ensures some { IfSome result (λ ruling. ruled ruling link.now ≡ admitted rule.now hold now (link.now, until)) }
    ensures changes { IfSome result (λ ruling. admitted rule.now hold now (link.now, until) ≡ (link.now, until) → ⊥) }
    ensures none { IfNone result (admitted rule.now hold now (link.now, until) ≡ (link.now, until)) }
{
    let quality = quality_of(link, now, rule, steady);
    let ruling = rule_on(link, until, quality, now, hold, rule);
    if is_as_ruled(link, until, ruling) {
        None
    } else {
        Some(ruling)
    }
}

/// Writes the ruling into the link with that key, but for its moment.
fn write_ruling<T: Table<LinkKey, Link>>(table: &mut T, key: &LinkKey, ruling: Ruling)
    ensures { T.content table.new ≡ changed_at link_eq (T.content table.old) key.now (λ e. ((ruled ruling e.0).0, e.1)) }
{
    if let Some(link) = table.value_mut(key) {
        link.quality = ruling.quality;
        link.pending = ruling.pending;
        link.lost = ruling.lost;
    }
}

/// Makes the link with that key what the ruling says.
fn set_ruling<T: Table<LinkKey, Link>>(
    table: &mut T,
    key: LinkKey,
    ruling: Ruling,
) -> Result<(), AllocError>
    ensures ok { OnOk result (T.content table.new ≡ changed_at link_eq (T.content table.old) key (λ e. ruled ruling e.0)) }
    ensures err { OnErr result (T.content table.new ≡ T.content table.old) }
{
    table.set_until(&key, ruling.until)?;
    write_ruling(table, &key, ruling);
    Ok(())
}

/// What its quality makes of the link at a place, with its key; `None` where that is what it is, or none is there.
fn ruling_at<T: Table<LinkKey, Link>>(
    table: &T,
    place: usize,
    now: u64,
    hold: u64,
    rule: &Admit,
    steady: bool,
) -> Option<(LinkKey, Ruling)>
    requires now { now < 2 ^ 62 }
    requires hold { hold < 2 ^ 62 }
    requires steady { steady ≡ is_steady rule.now }
    ensures some { IfSome result (λ found. (e : Link × ℕ) × (slice_get (T.content table.now) place ≡ Some (found.0, e)) × (ruled found.1 e.0 ≡ admitted rule.now hold now e)) }
    ensures none { IfNone result ((key : LinkKey) (e : Link × ℕ) → slice_get (T.content table.now) place ≡ Some (key, e) → admitted rule.now hold now e ≡ e) }
{
    let (key, link, until) = table.at(place)?;
    let ruling = ruling_on(link, until, now, hold, rule, steady)?;
    Some((*key, ruling))
}

/// Makes the link at a place what its quality makes of it.
fn admit_at<T: Table<LinkKey, Link>>(
    table: &mut T,
    place: usize,
    now: u64,
    hold: u64,
    rule: &Admit,
    steady: bool,
) -> Result<(), AllocError>
    requires now { now < 2 ^ 62 }
    requires hold { hold < 2 ^ 62 }
    requires steady { steady ≡ is_steady rule.now }
    requires distinct { HasDistinctKeys link_eq (T.content table.old) }
    ensures ok { OnOk result ((key : LinkKey) (e : Link × ℕ) → slice_get (T.content table.old) place ≡ Some (key, e)
        → T.content table.new ≡ changed_at link_eq (T.content table.old) key (admitted rule.now hold now)) }
    ensures err { OnErr result (T.content table.new ≡ T.content table.old) }
{
    match ruling_at(table, place, now, hold, rule, steady) {
        Some((key, ruling)) => set_ruling(table, key, ruling),
        None => Ok(()),
    }
}

/// Makes each link what its quality makes of it. Takes memory where a link is lost, and looks at each of them once.
pub fn admit_all<T: Table<LinkKey, Link>>(
    table: &mut T,
    now: u64,
    hold: u64,
    rule: &Admit,
) -> Result<(), AllocError>
    requires now { now < 2 ^ 62 }
    requires hold { hold < 2 ^ 62 }
    requires room { HasRoom (T.content table.old) }
    ensures ok { OnOk result (AdmitsLinks rule.now hold now (T.content table.old) (T.content table.new)) }
    ensures room { HasRoom (T.content table.new) }
    ensures distinct { HasDistinctKeys link_eq (T.content table.new) }
    ensures fewer { IsFewer (T.content table.old) (T.content table.new) }
{
    let steady = is_steady(rule);
    for place in 0..table.len() {
        admit_at(table, place, now, hold, rule, steady)?;
    }
    Ok(())
}
