//! What a HELLO makes of the link with its sending list (RFC 6130, sections 12.5 and 14, and RFC 7181, section
//! 15.3).
ghost use Rattle.std.specs.Prelude.{◌≡◌, ◌<◌, ◌+◌, ◌^◌, ℕ, IfOk};
ghost use Rattle.mesh_atoms.specs.Live.{trimmed};
ghost use Rattle.mesh_atoms.specs.AfterHello.{by_status, by_hearing, made, renewed};
ghost use Rattle.mesh_links.specs.Links.{CanHearHello};

use mesh_atoms::{Admit, Link, LinkStatus, Shown, quality_at};
use std::alloc::AllocError;

/// The hearing of a HELLO by an interface: the moment and the hold time of links, in ticks of 1/8192 s, which links the interface
/// admits, and what the HELLO shows of its link.
#[derive(Clone, Copy)]
pub struct LinkHearing<'a> {
    pub moment: u64,
    pub hold: u64,
    pub rule: &'a Admit,
    pub shown: &'a Shown,
}

/// Takes link_out and the selector flag from a link that isn't SYMMETRIC (RFC 7181, section 8.1).
pub fn trim(link: &mut Link, now: u64)
    ensures trimmed { (until : ℕ) → (link.new, until) ≡ trimmed now (link.old, until) }
    ensures sym { link.new.sym ≡ link.old.sym }
{
    if !link.is_symmetric(now) {
        link.link_out = None;
        link.selector = false;
    }
}

/// What the HELLO says of the link; the moment up to which the link then stays.
fn tell(link: &mut Link, until: u64, hearing: &LinkHearing) -> u64
    requires ready { CanHearHello hearing.now.moment hearing.now.hold hearing.now.shown.now }
    ensures told { (link.new, result) ≡ by_status hearing.now.shown.now hearing.now.hold hearing.now.moment hearing.now.shown.now.status (link.old, until) }
    ensures sym { link.old.sym < 2 ^ 63 → link.new.sym < 2 ^ 63 }
{
    match hearing.shown.status {
        None => until,
        Some(LinkStatus::Lost) => {
            link.sym = 0;
            if link.is_heard(hearing.moment) {
                hearing.moment + hearing.hold
            } else {
                until
            }
        }
        Some(_) => {
            link.sym = hearing.moment + hearing.shown.validity;
            link.link_out = hearing.shown.link_out;
            link.selector = hearing.shown.selector;
            until
        }
    }
}

/// The link is heard up to the HELLO's validity at least; the moment up to which it then stays.
fn hold_on(link: &mut Link, until: u64, hearing: &LinkHearing) -> u64
    requires ready { CanHearHello hearing.now.moment hearing.now.hold hearing.now.shown.now }
    requires sym { link.old.sym < 2 ^ 63 }
    ensures heard { (link.new, result) ≡ by_hearing hearing.now.shown.now hearing.now.hold hearing.now.moment (link.old, until) }
    ensures sym { link.new.sym ≡ link.old.sym }
{
    link.heard = u64::max(hearing.moment + hearing.shown.validity, link.sym);
    if link.pending {
        u64::max(until, link.heard)
    } else if link.is_symmetric(hearing.moment) || link.is_heard(hearing.moment) {
        u64::max(until, link.heard + hearing.hold)
    } else {
        until
    }
}

/// The link after the HELLO; the moment up to which it then stays.
pub fn renew(link: &mut Link, until: u64, hearing: &LinkHearing) -> u64
    requires ready { CanHearHello hearing.now.moment hearing.now.hold hearing.now.shown.now }
    requires sym { link.old.sym < 2 ^ 63 }
    ensures renewed { (link.new, result) ≡ renewed hearing.now.shown.now hearing.now.hold hearing.now.moment (link.old, until) }
    ensures sym { link.new.sym < 2 ^ 63 }
{
    let until = tell(link, until, hearing);
    trim(link, hearing.moment);
    hold_on(link, until, hearing)
}

/// The link that is made where none has the sending list: PENDING where the rule doesn't accept its quality.
pub fn make(hearing: &LinkHearing) -> Result<Link, AllocError>
    ensures { IfOk result (λ link. (link, hearing.now.moment + hearing.now.shown.now.validity) ≡ made hearing.now.rule.now hearing.now.shown.now hearing.now.moment) }
{
    let shown = hearing.shown;
    let quality = quality_at(hearing.rule, shown.sending.as_slice(), hearing.moment);
    Ok(Link {
        addrs: shown.sending.copy()?,
        heard: 0,
        sym: 0,
        quality,
        pending: quality < hearing.rule.accept,
        lost: false,
        link_in: shown.link_in,
        link_out: None,
        selector: false,
    })
}
