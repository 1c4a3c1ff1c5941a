//! Which HELLOs their receiver refuses (RFC 6130, section 12.1).
ghost use Rattle.std.specs.Prelude.{◌≢◌, ◌↔◌, IsTrue, IfSome, IfNone, Contains, Any, Some};
ghost use Rattle.mesh_atoms.specs.Words.{IsValue};
ghost use Rattle.mesh_atoms.specs.HelloTold.{TellsLocal};
ghost use Rattle.mesh_atoms.specs.TakesHello.{IsNameless, IsFaultAt};
ghost use Rattle.mesh_hello.specs.Told.Receive.{IsLocalRow, IsLocalWith, HasOriginatorOf, IsBareSender, NamesAsSender};

use mesh_atoms::{Addr4, Hello, HelloRow, LocalIf, contains};

/// The address that a row tells as one of the sender's; `None` where it tells none.
fn local_host(row: &HelloRow) -> Option<Addr4>
    ensures some { IfSome result (λ a. (local : _) × IsLocalRow row.now a local) }
    ensures none { IfNone result ((a : _) (local : _) → IsLocalRow row.now a local → ⊥) }
{
    if row.local.is_some() && row.addr.prefix == 32 {
        Some(row.addr.addr)
    } else {
        None
    }
}

/// Whether a row tells one of those addresses as the sender's.
fn is_local_of(row: &HelloRow, own: &[Addr4]) -> bool
    ensures { IsTrue result ↔ IsLocalWith (Contains own.now) row.now }
{
    match local_host(row) {
        Some(addr) => contains(own, addr),
        None => false,
    }
}

/// Whether a row tells another address than that one as the sender's.
fn is_local_beyond(row: &HelloRow, first: Addr4) -> bool
    ensures { IsTrue result ↔ IsLocalWith (λ a. a ≢ first) row.now }
{
    match local_host(row) {
        Some(addr) => addr != first,
        None => false,
    }
}

/// The address that a row tells as one of the interface that sent the HELLO; `None` where it tells none.
fn this_host(row: &HelloRow) -> Option<Addr4>
    ensures { IsValue (λ a. IsLocalRow row.now a LocalIf.This) result }
{
    match row.local {
        Some(LocalIf::This) => local_host(row),
        _ => None,
    }
}

/// An address of the interface that sent the HELLO; `None` where it tells none.
fn sending(hello: &Hello) -> Option<Addr4>
    ensures { IsValue (λ a. TellsLocal hello.now a LocalIf.This) result }
{
    for row in hello.rows.as_slice() {
        if let Some(addr) = this_host(row) {
            return Some(addr);
        }
    }
    None
}

/// Whether a row tells one of those addresses as the sender's.
fn has_local_of(hello: &Hello, own: &[Addr4]) -> bool
    ensures { IsTrue result ↔ Any (IsLocalWith (Contains own.now)) hello.now.rows }
{
    for row in hello.rows.as_slice() {
        if is_local_of(row, own) {
            return true;
        }
    }
    false
}

/// Whether a row tells another address than that one as the sender's.
fn has_local_beyond(hello: &Hello, first: Addr4) -> bool
    ensures { IsTrue result ↔ Any (IsLocalWith (λ a. a ≢ first)) hello.now.rows }
{
    for row in hello.rows.as_slice() {
        if is_local_beyond(row, first) {
            return true;
        }
    }
    false
}

/// Whether the originator is one of those addresses.
fn has_originator_of(hello: &Hello, own: &[Addr4]) -> bool
    ensures { IsTrue result ↔ HasOriginatorOf own.now hello.now }
{
    match hello.originator {
        Some(addr) => contains(own, addr),
        None => false,
    }
}

/// Whether the HELLO tells no address of the interface that sent it, and its sender is one of those addresses.
fn is_bare_sender(hello: &Hello, sender: Addr4, own: &[Addr4]) -> bool
    ensures { IsTrue result ↔ IsBareSender own.now sender hello.now }
{
    contains(own, sender) && sending(hello).is_none()
}

/// Whether the HELLO names one of those addresses as its sender's.
fn is_own(hello: &Hello, sender: Addr4, own: &[Addr4]) -> bool
    ensures { IsTrue result ↔ NamesAsSender own.now sender hello.now }
{
    has_local_of(hello, own) || has_originator_of(hello, own) || is_bare_sender(hello, sender, own)
}

/// Whether there is no originator, and several addresses are told as the sender's.
fn is_nameless(hello: &Hello, sender: Addr4) -> bool
    ensures { IsTrue result ↔ IsNameless sender hello.now }
{
    let first = sending(hello).unwrap_or(sender);
    hello.originator.is_none() && has_local_beyond(hello, first)
}

/// The first rule that a HELLO breaks at its receiver, whose addresses are `own`: 30 where it names one of them as its
/// sender's, else 31 where it has no originator and several addresses of its sender; `None` where it breaks neither
/// (RFC 6130, section 12.1). Takes no memory.
pub fn receive_fault(hello: &Hello, sender: Addr4, own: &[Addr4]) -> Option<u8>
    ensures { IsFaultAt (Contains own.now) sender hello.now result }
{
    if is_own(hello, sender, own) {
        Some(30)
    } else if is_nameless(hello, sender) {
        Some(31)
    } else {
        None
    }
}
