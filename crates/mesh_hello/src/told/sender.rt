//! The addresses that a HELLO tells as its sender's (RFC 6130, section 12.2).
ghost use Rattle.std.specs.Prelude.{◌≡◌, ◌↔◌, Some, Contains, IsTrue, IfOk, OnOk};
ghost use Rattle.mesh_atoms.specs.HelloTold.{TellsLocal, IsSending, IsListed};
ghost use Rattle.mesh_atoms.specs.Words.{Lists};
ghost use Rattle.mesh_hello.specs.Gathers.{Gathers};
ghost use Rattle.mesh_hello.specs.Told.Sender.{IsLocalAddress, IsOrSender};

use crate::lists::ascending;
use mesh_atoms::{Addr4, Hello, HelloRow, LocalIf, Seq};
use std::alloc::{AllocError, Global};

/// Whether the row tells an address of the sender's interface of that kind.
fn is_local(row: &HelloRow, local: LocalIf) -> bool
    ensures { IsTrue result ↔ (row.now.local ≡ Some local) }
{
    match (row.local, local) {
        (Some(LocalIf::This), LocalIf::This) => true,
        (Some(LocalIf::Other), LocalIf::Other) => true,
        _ => false,
    }
}

/// Adds the row's address, where the row tells it as one of the sender's interface of that kind.
fn add_local(addrs: &mut Vec<Addr4>, row: &HelloRow, local: LocalIf) -> Result<(), AllocError>
    ensures { OnOk result (Gathers addrs.old.items addrs.new.items (IsLocalAddress row.now local)) }
{
    if row.addr.prefix == 32 && is_local(row, local) {
        addrs.push(row.addr.addr)?;
    }
    Ok(())
}

/// The addresses of the sender's interface of that kind.
fn local_addresses(alloc: Global, hello: &Hello, local: LocalIf) -> Result<Vec<Addr4>, AllocError>
    ensures { IfOk result (λ addrs. (a : Addr4) → Contains addrs.items a ↔ TellsLocal hello.now a local) }
{
    let mut addrs = Vec::new(alloc);
    for row in hello.rows.as_slice() {
        add_local(&mut addrs, row, local)?;
    }
    Ok(addrs)
}

/// These addresses, or the sender where there are none.
fn or_sender(addrs: &mut Vec<Addr4>, sender: Addr4) -> Result<(), AllocError>
    ensures { OnOk result ((a : Addr4) → Contains addrs.new.items a ↔ IsOrSender addrs.old.items sender a) }
{
    let count = addrs.len();
    if count == 0 {
        addrs.push(sender)?;
    }
    Ok(())
}

/// The addresses of the interface that sent the HELLO, in no order.
fn sending_addresses(alloc: Global, hello: &Hello, sender: Addr4) -> Result<Vec<Addr4>, AllocError>
    ensures { IfOk result (λ addrs. (a : Addr4) → Contains addrs.items a ↔ IsSending hello.now sender a) }
{
    let mut addrs = local_addresses(alloc, hello, LocalIf::This)?;
    or_sender(&mut addrs, sender)?;
    Ok(addrs)
}

/// The addresses of the interface that sent the HELLO: those that it tells as such, or the sender's where it tells none.
pub fn sending_list(alloc: Global, hello: &Hello, sender: Addr4) -> Result<Seq<Addr4>, AllocError>
    ensures { IfOk result (λ list. Lists list (IsSending hello.now sender)) }
{
    let addrs = sending_addresses(alloc, hello, sender)?;
    Ok(ascending(addrs))
}

/// All addresses that the HELLO tells as its sender's.
pub fn listed_list(alloc: Global, hello: &Hello, sender: Addr4) -> Result<Seq<Addr4>, AllocError>
    ensures { IfOk result (λ list. Lists list (IsListed hello.now sender)) }
{
    let mut addrs = sending_addresses(alloc, hello, sender)?;
    let others = local_addresses(alloc, hello, LocalIf::Other)?;
    addrs.extend_from_slice(&others)?;
    Ok(ascending(addrs))
}
