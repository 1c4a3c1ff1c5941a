//! What a HELLO tells its receiver (RFC 6130, section 12, and RFC 7181, section 15.3).
ghost use Rattle.std.specs.Prelude.{◌≡◌, ◌<◌, ◌⊎◌, None, Some, length, slice_get, Contains, IfOk};
ghost use Rattle.mesh_atoms.specs.HelloTold.{Tells};
ghost use Rattle.mesh_hello.specs.Told.Telling.{AreOwnAddresses, told_of};

use crate::told::mine::{Sign, has_own_row, metric_from, metric_to, status_of_mine};
use crate::told::sender::{listed_list, sending_list};
use mesh_atoms::{Addr4, Hello, LinkKey, RouterSettings, Seq, Shown, Willing};
use std::alloc::{AllocError, Global};

/// What a HELLO tells: of the link that it came over, with the key of that link, and of its sender.
#[derive(Drop)]
pub struct HelloInfo {
    pub shown: Shown,
    pub least: LinkKey,
    pub listed: Seq<Addr4>,
    pub originator: Addr4,
    pub willing: Willing,
    /// Whether the sender has chosen the receiver as a routing relay.
    pub routing: bool,
}

/// The addresses of all interfaces.
pub fn own_addresses(alloc: Global, settings: &RouterSettings) -> Result<Vec<Addr4>, AllocError>
    ensures { IfOk result (λ own. AreOwnAddresses settings.now own.items) }
{
    let mut own = Vec::new(alloc);
    for face in settings.interfaces.as_slice() {
        own.extend_from_slice(face.addrs.as_slice())?;
    }
    Ok(own)
}

fn first_of(addrs: &[Addr4]) -> Addr4
    requires { 0 < length addrs.now }
    ensures { slice_get addrs.now 0 ≡ Some result }
{
    addrs[0]
}

/// The HELLO's originator, or the first listed address where it has none.
fn originator_of(hello: &Hello, listed: &[Addr4]) -> Addr4
    requires { 0 < length listed.now }
    ensures { (hello.now.originator ≡ Some result) ⊎ ((hello.now.originator ≡ None) × Contains listed.now result) }
{
    match hello.originator {
        Some(originator) => originator,
        None => first_of(listed),
    }
}

/// What the HELLO from that sender tells on an interface (RFC 6130, section 12.2, and RFC 7181, section 15.3); `own` has the
/// router's addresses.
pub fn tell(
    alloc: Global,
    settings: &RouterSettings,
    iface: usize,
    sender: Addr4,
    hello: &Hello,
    own: &[Addr4],
) -> Result<HelloInfo, AllocError>
    requires iface { iface < length settings.now.interfaces }
    requires own { AreOwnAddresses settings.now own.now }
    ensures { IfOk result (λ telling. Tells settings.now iface sender hello.now (told_of telling)) }
{
    let face = &settings.interfaces.as_slice()[iface];
    let here = face.addrs.as_slice();
    let sending = sending_list(alloc, hello, sender)?;
    let listed = listed_list(alloc, hello, sender)?;
    let least = LinkKey {
        addr: first_of(sending.as_slice()),
    };
    let originator = originator_of(hello, listed.as_slice());
    let shown = Shown {
        sending,
        status: status_of_mine(hello, here),
        link_in: metric_from(face, sender),
        link_out: metric_to(hello, here),
        selector: has_own_row(hello, here, Sign::Flooding),
        validity: hello.validity,
    };
    Ok(HelloInfo {
        shown,
        least,
        listed,
        originator,
        willing: hello.willing,
        routing: has_own_row(hello, own, Sign::Routing),
    })
}
