//! What is judged of a HELLO before anything changes (RFC 6130, section 12.1).
ghost use Rattle.std.specs.Prelude.{◌<◌, ◌≤◌, length, IfOk};
ghost use Rattle.mesh_atoms.specs.Base.{base_of};
ghost use Rattle.mesh_atoms.specs.declared.settings.RouterSettings.{RouterSettings};
ghost use Rattle.mesh_hello.specs.Told.Telling.{AreOwnAddresses, told_of};
ghost use Rattle.mesh_nhdp.specs.Judged.{IsFilledBy, Judges};

use crate::full::is_full_of_addresses;
use crate::sets::NeighbourhoodSets;
use crate::two_hop_rows::count_symmetric;
use mesh_atoms::{Addr4, Base, Hello, MOST_TUPLES, RouterSettings};
use mesh_expire::Bases;
use mesh_hello::{HelloInfo, receive_fault, tell};
use std::alloc::AllocError;

/// A HELLO from that sender, which arrives on an interface at a moment in ticks of 1/8192 s; and the receiver's own addresses.
#[derive(Clone, Copy)]
pub struct HelloArrival<'a> {
    pub moment: u64,
    pub iface: usize,
    pub sender: Addr4,
    pub hello: &'a Hello,
    pub own: &'a [Addr4],
}

/// A HELLO breaks the rule of a number, is too much for a base, or can be taken: then with what it tells.
#[derive(Drop)]
pub enum HelloCheck {
    Breaks(u8),
    Overfills(Base),
    Fits(HelloInfo),
}

/// The base that the HELLO would fill, if there is one; `own` has the router's addresses. Counts the addresses that the HELLO tells as
/// SYMMETRIC neighbours only where all its rows would be too many; else it looks at the counts alone.
fn base_to_fill<B: Bases>(
    sets: &NeighbourhoodSets<B>,
    iface: usize,
    hello: &Hello,
    own: &[Addr4],
    telling: &HelloInfo,
) -> Result<Option<Base>, AllocError>
    requires { length (base_of sets.now.two_hops iface) ≤ MOST_TUPLES }
    ensures { IfOk result (λ base. (settings : RouterSettings) → AreOwnAddresses settings own.now
        → IsFilledBy settings iface hello.now sets.now (told_of telling.now) base) }
{
    let alloc = telling.listed.allocator();
    let listed = telling.listed.as_slice();
    if is_full_of_addresses(alloc, sets, telling)? {
        return Ok(Some(Base::Neighbours));
    }
    let room = MOST_TUPLES - sets.two_hop_count(iface);
    if hello.rows.len() <= room {
        return Ok(None);
    }
    let count = count_symmetric(alloc, hello, own, listed)?;
    if count > room {
        Ok(Some(Base::TwoHops))
    } else {
        Ok(None)
    }
}

/// Judges a HELLO (RFC 6130, section 12.1, and the limits of the bases).
pub fn judge<B: Bases>(
    settings: &RouterSettings,
    sets: &NeighbourhoodSets<B>,
    arrival: &HelloArrival,
) -> Result<HelloCheck, AllocError>
    requires iface { arrival.now.iface < length settings.now.interfaces }
    requires own { AreOwnAddresses settings.now arrival.now.own.now }
    requires few { length (base_of sets.now.two_hops arrival.now.iface) ≤ MOST_TUPLES }
    ensures { IfOk result (Judges settings.now arrival.now.iface arrival.now.sender arrival.now.hello.now sets.now) }
{
    let alloc = settings.interfaces.allocator();
    let hello = arrival.hello;
    match receive_fault(hello, arrival.sender, arrival.own) {
        Some(number) => return Ok(HelloCheck::Breaks(number)),
        None => {}
    }
    let telling = tell(
        alloc,
        settings,
        arrival.iface,
        arrival.sender,
        hello,
        arrival.own,
    )?;
    match base_to_fill(sets, arrival.iface, hello, arrival.own, &telling)? {
        Some(base) => Ok(HelloCheck::Overfills(base)),
        None => Ok(HelloCheck::Fits(telling)),
    }
}
