//! What a HELLO that isn't refused makes of the links, the 2-hop tuples, the neighbours and the lost addresses (RFC 6130, sections 12.3 to
//! 12.6).
ghost use Rattle.std.specs.Prelude.{◌≡◌, ◌<◌, ◌^◌, Some, None, length, slice_get, true, IsTrue, IfOk, OnOk};
ghost use Rattle.mesh_atoms.specs.AfterHello.{AfterHello};
ghost use Rattle.mesh_atoms.specs.Base.{base_of};
ghost use Rattle.mesh_atoms.specs.HelloTold.{Tells};
ghost use Rattle.mesh_atoms.specs.Quality.{rule_of};
ghost use Rattle.mesh_atoms.specs.Sound.{SoundNeighbourhood};
ghost use Rattle.mesh_atoms.specs.TakesHello.{IsFault};
ghost use Rattle.mesh_hello.specs.Told.Telling.{AreOwnAddresses, told_of};
ghost use Rattle.mesh_nhdp.specs.Calls.{is_symmetric_in};
ghost use Rattle.mesh_nhdp.specs.Hearings.{HearsInterfaces, HearsLinks};
ghost use Rattle.mesh_links.specs.Links.{CanHearHello};
ghost use Rattle.mesh_nhdp.specs.Judged.{CanTakeHello};
ghost use Rattle.mesh_nhdp.specs.Repeats.{RepeatsRows};

use crate::drops::has_symmetric;
use crate::follow::{SendingNeighbour, renew_neighbour};
use crate::interfaces::{Change, Hearing, change_all};
use crate::keys::keys_of_both;
use crate::near_addresses::spoken_addresses;
use crate::sending_link::{has_link, update_two_hops};
use crate::sets::NeighbourhoodSets;
use crate::two_hop_rows::TwoHopRows;
use mesh_atoms::{Addr4, Hello, RouterSettings};
use mesh_expire::Bases;
use mesh_hello::HelloInfo;
use std::alloc::{AllocError, Global};

/// The receipt of a HELLO that isn't refused and isn't too much, on an interface at a moment in ticks of 1/8192 s: the HELLO, the
/// router's own addresses, and what the HELLO tells.
#[derive(Clone, Copy)]
pub struct HelloReceipt<'a> {
    pub moment: u64,
    pub iface: usize,
    pub hello: &'a Hello,
    pub own: &'a [Addr4],
    pub telling: &'a HelloInfo,
}

/// Takes the HELLO in on all interfaces. Answers true only where the link that it came over isn't SYMMETRIC then, or all rows repeat what
/// was held. After an allocation failure the sets may only be dropped.
fn hear_interfaces<B: Bases>(
    alloc: Global,
    hearing: &Hearing,
    receipt: &HelloReceipt,
    sets: &mut NeighbourhoodSets<B>,
) -> Result<bool, AllocError>
    requires ready { CanHearHello hearing.now.moment hearing.now.hold hearing.now.shown.now }
    requires least { slice_get hearing.now.shown.now.sending 0 ≡ Some receipt.now.telling.now.least.addr }
    requires iface { hearing.now.iface < length sets.old.links }
    requires same { length sets.old.links ≡ length sets.old.two_hops }
    ensures hears { OnOk result (HearsInterfaces hearing.now.rule.now hearing.now.shown.now receipt.now.telling.now.least hearing.now.theirs.now hearing.now.listed.now hearing.now.keys.now receipt.now.own.now hearing.now.hold hearing.now.moment hearing.now.iface receipt.now.hello.now
        sets.old sets.new) }
    ensures repeats { IfOk result (λ repeats. IsTrue repeats
        → is_symmetric_in (base_of sets.new.links hearing.now.iface) hearing.now.moment receipt.now.telling.now.least ≡ true
        → RepeatsRows receipt.now.own.now hearing.now.listed.now (base_of sets.old.two_hops hearing.now.iface)
        receipt.now.telling.now.least receipt.now.hello.now) }
{
    let least = receipt.telling.least;
    let sending = hearing.shown.sending.as_slice();
    let stood = has_link(&sets.links[hearing.iface], least, sending);
    change_all(alloc, &Change::Hearing(*hearing), sets)?;
    let symmetric = has_symmetric(sets.links[hearing.iface].table(), least, hearing.moment);
    let until = hearing.moment + hearing.shown.validity;
    let rows = TwoHopRows {
        link: least,
        until,
        hello: receipt.hello,
        own: receipt.own,
        listed: hearing.listed,
    };
    update_two_hops(&mut sets.two_hops[hearing.iface], &rows, stood, symmetric)
}

/// Takes a HELLO in on all interfaces; `theirs` has the addresses of the neighbours that it speaks of. Answers as `hear_interfaces`.
/// After an allocation failure the sets may only be dropped.
fn hear_links<B: Bases>(
    settings: &RouterSettings,
    receipt: &HelloReceipt,
    theirs: &[Addr4],
    sets: &mut NeighbourhoodSets<B>,
) -> Result<bool, AllocError>
    requires iface { receipt.now.iface < length settings.now.interfaces }
    requires links { length sets.old.links ≡ length settings.now.interfaces }
    requires two_hops { length sets.old.two_hops ≡ length settings.now.interfaces }
    requires ready { CanHearHello receipt.now.moment settings.now.times.link_hold receipt.now.telling.now.shown }
    requires least { slice_get receipt.now.telling.now.shown.sending 0 ≡ Some receipt.now.telling.now.least.addr }
    ensures hears { OnOk result (HearsLinks (rule_of settings.now receipt.now.iface) (told_of receipt.now.telling.now) theirs.now receipt.now.own.now
        settings.now.times.link_hold receipt.now.moment receipt.now.iface receipt.now.hello.now sets.old sets.new) }
    ensures repeats { IfOk result (λ repeats. IsTrue repeats
        → is_symmetric_in (base_of sets.new.links receipt.now.iface) receipt.now.moment receipt.now.telling.now.least ≡ true
        → RepeatsRows receipt.now.own.now receipt.now.telling.now.listed (base_of sets.old.two_hops receipt.now.iface)
        receipt.now.telling.now.least receipt.now.hello.now) }
{
    let alloc = settings.interfaces.allocator();
    let telling = receipt.telling;
    let listed = telling.listed.as_slice();
    let keys = keys_of_both(alloc, theirs, listed)?;
    let face = &settings.interfaces.as_slice()[receipt.iface];
    let hearing = Hearing {
        moment: receipt.moment,
        hold: settings.times.link_hold,
        iface: receipt.iface,
        rule: &face.admit,
        shown: &telling.shown,
        theirs,
        listed,
        keys: &keys,
    };
    hear_interfaces(alloc, &hearing, receipt, sets)
}

/// Takes in a HELLO that isn't refused and isn't too much. Answers true only where the link that it came over isn't SYMMETRIC then,
/// or all rows repeat what was held. After an allocation failure the neighbourhood may only be dropped.
pub fn hear<B: Bases>(
    settings: &RouterSettings,
    receipt: &HelloReceipt,
    sets: &mut NeighbourhoodSets<B>,
) -> Result<bool, AllocError>
    requires ready { CanTakeHello settings.now receipt.now.moment receipt.now.iface receipt.now.hello.now }
    requires own { AreOwnAddresses settings.now receipt.now.own.now }
    requires told { (sender : Addr4) × Tells settings.now receipt.now.iface sender receipt.now.hello.now (told_of receipt.now.telling.now)
        × IsFault settings.now sender receipt.now.hello.now None }
    requires sound { SoundNeighbourhood settings.now receipt.now.moment sets.old }
    ensures after { OnOk result (AfterHello settings.now receipt.now.moment receipt.now.iface (told_of receipt.now.telling.now) receipt.now.hello.now
        sets.old sets.new) }
    ensures repeats { IfOk result (λ repeats. IsTrue repeats
        → is_symmetric_in (base_of sets.new.links receipt.now.iface) receipt.now.moment receipt.now.telling.now.least ≡ true
        → RepeatsRows receipt.now.own.now receipt.now.telling.now.listed (base_of sets.old.two_hops receipt.now.iface)
        receipt.now.telling.now.least receipt.now.hello.now) }
{
    let alloc = settings.interfaces.allocator();
    let until = receipt.moment + settings.times.neighbour_hold;
    let (theirs, before) = spoken_addresses(alloc, &sets.neighbours, receipt.telling)?;
    let repeats = hear_links(settings, receipt, &theirs, sets)?;
    let neighbour = SendingNeighbour {
        telling: receipt.telling,
        before: &before,
        until,
    };
    renew_neighbour(alloc, receipt.moment, &neighbour, sets)?;
    Ok(repeats)
}
