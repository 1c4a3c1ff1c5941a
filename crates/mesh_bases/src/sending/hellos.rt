//! The HELLOs that a router sends when its clock ticks (RFC 6130, section 11).
ghost use Rattle.std.specs.Prelude.{◌≡◌, ◌<◌, ◌^◌, ◌++◌, List, length, IfOk, OnOk};
ghost use Rattle.mesh_atoms.specs.declared.hello.Hello.{Hello as HelloValue};
ghost use Rattle.mesh_atoms.specs.Hello.{IsHelloNow};
ghost use Rattle.mesh_atoms.specs.Sound.{SoundNeighbourhood};
ghost use Rattle.mesh_atoms.specs.State.{State};
ghost use Rattle.mesh_bases.specs.Held.Outbox.{OnlyAppends};
ghost use Rattle.mesh_bases.specs.Sending.Sent.{HellosAreSent};
ghost use Rattle.mesh_machine.specs.declared.frame.Frame.{Frame};
ghost use Rattle.mesh_wire.specs.Writes.{WritesHello};

use crate::derived::Derived;
use crate::held::Outbox;
use crate::sending::moments::next_moment;
use mesh_atoms::{Bytes, Relays};
use mesh_expire::Bases;
use mesh_nhdp::Nhdp;
use mesh_wire::write_hello;
use std::alloc::{AllocError, Global};

// The HELLO of an interface, as a packet.
fn hello_bytes<B: Bases>(
    alloc: Global,
    nhdp: &Nhdp<B>,
    iface: usize,
    now: u64,
    relays: &Relays,
) -> Result<Bytes, AllocError>
    requires iface { iface < length nhdp.now.settings.interfaces }
    requires sound { SoundNeighbourhood nhdp.now.settings now nhdp.now.near }
    ensures { IfOk result (λ bytes. (s : State) → s.settings ≡ nhdp.now.settings → s.bases.neighbourhood ≡ nhdp.now.near → s.relays ≡ relays.now →
        (hello : HelloValue) × IsHelloNow s iface now hello × WritesHello hello bytes) }
{
    let hello = nhdp.hello_now(alloc, iface, now, relays)?;
    write_hello(alloc, &hello)
}

/// Sends the HELLO of each interface, where one is due.
pub fn send_hellos<B: Bases>(
    alloc: Global,
    nhdp: &Nhdp<B>,
    derived: &mut Derived,
    out: &mut Outbox,
) -> Result<(), AllocError>
    requires now { derived.old.last < 2 ^ 62 }
    requires sound { SoundNeighbourhood nhdp.now.settings derived.old.last nhdp.now.near }
    ensures sent { OnOk result ((sent : List Frame) × (out.new ≡ out.old ++ sent) × HellosAreSent nhdp.now.settings nhdp.now.near derived.old derived.new sent) }
    ensures others { derived.new ≡ record derived.old { next_hello = derived.new.next_hello } }
    // Whatever is answered, the frames that stood in `out` stay there.
    ensures appended { OnlyAppends out.old out.new }
{
    let now = derived.last;
    if now < derived.next_hello {
        return Ok(());
    }
    let settings = nhdp.settings();
    derived.next_hello = next_moment(settings.hello_at, settings.times.hello, now);
    for iface in 0..settings.interfaces.len() {
        let bytes = hello_bytes(alloc, nhdp, iface, now, &derived.relays)?;
        out.send(iface, bytes)?;
    }
    Ok(())
}
