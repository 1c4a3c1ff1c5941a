//! What is told of an event: inside the network with shares of its frames, and outside with octets.
ghost use Rattle.std.specs.Prelude.{◌≡◌, map, IfOk};
ghost use Rattle.mesh_radio.specs.Occurrences.{emission_of, net_event_of};

use mesh_atoms::{Addr4, Bytes, Emission, NetEvent, Seq};
use mesh_core::TypedFrame;
use std::alloc::{AllocError, Global};
use std::rc::Rc;

/// A frame that was sent on an interface, as a share; and the numbers of the arcs on which it is lost, in ascending order.
#[derive(Drop)]
pub(crate) struct SentFrame {
    pub(crate) iface: usize,
    pub(crate) frame: Rc<TypedFrame>,
    pub(crate) lost: Seq<usize>,
}

/// An event of the network: as a `NetEvent`, with shares of the frames in place of their octets.
#[derive(Drop)]
pub(crate) struct Occurrence {
    pub(crate) moment: u64,
    pub(crate) router: usize,
    pub(crate) heard: Option<(usize, Addr4, Rc<TypedFrame>)>,
    pub(crate) sent: Vec<SentFrame>,
}

/// The event with octets in place of the shares.
pub(crate) fn event_told(alloc: Global, occurrence: Occurrence) -> Result<NetEvent, AllocError>
    ensures { IfOk result (λ event. event ≡ net_event_of occurrence) }
{
    let Occurrence {
        moment,
        router,
        heard,
        sent,
    } = occurrence;
    let heard = match heard {
        Some((iface, sender, frame)) => Some((iface, sender, octets_of(frame)?)),
        None => None,
    };
    let sent = emissions_told(alloc, sent)?;
    Ok(NetEvent {
        moment,
        router,
        heard,
        sent,
    })
}

/// The frames that were sent, in order, with octets in place of the shares.
fn emissions_told(alloc: Global, sent: Vec<SentFrame>) -> Result<Seq<Emission>, AllocError>
    ensures { IfOk result (λ emissions. emissions ≡ map emission_of sent.items) }
{
    let mut emissions = Seq::new(alloc);
    for one in sent {
        emissions.push(emission_told(one)?)?;
    }
    Ok(emissions)
}

/// The frame that was sent with octets in place of the share.
fn emission_told(sent: SentFrame) -> Result<Emission, AllocError>
    ensures { IfOk result (λ emission. emission ≡ emission_of sent) }
{
    let SentFrame { iface, frame, lost } = sent;
    let frame = octets_of(frame)?;
    Ok(Emission { iface, frame, lost })
}

/// The octets that are shared: themselves, where nobody else has a share, else a copy.
fn octets_of(frame: Rc<TypedFrame>) -> Result<Bytes, AllocError>
    ensures { IfOk result (λ bytes. bytes ≡ frame.value) }
{
    match Rc::try_unwrap(frame) {
        Ok(frame) => Ok(frame.into_octets()),
        Err(shared) => shared.as_ref().octets().copy(),
    }
}
