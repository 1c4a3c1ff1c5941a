//! The frames that wait to be heard.
ghost use Rattle.std.specs.Prelude.{◌≡◌, ◌++◌, IfOk, OnOk};
ghost use Rattle.mesh_machine.specs.Frames.{on_each};
ghost use Rattle.mesh_probe.specs.Flood.{sent_by};

use crate::transmission::Transmission;
use mesh_atoms::Bytes;
use mesh_bases::Outbox;
use mesh_machine::Frame;
use std::alloc::{AllocError, Global};

// A frame of these octets on an interface of the router.
fn transmission(
    alloc: Global,
    router: usize,
    iface: usize,
    octets: &[u8],
) -> Result<Transmission, AllocError>
    ensures { IfOk result (λ t. t ≡ record { router = router; frame = record { iface = iface; bytes = octets.now } }) }
{
    let mut bytes = Bytes::new(alloc);
    bytes.append(octets)?;
    Ok(Transmission {
        router,
        frame: Frame { iface, bytes },
    })
}

/// A frame of these octets on each of so many interfaces of a router, in order.
pub(crate) fn first_frames(
    alloc: Global,
    router: usize,
    count: usize,
    octets: &[u8],
) -> Result<Vec<Transmission>, AllocError>
    ensures { IfOk result (λ frames. frames.items ≡ sent_by router (on_each count octets.now)) }
{
    let mut frames = Vec::new(alloc);
    for iface in 0..count {
        frames.push(transmission(alloc, router, iface, octets)?)?;
    }
    Ok(frames)
}

/// Puts what a router sent at the end. After an allocation failure a part of it may stand there.
pub(crate) fn put_sent(
    alloc: Global,
    frames: &mut Vec<Transmission>,
    router: usize,
    sent: &Outbox,
) -> Result<(), AllocError>
    ensures { OnOk result (frames.new.items ≡ frames.old.items ++ sent_by router sent.now) }
{
    for i in 0..sent.len() {
        let Some((iface, octets)) = sent.frame(i) else {
            break;
        };
        frames.push(transmission(alloc, router, iface, octets)?)?;
    }
    Ok(())
}
