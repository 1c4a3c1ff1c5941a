//! Frames as octets.
use mesh_atoms::Bytes;
use mesh_core::Outbox;
use std::alloc::{AllocError, Global};

/// The header of a packet.
pub(crate) const PACKET: &[u8] = b"\x00";

/// The header of a packet of one HELLO of a router without neighbours, and that HELLO from its originator on: of 10.0.0.1, valid for
/// 49152 ticks, and sent each 16384.
pub(crate) const LONE: &[u8] = b"\x00\x00\x83\x00\x22";

pub(crate) const ONE_SAYS: &[u8] =
    b"\x0a\x00\x00\x01\x00\x0c\x01\x10\x01\x64\x00\x10\x01\x58\x07\x10\x01\x77\x01\x00\x0a\x00\x00\x01\x00\x04\x02\x10\x01\x00";

/// The part of a HELLO that shows 10.0.0.2 as HEARD at cost 1; and its router as a flooding relay too.
pub(crate) const HEARS_TWO: &[u8] =
    b"\x01\x00\x0a\x00\x00\x02\x00\x09\x03\x10\x01\x02\x07\x10\x02\x80\x00";

pub(crate) const CHOOSES_TWO: &[u8] =
    b"\x01\x00\x0a\x00\x00\x02\x00\x0d\x03\x10\x01\x02\x07\x10\x02\x80\x00\x08\x10\x01\x01";

/// A part of a frame.
#[derive(Clone, Copy)]
pub(crate) enum Part {
    /// These octets.
    Once(&'static [u8]),
    /// So many times the first octets, the number of the turn as two octets, and the second ones.
    Turns(u16, &'static [u8], &'static [u8]),
    /// The frame at a place among those that were sent.
    Sent(usize),
}

fn put_part(octets: &mut Bytes, out: &Outbox, part: &Part) -> Result<(), AllocError> {
    match *part {
        Part::Once(once) => octets.append(once),
        Part::Turns(count, front, back) => put_turns(octets, count, front, back),
        Part::Sent(place) => put_sent(octets, out, place),
    }
}

fn put_sent(octets: &mut Bytes, out: &Outbox, place: usize) -> Result<(), AllocError> {
    match out.frame(place) {
        Some((_, sent)) => octets.append(sent),
        None => Ok(()),
    }
}

fn put_turns(octets: &mut Bytes, count: u16, front: &[u8], back: &[u8]) -> Result<(), AllocError> {
    for turn in 0..count {
        octets.append(front)?;
        octets.append(turn.to_be_bytes().as_slice())?;
        octets.append(back)?;
    }
    Ok(())
}

/// The frame of those parts.
pub(crate) fn frame_of(alloc: Global, out: &Outbox, parts: &[Part]) -> Result<Bytes, AllocError> {
    let mut octets = Bytes::new(alloc);
    put_parts(&mut octets, out, parts)?;
    Ok(octets)
}

fn put_parts(octets: &mut Bytes, out: &Outbox, parts: &[Part]) -> Result<(), AllocError> {
    for part in parts {
        put_part(octets, out, part)?;
    }
    Ok(())
}
