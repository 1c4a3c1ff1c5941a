//! Reading a packet: the value that the whole frame spells, or its first fault (RFC 5444, section 5).
ghost use Rattle.std.specs.Prelude.{◌≡◌, ◌≤◌, ◌<◌, ◌-◌, ◌+◌, ◌*◌, ℕ, List, length, map, slice_range, Some, None, Ok, Err, Result, IfOk, IfErr};
ghost use Rattle.std.specs.Option.{option_copied};
ghost use Rattle.mesh_atoms.specs.Reading.{Gives, IfRefused, refuse, octet_at, short_at, piece_at};
ghost use Rattle.mesh_atoms.specs.declared.refusal.Refusal.{Refusal};
ghost use Rattle.mesh_addr.specs.Grammar.{padded};
ghost use Rattle.mesh_tlv.specs.Items.{by_fields};
ghost use Rattle.mesh_tlv.specs.Reading.{block_at, tlv_at};
ghost use Rattle.mesh_tlv.specs.Fields.{fields, block_fields};
ghost use Rattle.mesh_packet.specs.Placed.{ArePlaced};
ghost use Rattle.mesh_packet.specs.Fields.{PacketFields, fields_of_message, fields_of_packet, messages_read, fields_of_decoded};
ghost use Rattle.mesh_packet.specs.Grammar.{Spells, FirstFault, width_of};
ghost use Rattle.mesh_packet.specs.Least.{IsEncodable};
ghost use Rattle.mesh_packet.specs.Reading.{if_flagged, address_at, head_at, body_at, message_at, messages_at, flags_at, header_tlvs_at, packet_of};
ghost use Rattle.mesh_packet.specs.declared.packet.Span.{Span};

use crate::flags::{COUNT, LIMIT, ORIGINATOR, PACKET_SEQUENCE, PACKET_TLVS, SEQUENCE};
use crate::packet::{Block, Decoded, Message, Packet, Span};
use mesh_addr::{RawAddr, read_block};
use mesh_atoms::reason::{MESSAGE_SIZE, SHORT, VERSION};
use mesh_atoms::{DecodeFault, Refusal, Seq, read_octet, read_short, refuse};
use mesh_tlv::{ItemReader, Tlv, read_addr_tlvs, read_items, read_tlvs};
use std::alloc::Global;

/// What was read, where it is flagged, and the place after it; else the place that is given.
#[tactic(auto, unfolding(crate::specs::Reading::if_flagged))]
fn if_flagged<T: Copy>(
    set: bool,
    at: usize,
    read: Result<(T, usize), Refusal>,
) -> Result<(Option<T>, usize), Refusal>
    ensures { result ≡ if_flagged set at read }
{
    if set {
        let (value, after) = read?;
        Ok((Some(value), after))
    } else {
        Ok((None, at))
    }
}

/// The address in the `width` octets from `at` on.
fn whole_address(frame: &[u8], at: usize, width: u8) -> RawAddr
    requires width { width ≤ 16 }
    requires within { at + width ≤ length frame.now }
    ensures { result ≡ record { octets = padded (slice_range frame.now at (at + width)); prefix = 8 * width } }
{
    let mut octets = [0; 16];
    octets[..usize::from(width)].copy_from_slice(&frame[at..at + usize::from(width)]);
    RawAddr {
        octets,
        prefix: 8 * width,
    }
}

/// The address at a place, and the place after it.
#[tactic(auto, unfolding(crate::specs::Reading::address_at))]
fn address(width: u8, frame: &[u8], at: usize, end: usize) -> Result<(RawAddr, usize), Refusal>
    requires width { width ≤ 16 }
    requires at { at ≤ end }
    requires end { end ≤ length frame.now }
    ensures exact { result ≡ address_at width frame.now at end }
    ensures after { IfOk result (λ x. (x.1 ≤ end) × (x.1 ≡ at + width)) }
{
    if end - at < usize::from(width) {
        return Err(refuse(at, SHORT));
    }
    Ok((whole_address(frame, at, width), at + usize::from(width)))
}

/// What a message has before its TLVs.
#[derive(Clone, Copy)]
struct MessageHeader {
    originator: Option<RawAddr>,
    limit: Option<u8>,
    count: Option<u8>,
    sequence: Option<u16>,
}

/// How many octets an address of a message with these flags has.
fn width_of(flags: u8) -> u8
    ensures exact { result ≡ width_of flags }
    ensures most { result ≤ 16 }
    ensures some { 0 < result }
{
    flags % 16 + 1
}

/// What a message with these flags has before its TLVs, and the place after it.
#[tactic(auto, unfolding(crate::specs::Reading::head_at))]
fn head(flags: u8, frame: &[u8], at: usize, end: usize) -> Result<(MessageHeader, usize), Refusal>
    requires at { at ≤ end }
    requires end { end ≤ length frame.now }
    ensures exact { result ≡ head_at flags frame.now at end }
    ensures after { IfOk result (λ x. (x.1 ≤ end) × (at ≤ x.1)) }
{
    let originator = address(width_of(flags), frame, at, end);
    let (originator, at) = if_flagged(flags & ORIGINATOR != 0, at, originator)?;
    let limit = read_octet(frame, at, end, SHORT);
    let (limit, at) = if_flagged(flags & LIMIT != 0, at, limit)?;
    let count = read_octet(frame, at, end, SHORT);
    let (count, at) = if_flagged(flags & COUNT != 0, at, count)?;
    let sequence = read_short(frame, at, end, SHORT);
    let (sequence, at) = if_flagged(flags & SEQUENCE != 0, at, sequence)?;
    Ok((
        MessageHeader {
            originator,
            limit,
            count,
            sequence,
        },
        at,
    ))
}

/// Address blocks of this width, each with the TLVs of its addresses.
#[derive(Clone, Copy)]
struct Blocks {
    width: u8,
}

impl<'a> ItemReader<'a> for Blocks {
    ghost use Rattle.std.specs.Prelude.{◌<◌, ◌≤◌};
    ghost use Rattle.mesh_packet.specs.Fields.{BlockFields, fields_of_block};
    ghost use Rattle.mesh_packet.specs.Reading.{pair_at};

    type Item = Block<'a>;

    ghost Fields = { BlockFields };

    ghost fields = { fields_of_block };

    ghost can_read = { λ blocks. (0 < blocks.width) × (blocks.width ≤ 16) };

    ghost item_at = { λ blocks. pair_at blocks.width };

    #[tactic(auto, unfolding(crate::specs::Reading::pair_at))]
    fn read(
        self,
        alloc: Global,
        frame: &'a [u8],
        at: usize,
        end: usize,
    ) -> Result<(Block<'a>, usize), DecodeFault> {
        let (addrs, next) = read_block(alloc, frame, at, end, self.width)?;
        let (tlvs, after) = read_addr_tlvs(alloc, frame, next, end, addrs.addrs.len() as u8)?;
        Ok((Block { addrs, tlvs }, after))
    }
}

/// What stands in a message behind its size, up to its end.
#[tactic(auto, unfolding(crate::specs::Reading::body_at))]
fn body<'a>(
    alloc: Global,
    kind: u8,
    flags: u8,
    frame: &'a [u8],
    at: usize,
    end: usize,
) -> Result<(Message<'a>, usize), DecodeFault>
    requires at { at ≤ end }
    requires end { end ≤ length frame.now }
    ensures exact { Gives (by_fields fields_of_message) result (body_at kind flags frame.now at end) }
    ensures after { IfOk result (λ x. (at ≤ x.1) × (x.1 ≤ end)) }
{
    let width = width_of(flags);
    let (head, at) = head(flags, frame, at, end)?;
    let (tlvs, at) = read_tlvs(alloc, frame, at, end)?;
    let (blocks, after) = read_items(alloc, Blocks { width }, frame, at, end)?;
    Ok((
        Message {
            kind,
            width,
            originator: head.originator,
            limit: head.limit,
            count: head.count,
            sequence: head.sequence,
            tlvs,
            blocks,
        },
        after,
    ))
}

/// The message at a place, and the place after it, which its size tells.
#[tactic(auto, unfolding(crate::specs::Reading::message_at))]
fn message<'a>(
    alloc: Global,
    frame: &'a [u8],
    at: usize,
    end: usize,
) -> Result<(Message<'a>, usize), DecodeFault>
    requires at { at ≤ end }
    requires end { end ≤ length frame.now }
    ensures exact { Gives (by_fields fields_of_message) result (message_at frame.now at end) }
    ensures after { IfOk result (λ x. (at ≤ x.1) × (x.1 ≤ end)) }
{
    let (kind, next) = read_octet(frame, at, end, SHORT)?;
    let (flags, size_at) = read_octet(frame, next, end, SHORT)?;
    let (size, start) = read_short(frame, size_at, end, SHORT)?;
    let size = usize::from(size);
    if size < 4 || end - at < size {
        return Err(DecodeFault::Refused(refuse(size_at, MESSAGE_SIZE)));
    }
    body(alloc, kind, flags, frame, start, at + size)
}

/// The messages up to the end of the frame, and where each stands.
fn messages<'a>(
    alloc: Global,
    frame: &'a [u8],
    at: usize,
    end: usize,
) -> Result<((Seq<Message<'a>>, Seq<Span>), usize), DecodeFault>
    requires at { at ≤ end }
    requires end { end ≤ length frame.now }
    ensures { Gives messages_read result (messages_at frame.now at end) }
{
    let mut messages = Seq::new(alloc);
    let mut spans = Seq::new(alloc);
    let mut place = at;
    for _ in 0..end - at {
        if place == end {
            break;
        }
        let (message, after) = message(alloc, frame, place, end)?;
        messages.push(message)?;
        spans.push(Span {
            start: place,
            len: after - place,
        })?;
        place = after;
    }
    Ok(((messages, spans), place))
}

/// The flags of a packet, whose version is 0.
#[tactic(auto, unfolding(crate::specs::Reading::flags_at))]
fn packet_flags(frame: &[u8]) -> Result<(u8, usize), Refusal>
    ensures exact { result ≡ flags_at frame.now (length frame.now) }
    ensures after { IfOk result (λ x. (x.1 ≤ length frame.now) × (x.0 < 16)) }
{
    let (flags, after) = read_octet(frame, 0, frame.len(), SHORT)?;
    if flags >> 4 == 0 {
        Ok((flags, after))
    } else {
        Err(refuse(0, VERSION))
    }
}

/// The TLVs of the packet's header, where a block of them is flagged.
#[tactic(auto, unfolding(crate::specs::Reading::header_tlvs_at))]
fn header_tlvs<'a>(
    alloc: Global,
    set: bool,
    frame: &'a [u8],
    at: usize,
) -> Result<(Seq<Tlv<'a>>, usize), DecodeFault>
    requires at { at ≤ length frame.now }
    ensures exact { Gives block_fields result (header_tlvs_at set frame.now at (length frame.now)) }
    ensures after { IfOk result (λ x. x.1 ≤ length frame.now) }
{
    if set {
        read_tlvs(alloc, frame, at, frame.len())
    } else {
        Ok((Seq::new(alloc), at))
    }
}

/// The packet that the whole frame spells, or its first fault.
#[tactic(auto, unfolding(crate::specs::Reading::packet_of))]
fn whole<'a>(alloc: Global, frame: &'a [u8]) -> Result<Decoded<'a>, DecodeFault>
    ensures { Gives fields_of_decoded result (packet_of frame.now) }
{
    let (flags, at) = packet_flags(frame)?;
    let sequence = read_short(frame, at, frame.len(), SHORT);
    let (sequence, at) = if_flagged(flags & PACKET_SEQUENCE != 0, at, sequence)?;
    let (tlvs, at) = header_tlvs(alloc, flags & PACKET_TLVS != 0, frame, at)?;
    let ((messages, spans), _) = messages(alloc, frame, at, frame.len())?;
    Ok(Decoded {
        packet: Packet {
            sequence,
            tlvs,
            messages,
        },
        spans,
    })
}

/// Reads a frame: the one packet that all its octets spell, and where each message stands in it (RFC 5444, section 5).
/// Refuses the frame at its first fault. TLV values are slices of the frame.
pub fn decode<'a>(alloc: Global, frame: &'a [u8]) -> Result<Decoded<'a>, DecodeFault>
    // What is read is spelled so.
    ensures value { IfOk result (λ decoded. Spells (fields_of_packet decoded.packet) decoded.spans frame.now) }

    // What is spelled so is read.
    ensures only { (packet : PacketFields) (spans : List Span) → Spells packet spans frame.now → Gives fields_of_decoded result (Ok (packet, spans)) }

    // What is refused has its first fault there.
    ensures refused { IfErr result (IfRefused (λ refusal. FirstFault frame.now refusal.place refusal.reason)) }

    // What has its first fault there is refused so.
    ensures first { (place reason : ℕ) → FirstFault frame.now place reason → Gives fields_of_decoded result (refuse place reason) }

    // Each message is spelled at its span.
    ensures placed { IfOk result (λ decoded. ArePlaced (fields_of_packet decoded.packet).messages decoded.spans frame.now) }

    // What is read can be encoded.
    ensures encodable { IfOk result (λ decoded. IsEncodable (fields_of_packet decoded.packet)) }
{
    whole(alloc, frame)
}
