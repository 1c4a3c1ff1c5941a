//! Writing a packet in its least form (RFC 5444, section 5).
ghost use Rattle.std.specs.Prelude.{◌≡◌, ◌≤◌, ◌<◌, ◌+◌, ◌++◌, ◌∷◌, [], List, All, length, map, Ok, Err, IfOk, OnOk};
ghost use Rattle.mesh_addr.specs.Grammar.{IsWritable};
ghost use Rattle.mesh_tlv.specs.Fields.{fields};
ghost use Rattle.mesh_tlv.specs.Items.{SpellsItems};
ghost use Rattle.mesh_tlv.specs.Least.{least_short};
ghost use Rattle.mesh_packet.specs.declared.packet.EncodeFault.TheVariants as EncodeFault;
ghost use Rattle.mesh_packet.specs.declared.packet.Span.{Span};
ghost use Rattle.mesh_packet.specs.Fields.{fields_of_block, fields_of_message, fields_of_packet};
ghost use Rattle.mesh_packet.specs.Grammar.{Spells};
ghost use Rattle.mesh_packet.specs.Least.{IsEncodableBlock, IsEncodableMessage, IsEncodable, IsPaddedOriginator, least_octet, least_number, least_originator, least_head, message_flags, LeastPair, LeastBody, LeastMessage, least_header_tlvs, packet_flags, LeastForm, Passes, IsTooLong, Wrote};

use crate::flags::{COUNT, LIMIT, ORIGINATOR, PACKET_SEQUENCE, PACKET_TLVS, SEQUENCE};
use crate::packet::{Block, EncodeFault, Message, Packet};
use mesh_addr::{RawAddr, write_least};
use mesh_atoms::{Bytes, LONGEST_DATAGRAM};
use mesh_tlv::{Tlv, flag, put_short, write_addr_tlvs, write_tlvs};
use std::alloc::{AllocError, Global};

/// The octets of a message before its body: type, flags and size.
const FRONT: usize = 4;

/// The octets of a body for which memory is taken at once. Most have fewer.
const BODY: usize = 512;

/// Appends an octet, where it is there.
fn put_octet(octet: Option<u8>, out: &mut Bytes) -> Result<(), AllocError>
    ensures { OnOk result (out.new ≡ out.old ++ least_octet octet) }
{
    match octet {
        Some(octet) => out.push(octet),
        None => Ok(()),
    }
}

/// Appends a number of 16 bits, where it is there.
fn put_number(number: Option<u16>, out: &mut Bytes) -> Result<(), AllocError>
    ensures { OnOk result (out.new ≡ out.old ++ least_number number) }
{
    match number {
        Some(number) => put_short(number, out),
        None => Ok(()),
    }
}

/// Appends the octets of an originator, where it is there.
fn put_originator(width: u8, originator: Option<RawAddr>, out: &mut Bytes) -> Result<(), AllocError>
    requires { width ≤ 16 }
    ensures { OnOk result (out.new ≡ out.old ++ least_originator width originator) }
{
    match originator {
        Some(addr) => out.append(&addr.octets[..usize::from(width)]),
        None => Ok(()),
    }
}

/// Appends what a message has before its TLVs.
#[tactic(auto, unfolding(crate::specs::Least::least_head))]
fn put_head(message: &Message, out: &mut Bytes) -> Result<(), AllocError>
    requires { message.now.width ≤ 16 }
    ensures { OnOk result (out.new ≡ out.old ++ least_head (fields_of_message message.now)) }
{
    put_originator(message.width, message.originator, out)?;
    put_octet(message.limit, out)?;
    put_octet(message.count, out)?;
    put_number(message.sequence, out)
}

/// The flags of a message, with its width.
#[tactic(auto, unfolding(crate::specs::Least::message_flags))]
fn message_flags(message: &Message) -> u8
    requires some { 0 < message.now.width }
    requires most { message.now.width ≤ 16 }
    ensures { result ≡ message_flags (fields_of_message message.now) }
{
    flag(message.originator.is_some(), ORIGINATOR)
        + flag(message.limit.is_some(), LIMIT)
        + flag(message.count.is_some(), COUNT)
        + flag(message.sequence.is_some(), SEQUENCE)
        + (message.width - 1)
}

/// Appends an address block and the TLV block of its addresses.
fn write_pair(block: &Block, out: &mut Bytes) -> Result<(), EncodeFault>
    requires { IsEncodableBlock block.now.addrs.width (fields_of_block block.now) }
    ensures ok { OnOk result (Wrote (LeastPair (fields_of_block block.now)) out.old out.new) }
    ensures too_long { result ≡ Err EncodeFault.TooLong → Passes (LeastPair (fields_of_block block.now)) 0 }
{
    write_least(&block.addrs, out)?;
    write_addr_tlvs(block.tlvs.as_slice(), block.addrs.addrs.len() as u8, out)?;
    Ok(())
}

/// Appends the address blocks of a message, each with its TLV block.
fn write_pairs(width: u8, blocks: &[Block], out: &mut Bytes) -> Result<(), EncodeFault>
    requires { All (IsEncodableBlock width) (map fields_of_block blocks.now) }
    ensures ok { OnOk result (Wrote (SpellsItems LeastPair (map fields_of_block blocks.now)) out.old out.new) }
    ensures too_long { result ≡ Err EncodeFault.TooLong → Passes (SpellsItems LeastPair (map fields_of_block blocks.now)) 0 }
{
    for block in blocks {
        write_pair(block, out)?;
    }
    Ok(())
}

/// Appends what stands in a message behind its size.
fn write_body(message: &Message, out: &mut Bytes) -> Result<(), EncodeFault>
    requires { IsEncodableMessage (fields_of_message message.now) }
    ensures ok { OnOk result (Wrote (LeastBody (fields_of_message message.now)) out.old out.new) }
    ensures too_long { result ≡ Err EncodeFault.TooLong → Passes (LeastBody (fields_of_message message.now)) 0 }
{
    put_head(message, out)?;
    write_tlvs(message.tlvs.as_slice(), out)?;
    write_pairs(message.width, message.blocks.as_slice(), out)
}

/// Appends a message whose body is written already, if both fit.
fn put_message(message: &Message, body: &Bytes, out: &mut Bytes) -> Result<(), EncodeFault>
    requires some { 0 < message.now.width }
    requires most { message.now.width ≤ 16 }
    requires body { LeastBody (fields_of_message message.now) body.now }
    requires room { length out.old ≤ LONGEST_DATAGRAM }
    ensures ok { OnOk result (Wrote (LeastMessage (fields_of_message message.now)) out.old out.new × (length out.new ≤ LONGEST_DATAGRAM)) }
    ensures too_long { result ≡ Err EncodeFault.TooLong → LONGEST_DATAGRAM < length out.old + (4 + length body.now) }
{
    let room = LONGEST_DATAGRAM - out.len();
    if room < FRONT || room - FRONT < body.len() {
        return Err(EncodeFault::TooLong);
    }
    out.push(message.kind)?;
    out.push(message_flags(message))?;
    put_short((FRONT + body.len()) as u16, out)?;
    out.append(body.as_slice())?;
    Ok(())
}

/// Appends a message. Its body is first written into `body`, since its size stands before it.
fn write_message(message: &Message, body: &mut Bytes, out: &mut Bytes) -> Result<(), EncodeFault>
    requires encodable { IsEncodableMessage (fields_of_message message.now) }
    requires room { length out.old ≤ LONGEST_DATAGRAM }
    ensures ok { OnOk result (Wrote (LeastMessage (fields_of_message message.now)) out.old out.new × (length out.new ≤ LONGEST_DATAGRAM)) }
    ensures too_long { result ≡ Err EncodeFault.TooLong → Passes (LeastMessage (fields_of_message message.now)) (length out.old) }
{
    body.clear();
    write_body(message, body)?;
    put_message(message, body, out)
}

/// No octets, with memory for those of most bodies where it can be had.
fn body_room(alloc: Global) -> Bytes
    ensures { result ≡ [] }
{
    match Vec::with_capacity(alloc, BODY) {
        Ok(items) => Bytes::from_vec(items),
        Err(_) => Bytes::new(alloc),
    }
}

/// Appends messages.
fn write_messages(alloc: Global, messages: &[Message], out: &mut Bytes) -> Result<(), EncodeFault>
    requires encodable { All IsEncodableMessage (map fields_of_message messages.now) }
    requires room { length out.old ≤ LONGEST_DATAGRAM }
    ensures ok { OnOk result (Wrote (SpellsItems LeastMessage (map fields_of_message messages.now)) out.old out.new × (length out.new ≤ LONGEST_DATAGRAM)) }
    ensures too_long { result ≡ Err EncodeFault.TooLong → Passes (SpellsItems LeastMessage (map fields_of_message messages.now)) (length out.old) }
{
    let mut body = body_room(alloc);
    for message in messages {
        write_message(message, &mut body, out)?;
    }
    Ok(())
}

/// Appends the TLV block of a packet's header, where it isn't empty.
fn write_header_tlvs(tlvs: &[Tlv], out: &mut Bytes) -> Result<(), EncodeFault>
    ensures ok { OnOk result (out.new ≡ out.old ++ least_header_tlvs (map fields tlvs.now)) }
    ensures too_long { result ≡ Err EncodeFault.TooLong → LONGEST_DATAGRAM < length (least_header_tlvs (map fields tlvs.now)) }
{
    match tlvs {
        [] => Ok(()),
        _ => {
            write_tlvs(tlvs, out)?;
            Ok(())
        }
    }
}

/// The first octet of a packet.
fn packet_flags(packet: &Packet) -> u8
    ensures { result ≡ packet_flags (fields_of_packet packet.now) }
{
    flag(packet.sequence.is_some(), PACKET_SEQUENCE) + flag(packet.tlvs.len() > 0, PACKET_TLVS)
}

/// Appends what a packet has before its messages.
fn write_header(packet: &Packet, out: &mut Bytes) -> Result<(), EncodeFault>
    requires { out.old ≡ [] }
    ensures ok { OnOk result ((out.new ≡ packet_flags (fields_of_packet packet.now) ∷ (least_number packet.now.sequence ++ least_header_tlvs (map fields packet.now.tlvs))) × (length out.new ≤ LONGEST_DATAGRAM)) }
    ensures too_long { result ≡ Err EncodeFault.TooLong → LONGEST_DATAGRAM < 1 + length (least_number packet.now.sequence) + length (least_header_tlvs (map fields packet.now.tlvs)) }
{
    out.push(packet_flags(packet))?;
    put_number(packet.sequence, out)?;
    write_header_tlvs(packet.tlvs.as_slice(), out)?;
    if out.len() > LONGEST_DATAGRAM {
        return Err(EncodeFault::TooLong);
    }
    Ok(())
}

/// The least form, if it fits.
fn least_form(alloc: Global, packet: &Packet) -> Result<Bytes, EncodeFault>
    requires { IsEncodable (fields_of_packet packet.now) }
    ensures ok { IfOk result (λ bytes. LeastForm (fields_of_packet packet.now) bytes × (length bytes ≤ LONGEST_DATAGRAM)) }
    ensures too_long { result ≡ Err EncodeFault.TooLong → Passes (LeastForm (fields_of_packet packet.now)) 0 }
{
    let mut out = Bytes::new(alloc);
    write_header(packet, &mut out)?;
    write_messages(alloc, packet.messages.as_slice(), &mut out)?;
    Ok(out)
}

/// The octets of a packet in its least form (RFC 5444, section 5): no TLV block in the header where it is empty, each TLV
/// block and address block as `write_tlvs`, `write_addr_tlvs` and `write_least` of the lower crates write it, and no
/// reserved flag. Each message has addresses of one width from 1 to 16 octets, and its originator has zeros behind them and
/// all bits as prefix. `TooLong` comes where the form has more than 65,507 octets.
pub fn encode(alloc: Global, packet: &Packet) -> Result<Bytes, EncodeFault>
    requires { IsEncodable (fields_of_packet packet.now) }

    // What is written.
    ensures least { IfOk result (LeastForm (fields_of_packet packet.now)) }
    ensures fits { IfOk result (λ bytes. length bytes ≤ LONGEST_DATAGRAM) }

    // It spells the packet.
    ensures spelled { IfOk result (λ bytes. (spans : List Span) × Spells (fields_of_packet packet.now) spans bytes) }

    // What is refused as too long is so, and what is too long isn't encoded.
    ensures too_long { result ≡ Err EncodeFault.TooLong → IsTooLong (fields_of_packet packet.now) }
    ensures long { IsTooLong (fields_of_packet packet.now) → IfOk result (λ bytes. ⊥) }
{
    least_form(alloc, packet)
}
