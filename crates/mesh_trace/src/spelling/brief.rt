//! Whether the address blocks of a message are spelled in the fewest octets.
ghost use Rattle.std.specs.Prelude.{◌≡◌, ◌++◌, ◌+◌, ◌<◌, ◌≤◌, ◌^◌, ◌↔◌, ℕ, List, length, map, slice_range, All, IfOk, IfSome, IsNone, IsTrue};
ghost use Rattle.mesh_addr.specs.Grammar.{IsWritable, SpellsBlock};
ghost use Rattle.mesh_tlv.specs.Fields.{TlvFields, AddrTlvFields};
ghost use Rattle.mesh_tlv.specs.Grammar.{SpellsTlvBlock, SpellsAddrTlvBlock};
ghost use Rattle.mesh_tlv.specs.Items.{SpellsItems};
ghost use Rattle.mesh_packet.specs.Fields.{fields_of_block, fields_of_message};
ghost use Rattle.mesh_packet.specs.Grammar.{SpellsMessage, SpellsPair};
ghost use Rattle.mesh_packet.specs.Least.{IsEncodableBlock, IsEncodableMessage};
ghost use Rattle.mesh_wire.specs.Sizes.{size_before};
ghost use Rattle.mesh_wire.specs.Writes.{SpellsBriefly, HasBriefBlocks};

use mesh_addr::{AddrBlock, read_block, write_least};
use mesh_atoms::{Bytes, DecodeFault};
use mesh_packet::{Block, Message, Span};
use mesh_tlv::{read_addr_tlvs, read_tlvs};
use std::alloc::{AllocError, Global};

// How many octets a message has before its TLVs: type, flags and size, and an originator of its width, a hop limit, a hop count and a
// sequence number where they are there.
fn size_before(message: &Message) -> usize
    ensures { result ≡ size_before (fields_of_message message.now) }
{
    let originator = if message.originator.is_some() {
        usize::from(message.width)
    } else {
        0
    };
    let limit = if message.limit.is_some() { 1 } else { 0 };
    let count = if message.count.is_some() { 1 } else { 0 };
    let sequence = if message.sequence.is_some() { 2 } else { 0 };
    4 + originator + limit + count + sequence
}

// How many octets the least spelling of a block has.
fn least_len(alloc: Global, block: &AddrBlock) -> Result<usize, AllocError>
    requires { IsWritable block.now.width block.now.addrs }
    ensures some { IfOk result (λ len. (text : List ℕ) × SpellsBlock block.now.width block.now.addrs text × (length text ≡ len)) }
    ensures least { IfOk result (λ len. (text : List ℕ) → SpellsBlock block.now.width block.now.addrs text → len ≤ length text) }
{
    let mut least = Bytes::new(alloc);
    write_least(block, &mut least)?;
    Ok(least.len())
}

// The place behind a TLV block that was read before.
fn behind_tlvs(alloc: Global, frame: &[u8], at: usize, end: usize) -> Result<usize, AllocError>
    requires at { at ≤ end }
    requires end { end ≤ length frame.now }
    ensures { IfOk result (λ next. (tlvs : List TlvFields) (bytes rest : List ℕ) → SpellsTlvBlock tlvs bytes → slice_range frame.now at end ≡ bytes ++ rest
        → next ≡ at + length bytes) }
{
    match read_tlvs(alloc, frame, at, end) {
        Ok((_, next)) => Ok(next),
        Err(DecodeFault::Refused(_)) => Ok(end),
        Err(DecodeFault::Memory(e)) => Err(e),
    }
}

// The place behind the TLV block of so many addresses that was read before.
fn behind_addr_tlvs(
    alloc: Global,
    frame: &[u8],
    at: usize,
    end: usize,
    count: u8,
) -> Result<usize, AllocError>
    requires count { 0 < count }
    requires at { at ≤ end }
    requires end { end ≤ length frame.now }
    ensures { IfOk result (λ next. (tlvs : List AddrTlvFields) (bytes rest : List ℕ) → SpellsAddrTlvBlock count tlvs bytes
        → slice_range frame.now at end ≡ bytes ++ rest → next ≡ at + length bytes) }
{
    match read_addr_tlvs(alloc, frame, at, end, count) {
        Ok((_, next)) => Ok(next),
        Err(DecodeFault::Refused(_)) => Ok(end),
        Err(DecodeFault::Memory(e)) => Err(e),
    }
}

// The place behind an address block that was read before, if it is spelled in the fewest octets.
fn behind_brief(
    alloc: Global,
    frame: &[u8],
    at: usize,
    end: usize,
    block: &AddrBlock,
) -> Result<Option<usize>, AllocError>
    requires at { at < end }
    requires end { end ≤ length frame.now }
    requires some { 0 < block.now.width }
    requires width { block.now.width ≤ 16 }
    requires writable { IsWritable block.now.width block.now.addrs }
    ensures brief { IfOk result (λ found. (text rest : List ℕ) → SpellsBlock block.now.width block.now.addrs text → slice_range frame.now at end ≡ text ++ rest
        → IfSome found (λ next. (next ≡ at + length text) × ((other : List ℕ) → SpellsBlock block.now.width block.now.addrs other → length text ≤ length other))) }
    ensures wordy { IfOk result (λ found. (text rest : List ℕ) → SpellsBlock block.now.width block.now.addrs text → slice_range frame.now at end ≡ text ++ rest
        → IsNone found → (other : List ℕ) × SpellsBlock block.now.width block.now.addrs other × (length other < length text)) }
{
    match read_block(alloc, frame, at, end, block.width) {
        Ok((_, next)) => {
            if next - at == least_len(alloc, block)? {
                Ok(Some(next))
            } else {
                Ok(None)
            }
        }
        Err(DecodeFault::Refused(_)) => Ok(None),
        Err(DecodeFault::Memory(e)) => Err(e),
    }
}

// The place behind an address block and its TLV block that were read before, if the address block is spelled in the fewest
// octets.
fn behind_pair(
    alloc: Global,
    frame: &[u8],
    at: usize,
    end: usize,
    block: &Block,
) -> Result<Option<usize>, AllocError>
    requires end { end ≤ length frame.now }
    requires encodable { IsEncodableBlock block.now.addrs.width (fields_of_block block.now) }
    requires spelled { (text : List ℕ) × (rest : List ℕ) × SpellsPair block.now.addrs.width (fields_of_block block.now) text × (slice_range frame.now at end ≡ text ++ rest) }
    ensures some { IfOk result (λ found. IfSome found (λ next. (text rest : List ℕ) → SpellsPair block.now.addrs.width (fields_of_block block.now) text
        → slice_range frame.now at end ≡ text ++ rest
        → (next ≡ at + length text) × SpellsBriefly block.now.addrs.width (fields_of_block block.now) text)) }
    ensures none { IfOk result (λ found. IsNone found → (text rest : List ℕ) → SpellsBriefly block.now.addrs.width (fields_of_block block.now) text
        → slice_range frame.now at end ≡ text ++ rest → ⊥) }
{
    match behind_brief(alloc, frame, at, end, &block.addrs)? {
        Some(next) => {
            let count = block.addrs.addrs.len() as u8;
            Ok(Some(behind_addr_tlvs(alloc, frame, next, end, count)?))
        }
        None => Ok(None),
    }
}

// Whether each address block that stands there, up to the end, is spelled in the fewest octets.
fn are_brief(
    alloc: Global,
    width: u8,
    blocks: &[Block],
    frame: &[u8],
    start: usize,
    end: usize,
) -> Result<bool, AllocError>
    requires end { end ≤ length frame.now }
    requires encodable { All (IsEncodableBlock width) (map fields_of_block blocks.now) }
    requires spelled { SpellsItems (SpellsPair width) (map fields_of_block blocks.now) (slice_range frame.now start end) }
    ensures { IfOk result (λ yes. IsTrue yes ↔ SpellsItems (SpellsBriefly width) (map fields_of_block blocks.now) (slice_range frame.now start end)) }
{
    let mut at = start;
    for i in 0..blocks.len() {
        match behind_pair(alloc, frame, at, end, &blocks[i])? {
            Some(next) => at = next,
            None => return Ok(false),
        }
    }
    Ok(true)
}

/// Whether each address block of a message that stands there in a frame is spelled in the fewest octets.
pub(crate) fn is_brief(
    alloc: Global,
    message: &Message,
    frame: &[u8],
    span: Span,
) -> Result<bool, AllocError>
    requires end { span.start + span.len ≤ length frame.now }
    requires encodable { IsEncodableMessage (fields_of_message message.now) }
    requires spelled { SpellsMessage (fields_of_message message.now) (slice_range frame.now span.start (span.start + span.len)) }
    ensures { IfOk result (λ yes. (text : List ℕ) (spelled : SpellsMessage (fields_of_message message.now) text)
        → slice_range frame.now span.start (span.start + span.len) ≡ text → IsTrue yes ↔ HasBriefBlocks spelled) }
{
    let end = span.start + span.len;
    let at = behind_tlvs(alloc, frame, span.start + size_before(message), end)?;
    are_brief(
        alloc,
        message.width,
        message.blocks.as_slice(),
        frame,
        at,
        end,
    )
}
