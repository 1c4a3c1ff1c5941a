//! Reading TLV blocks: the value that the octets spell, or their first fault (RFC 5444, section 5.4).
ghost use Rattle.std.specs.Prelude.{◌≡◌, ◌≤◌, ◌<◌, ◌-◌, ◌+◌, ◌++◌, ℕ, List, length, map, slice_range, All, Ok, Err, IfOk, IfErr};
ghost use Rattle.mesh_atoms.specs.Reading.{Gives, IfRefused, Reads};
ghost use Rattle.mesh_atoms.specs.declared.refusal.Refusal.{Refusal};
ghost use Rattle.mesh_tlv.specs.Fields.{TlvFields, AddrTlvFields, fields, addr_fields, block_fields, addr_block_fields};
ghost use Rattle.mesh_tlv.specs.Items.{FirstFaultAt, all_by_fields};
ghost use Rattle.mesh_tlv.specs.Least.{IsFit};
ghost use Rattle.mesh_tlv.specs.Grammar.{SpellsTlvBlock, SpellsAddrTlvBlock, TlvBlockFault, AddrTlvBlockFault};
ghost use Rattle.mesh_tlv.specs.Reading.{tlv_of_at, addr_tlv_at, tlv_at, range_at, block_at};

use crate::bits::{ADDRESS_FLAGS, MULTI_VALUE};
use crate::field::{extension, flags, indexes, parts, value};
use crate::reader::{ItemReader, read_items};
use crate::tlv::{AddrTlv, Tlv};
use mesh_atoms::reason::{BLOCK_LENGTH, SHORT};
use mesh_atoms::{DecodeFault, Refusal, Seq, read_octet, read_short, refuse};
use std::alloc::Global;

/// What one kind of TLV takes: no flags of `barred`, and indexes below `count`.
#[derive(Clone, Copy)]
struct Form {
    barred: u8,
    count: u8,
}

/// One TLV of this form.
#[tactic(auto, unfolding(crate::specs::Reading::tlv_of_at))]
fn read_tlv_of<'a>(
    form: Form,
    frame: &'a [u8],
    at: usize,
    end: usize,
) -> Result<(AddrTlv<'a>, usize), Refusal>
    requires count { 0 < form.count }
    requires end { end ≤ length frame.now }
    ensures exact { Reads (λ x. (addr_fields x.0, x.1)) result (tlv_of_at form.barred form.count frame.now at end) }
    ensures after { IfOk result (λ x. (x.1 ≤ end) × (at < x.1)) }
{
    let Form { barred, count } = form;
    let (kind, at) = read_octet(frame, at, end, BLOCK_LENGTH)?;
    let (flags, at) = flags(barred, frame, at, end)?;
    let (ext, at) = extension(flags, frame, at, end)?;
    let ((first, last), at) = indexes(flags, count, frame, at, end)?;
    let multi = flags & MULTI_VALUE != 0;
    let (value, at) = value(flags, parts(multi, first, last), frame, at, end)?;
    Ok((
        AddrTlv {
            kind,
            ext,
            first,
            last,
            multi,
            value,
        },
        at,
    ))
}

impl<'a> ItemReader<'a> for Form {
    ghost use Rattle.std.specs.Prelude.{◌<◌};
    ghost use Rattle.mesh_tlv.specs.Fields.{AddrTlvFields, addr_fields};
    ghost use Rattle.mesh_tlv.specs.Reading.{tlv_of_at};

    type Item = AddrTlv<'a>;

    ghost Fields = { AddrTlvFields };

    ghost fields = { addr_fields };

    ghost can_read = { λ form. 0 < form.count };

    ghost item_at = { λ form. tlv_of_at form.barred form.count };

    fn read(
        self,
        _alloc: Global,
        frame: &'a [u8],
        at: usize,
        end: usize,
    ) -> Result<(AddrTlv<'a>, usize), DecodeFault> {
        let (tlv, after) = read_tlv_of(self, frame, at, end)?;
        Ok((tlv, after))
    }
}

/// TLVs of a packet or a message, which cover no addresses.
#[derive(Clone, Copy)]
struct MessageTlvs;

impl<'a> ItemReader<'a> for MessageTlvs {
    ghost use Rattle.mesh_tlv.specs.Fields.{TlvFields, fields};
    ghost use Rattle.mesh_tlv.specs.Reading.{tlv_at};

    type Item = Tlv<'a>;

    ghost Fields = { TlvFields };

    ghost fields = { fields };

    ghost can_read = { λ tlvs. Unit {0} };

    ghost item_at = { λ tlvs. tlv_at };

    #[tactic(auto, unfolding(crate::specs::Reading::tlv_at))]
    fn read(
        self,
        _alloc: Global,
        frame: &'a [u8],
        at: usize,
        end: usize,
    ) -> Result<(Tlv<'a>, usize), DecodeFault> {
        let form = Form {
            barred: ADDRESS_FLAGS,
            count: 1,
        };
        let (tlv, after) = read_tlv_of(form, frame, at, end)?;
        Ok((
            Tlv {
                kind: tlv.kind,
                ext: tlv.ext,
                value: tlv.value,
            },
            after,
        ))
    }
}

/// Where a block's TLVs begin and end, behind its length.
#[tactic(auto, unfolding(crate::specs::Reading::range_at))]
fn range(frame: &[u8], at: usize, end: usize) -> Result<(usize, usize), Refusal>
    requires at { at ≤ end }
    requires end { end ≤ length frame.now }
    ensures exact { result ≡ range_at frame.now at end }
    ensures after { IfOk result (λ x. (at ≤ x.0) × (x.0 ≤ x.1) × (x.1 ≤ end)) }
{
    let (len, start) = read_short(frame, at, end, SHORT)?;
    let len = usize::from(len);
    if end - start < len {
        return Err(refuse(at, BLOCK_LENGTH));
    }
    Ok((start, start + len))
}

/// A block of items: its length, and the items that fill it.
#[tactic(auto, unfolding(crate::specs::Reading::block_at))]
fn read_block<'a, R: ItemReader<'a>>(
    alloc: Global,
    reader: R,
    frame: &'a [u8],
    at: usize,
    end: usize,
) -> Result<(Seq<R::Item>, usize), DecodeFault>
    requires can { R.can_read reader }
    requires at { at ≤ end }
    requires end { end ≤ length frame.now }
    ensures { Gives (all_by_fields R.fields) result (block_at (R.item_at reader) frame.now at end) }
{
    let (start, stop) = range(frame, at, end)?;
    read_items(alloc, reader, frame, start, stop)
}

/// Reads the TLV block of a packet or a message that begins at `at` (RFC 5444, section 5.4), in a frame or message that
/// goes up to `end`, and gives the place after the block. Places are counted in octets from the start of the frame.
/// `Refused` has the first fault, in the order of the fields. An allocation failure may come in place of any other answer.
pub fn read_tlvs<'a>(
    alloc: Global,
    frame: &'a [u8],
    at: usize,
    end: usize,
) -> Result<(Seq<Tlv<'a>>, usize), DecodeFault>
    requires at { at ≤ end }
    requires end { end ≤ length frame.now }

    // What is read is spelled by the octets up to the place that is given.
    ensures value { IfOk result (λ x. (at ≤ x.1) × (x.1 ≤ end) × SpellsTlvBlock (map fields x.0) (slice_range frame.now at x.1)) }

    // TLVs that the octets spell are read, whatever follows.
    ensures only { (tlvs : List TlvFields) (bytes rest : List ℕ) → SpellsTlvBlock tlvs bytes → slice_range frame.now at end ≡ bytes ++ rest → Gives block_fields result (Ok (tlvs, at + length bytes)) }

    // What is refused has its first fault there.
    ensures refused { IfErr result (IfRefused (FirstFaultAt TlvBlockFault frame.now at end)) }

    // What has a first fault is refused so.
    ensures first { (refusal : Refusal) → FirstFaultAt TlvBlockFault frame.now at end refusal → Gives block_fields result (Err refusal) }

    // How it is read, field by field.
    ensures exact { Gives block_fields result (block_at tlv_at frame.now at end) }
{
    read_block(alloc, MessageTlvs, frame, at, end)
}

/// Reads the TLV block behind a block of `count` addresses (RFC 5444, section 5.4), as `read_tlvs` reads that of a
/// message.
pub fn read_addr_tlvs<'a>(
    alloc: Global,
    frame: &'a [u8],
    at: usize,
    end: usize,
    count: u8,
) -> Result<(Seq<AddrTlv<'a>>, usize), DecodeFault>
    requires count { 0 < count }
    requires at { at ≤ end }
    requires end { end ≤ length frame.now }

    // What is read is spelled by the octets up to the place that is given.
    ensures value { IfOk result (λ x. (at ≤ x.1) × (x.1 ≤ end) × SpellsAddrTlvBlock count (map addr_fields x.0) (slice_range frame.now at x.1)) }

    // What is read can be written.
    ensures fit { IfOk result (λ x. All (IsFit count) (map addr_fields x.0)) }

    // TLVs that the octets spell are read, whatever follows.
    ensures only { (tlvs : List AddrTlvFields) (bytes rest : List ℕ) → SpellsAddrTlvBlock count tlvs bytes
        → slice_range frame.now at end ≡ bytes ++ rest
        → Gives addr_block_fields result (Ok (tlvs, at + length bytes)) }

    // What is refused has its first fault there.
    ensures refused { IfErr result (IfRefused (FirstFaultAt (AddrTlvBlockFault count) frame.now at end)) }

    // What has a first fault is refused so.
    ensures first { (refusal : Refusal) → FirstFaultAt (AddrTlvBlockFault count) frame.now at end refusal → Gives addr_block_fields result (Err refusal) }

    // How it is read, field by field.
    ensures exact { Gives addr_block_fields result (block_at (addr_tlv_at count) frame.now at end) }
{
    read_block(alloc, Form { barred: 0, count }, frame, at, end)
}
