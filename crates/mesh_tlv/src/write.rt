//! Writing TLV blocks in their least form (RFC 5444, section 5.4).
ghost use Rattle.std.specs.Prelude.{◌≡◌, ◌≤◌, ◌<◌, ◌+◌, ◌++◌, length, map, Err, ◌↔◌, All, OnOk};
ghost use Rattle.std.specs.List.{flat_map};
ghost use Rattle.mesh_tlv.specs.Fields.{fields, addr_fields};
ghost use Rattle.mesh_tlv.specs.declared.tlv.WriteTlv.TheVariants as WriteTlv;
ghost use Rattle.mesh_tlv.specs.Grammar.{SpellsTlvBlock, SpellsAddrTlvBlock};
ghost use Rattle.mesh_tlv.specs.Least.{IsFit, least_addr_tlv, least_tlv, least_block, length_within, AreTooLong, Grows};

use crate::put::{Indexed, addr_tlv_len, put_addr_tlv, put_short};
use crate::tlv::{AddrTlv, Tlv, WriteTlv};
use mesh_atoms::Bytes;
use std::alloc::AllocError;

/// The most octets that a block's length can say.
const LONGEST: usize = 65535;

/// How long the TLVs of a block of `count` addresses are together, where a block's length can say it.
fn tlvs_length<'a, T: Indexed<'a>>(tlvs: &[T], count: u8) -> Option<u16>
    requires { 0 < count }
    ensures { result ≡ length_within (length (flat_map (least_addr_tlv count) (map T.written tlvs.now))) }
{
    let mut total = 0;
    for tlv in tlvs {
        let len = addr_tlv_len((*tlv).indexed(), count);
        if len > LONGEST - total {
            return None;
        }
        total += len;
    }
    Some(total as u16)
}

/// Puts the TLVs of a block of `count` addresses.
fn put_tlvs<'a, T: Indexed<'a>>(tlvs: &[T], count: u8, out: &mut Bytes) -> Result<(), AllocError>
    requires count { 0 < count }
    requires len { length (flat_map (least_addr_tlv count) (map T.written tlvs.now)) ≤ 65535 }
    ensures ok { OnOk result (out.new ≡ out.old ++ flat_map (least_addr_tlv count) (map T.written tlvs.now)) }
    ensures kept { Grows out.old out.new }
{
    for tlv in tlvs {
        put_addr_tlv((*tlv).indexed(), count, out)?;
    }
    Ok(())
}

/// Puts the block of these TLVs behind `count` addresses, whose length together is known.
fn put_block<'a, T: Indexed<'a>>(
    tlvs: &[T],
    count: u8,
    len: u16,
    out: &mut Bytes,
) -> Result<(), AllocError>
    requires count { 0 < count }
    requires len { len ≡ length (flat_map (least_addr_tlv count) (map T.written tlvs.now)) }
    ensures ok { OnOk result (out.new ≡ out.old ++ least_block (least_addr_tlv count) (map T.written tlvs.now)) }
    ensures kept { Grows out.old out.new }
{
    put_short(len, out)?;
    put_tlvs(tlvs, count, out)
}

/// Appends the block of these TLVs behind `count` addresses, unless it is too long.
fn write_block<'a, T: Indexed<'a>>(tlvs: &[T], count: u8, out: &mut Bytes) -> Result<(), WriteTlv>
    requires { 0 < count }
    ensures ok { OnOk result (out.new ≡ out.old ++ least_block (least_addr_tlv count) (map T.written tlvs.now)) }
    ensures fits { OnOk result (length (flat_map (least_addr_tlv count) (map T.written tlvs.now)) ≤ 65535) }
    ensures too_long { result ≡ Err WriteTlv.TooLong → (65535 < length (flat_map (least_addr_tlv count) (map T.written tlvs.now))) × (out.new ≡ out.old) }
    ensures long { 65535 < length (flat_map (least_addr_tlv count) (map T.written tlvs.now)) → result ≡ Err WriteTlv.TooLong }
    ensures kept { Grows out.old out.new }
{
    match tlvs_length(tlvs, count) {
        None => Err(WriteTlv::TooLong),
        Some(len) => {
            put_block(tlvs, count, len, out)?;
            Ok(())
        }
    }
}

/// Appends the block of these packet or message TLVs (RFC 5444, section 5.4) in its least form: an extension only where
/// it isn't 0, and a length of 16 bits only for a value of more than 255 octets. `TooLong` comes where the block's length
/// or that of one value is above 65,535 octets, which their length fields can't say.
pub fn write_tlvs(tlvs: &[Tlv], out: &mut Bytes) -> Result<(), WriteTlv>
    // What is appended.
    ensures ok { OnOk result (out.new ≡ out.old ++ least_block least_tlv (map fields tlvs.now)) }

    // It spells these TLVs.
    ensures spelled { OnOk result (SpellsTlvBlock (map fields tlvs.now) (least_block least_tlv (map fields tlvs.now))) }

    // It is refused exactly where the block, or one value, is too long.
    ensures too_long { (result ≡ Err WriteTlv.TooLong) ↔ AreTooLong least_tlv (λ tlv. tlv.value) (map fields tlvs.now) }
    ensures unchanged { result ≡ Err WriteTlv.TooLong → out.new ≡ out.old }

    // Also after an allocation failure the old octets stand in front.
    ensures kept { Grows out.old out.new }
{
    write_block(tlvs, 1, out)
}

/// Appends the block of these TLVs behind a block of `count` addresses (RFC 5444, section 5.4) in its least form: as
/// `write_tlvs`, and no index where a TLV covers all addresses, else a single index where it covers one, else a multi
/// index.
pub fn write_addr_tlvs(tlvs: &[AddrTlv], count: u8, out: &mut Bytes) -> Result<(), WriteTlv>
    requires count { 0 < count }

    // Each covers addresses of the block, and multivalue has equal parts.
    requires fit { All (IsFit count) (map addr_fields tlvs.now) }

    // What is appended.
    ensures ok { OnOk result (out.new ≡ out.old ++ least_block (least_addr_tlv count) (map addr_fields tlvs.now)) }

    // It spells these TLVs.
    ensures spelled { OnOk result (SpellsAddrTlvBlock count (map addr_fields tlvs.now) (least_block (least_addr_tlv count) (map addr_fields tlvs.now))) }

    // It is refused exactly where the block, or one value, is too long.
    ensures too_long { (result ≡ Err WriteTlv.TooLong) ↔ AreTooLong (least_addr_tlv count) (λ tlv. tlv.value) (map addr_fields tlvs.now) }
    ensures unchanged { result ≡ Err WriteTlv.TooLong → out.new ≡ out.old }

    // Also after an allocation failure the old octets stand in front.
    ensures kept { Grows out.old out.new }
{
    write_block(tlvs, count, out)
}
