//! One TLV in its least form: how long it is, and putting it behind other octets (RFC 5444, section 5.4.1).
ghost use Rattle.std.specs.Prelude.{◌≡◌, ◌≤◌, ◌<◌, ◌++◌, ◌∷◌, [], length, OnOk};
ghost use Rattle.std.specs.Option.{option_copied};
ghost use Rattle.mesh_tlv.specs.Fields.{fields, addr_fields, indexed};
ghost use Rattle.mesh_tlv.specs.Least.{flag, octet_if, covers_all, is_single, is_several, has_value, is_wide, least_flags, least_index, least_head, least_short, least_length, least_value, least_addr_tlv, least_tlv, Grows};

use crate::bits::{EXTENSION, MULTI_INDEX, MULTI_VALUE, SINGLE_INDEX, VALUE, WIDE_LENGTH};
use crate::tlv::{AddrTlv, Tlv};
use mesh_atoms::{Bytes, octets_of_short};
use std::alloc::AllocError;

/// The bit of a flag, where it is set.
pub fn flag(set: bool, bit: u8) -> u8
    ensures exact { result ≡ flag set bit }
    ensures most { result ≤ bit }
{
    if set { bit } else { 0 }
}

/// Whether all addresses are covered, so that no index is written.
pub fn are_all_covered(count: u8, first: u8, last: u8) -> bool
    requires { 0 < count }
    ensures { result ≡ covers_all count first last }
{
    first == 0 && last == count - 1
}

/// Whether a single index is written.
pub fn is_single(count: u8, first: u8, last: u8) -> bool
    requires { 0 < count }
    ensures { result ≡ is_single count first last }
{
    !are_all_covered(count, first, last) && first == last
}

/// Whether a multi index is written.
pub fn is_several(count: u8, first: u8, last: u8) -> bool
    requires { 0 < count }
    ensures { result ≡ is_several count first last }
{
    !are_all_covered(count, first, last) && first != last
}

/// Whether a value's length is written with 16 bits.
pub fn is_wide(value: Option<&[u8]>) -> bool
    ensures { result ≡ is_wide (option_copied value.entry) }
{
    match value {
        Some(text) => text.len() > 255,
        None => false,
    }
}

/// Whether there is a value.
pub fn has_value(value: Option<&[u8]>) -> bool
    ensures { result ≡ has_value (option_copied value.entry) }
{
    match value {
        Some(_) => true,
        None => false,
    }
}

/// The flags.
#[tactic(auto, unfolding(crate::specs::Least::least_flags))]
pub fn least_flags(tlv: AddrTlv, count: u8) -> u8
    requires { 0 < count }
    ensures { result ≡ least_flags count (addr_fields tlv.entry) }
{
    flag(tlv.ext != 0, EXTENSION)
        + flag(is_single(count, tlv.first, tlv.last), SINGLE_INDEX)
        + flag(is_several(count, tlv.first, tlv.last), MULTI_INDEX)
        + flag(has_value(tlv.value), VALUE)
        + flag(is_wide(tlv.value), WIDE_LENGTH)
        + flag(tlv.multi, MULTI_VALUE)
}

/// Puts an octet.
pub fn put(octet: u8, out: &mut Bytes) -> Result<(), AllocError>
    ensures ok { OnOk result (out.new ≡ out.old ++ octet ∷ []) }
    ensures kept { Grows out.old out.new }
{
    out.push(octet)
}

/// Puts an octet, where it is written.
pub fn put_if(set: bool, octet: u8, out: &mut Bytes) -> Result<(), AllocError>
    ensures ok { OnOk result (out.new ≡ out.old ++ octet_if set octet) }
    ensures kept { Grows out.old out.new }
{
    if set { put(octet, out) } else { Ok(()) }
}

/// Puts octets.
pub fn put_all(octets: &[u8], out: &mut Bytes) -> Result<(), AllocError>
    ensures ok { OnOk result (out.new ≡ out.old ++ octets.now) }
    ensures kept { Grows out.old out.new }
{
    out.append(octets)
}

/// Puts a number of 16 bits, the high octet first.
pub fn put_short(n: u16, out: &mut Bytes) -> Result<(), AllocError>
    ensures ok { OnOk result (out.new ≡ out.old ++ least_short n) }
    ensures kept { Grows out.old out.new }
{
    put_all(&octets_of_short(n), out)
}

/// Puts a value's length.
pub fn put_length(n: u16, out: &mut Bytes) -> Result<(), AllocError>
    ensures ok { OnOk result (out.new ≡ out.old ++ least_length n) }
    ensures kept { Grows out.old out.new }
{
    if n > 255 {
        put_short(n, out)
    } else {
        put(n as u8, out)
    }
}

/// Puts a value behind its length.
pub fn put_value(value: Option<&[u8]>, out: &mut Bytes) -> Result<(), AllocError>
    requires { length (least_value (option_copied value)) ≤ 65535 }
    ensures ok { OnOk result (out.new ≡ out.old ++ least_value (option_copied value.entry)) }
    ensures kept { Grows out.old out.new }
{
    match value {
        Some(text) => {
            put_length(text.len() as u16, out)?;
            put_all(text, out)
        }
        None => Ok(()),
    }
}

/// Puts the indexes.
pub fn put_index(tlv: AddrTlv, count: u8, out: &mut Bytes) -> Result<(), AllocError>
    requires { 0 < count }
    ensures ok { OnOk result (out.new ≡ out.old ++ least_index count tlv.entry.first tlv.entry.last) }
    ensures kept { Grows out.old out.new }
{
    put_if(!are_all_covered(count, tlv.first, tlv.last), tlv.first, out)?;
    put_if(is_several(count, tlv.first, tlv.last), tlv.last, out)
}

/// Puts what stands before the value.
#[tactic(auto, unfolding(crate::specs::Least::least_head))]
pub fn put_head(tlv: AddrTlv, count: u8, out: &mut Bytes) -> Result<(), AllocError>
    requires { 0 < count }
    ensures ok { OnOk result (out.new ≡ out.old ++ least_head count (addr_fields tlv.entry)) }
    ensures kept { Grows out.old out.new }
{
    put(tlv.kind, out)?;
    put(least_flags(tlv, count), out)?;
    put_if(tlv.ext != 0, tlv.ext, out)?;
    put_index(tlv, count, out)
}

/// Puts a TLV of a block of `count` addresses.
pub fn put_addr_tlv(tlv: AddrTlv, count: u8, out: &mut Bytes) -> Result<(), AllocError>
    requires count { 0 < count }
    requires len { length (least_addr_tlv count (addr_fields tlv)) ≤ 65535 }
    ensures ok { OnOk result (out.new ≡ out.old ++ least_addr_tlv count (addr_fields tlv.entry)) }
    ensures kept { Grows out.old out.new }
{
    put_head(tlv, count, out)?;
    put_value(tlv.value, out)
}

/// How long a value is behind its length.
pub fn value_len(value: Option<&[u8]>) -> usize
    ensures { result ≡ length (least_value (option_copied value.entry)) }
{
    match value {
        Some(text) => {
            if text.len() > 255 {
                text.len() + 2
            } else {
                text.len() + 1
            }
        }
        None => 0,
    }
}

/// How long the indexes are.
pub fn index_len(tlv: AddrTlv, count: u8) -> usize
    requires { 0 < count }
    ensures exact { result ≡ length (least_index count tlv.entry.first tlv.entry.last) }
    ensures most { result ≤ 2 }
{
    if are_all_covered(count, tlv.first, tlv.last) {
        0
    } else if tlv.first == tlv.last {
        1
    } else {
        2
    }
}

/// How long what stands before the value is.
#[tactic(auto, unfolding(crate::specs::Least::least_head))]
pub fn head_len(tlv: AddrTlv, count: u8) -> usize
    requires { 0 < count }
    ensures exact { result ≡ length (least_head count (addr_fields tlv.entry)) }
    ensures most { result ≤ 5 }
{
    let ext = if tlv.ext == 0 { 0 } else { 1 };
    2 + ext + index_len(tlv, count)
}

/// How long a TLV of a block of `count` addresses is.
pub fn addr_tlv_len(tlv: AddrTlv, count: u8) -> usize
    requires { 0 < count }
    ensures { result ≡ length (least_addr_tlv count (addr_fields tlv.entry)) }
{
    head_len(tlv, count) + value_len(tlv.value)
}

/// A TLV as it is written: one of a packet or a message as one of a block of one address, which it covers.
pub trait Indexed<'a>: Copy {
    ghost use Rattle.std.specs.Prelude.{◌≡◌};
    ghost use Rattle.mesh_tlv.specs.Fields.{AddrTlvFields, addr_fields};

    ghost written: { Self → AddrTlvFields };

    fn indexed(self) -> AddrTlv<'a>
        ensures { addr_fields result ≡ written self };
}

impl<'a> Indexed<'a> for AddrTlv<'a> {
    ghost use Rattle.mesh_tlv.specs.Fields.{addr_fields};

    ghost written = { addr_fields };

    fn indexed(self) -> AddrTlv<'a> {
        self
    }
}

impl<'a> Indexed<'a> for Tlv<'a> {
    ghost use Rattle.mesh_tlv.specs.Fields.{fields, indexed};

    ghost written = { λ tlv. indexed (fields tlv) };

    fn indexed(self) -> AddrTlv<'a> {
        AddrTlv {
            kind: self.kind,
            ext: self.ext,
            first: 0,
            last: 0,
            multi: false,
            value: self.value,
        }
    }
}
