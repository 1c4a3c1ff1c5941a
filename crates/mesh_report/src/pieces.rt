//! The pieces that lines are made of.
ghost use Rattle.std.specs.Prelude.{◌≡◌, ◌++◌, [], ◌+◌, ◌≤◌, ◌==◌, if◌then◌else◌, length, codes, take, OnOk};
ghost use Rattle.std.specs.Option.{option_copied};
ghost use Rattle.hex.specs.Hex.{encode_lower};
ghost use Rattle.mesh_tlv.specs.Least.{Grows};
ghost use Rattle.mesh_report.specs.Pieces.{numbered, numbered_or_none, addressed, addressed_or_none, addressed_by_number, valued, chosen, named, reason_name};

use crate::piece::TextBuffer;
use mesh_addr::RawAddr;
use mesh_atoms::{Addr4, Bytes};
use std::alloc::AllocError;

/// Puts what `line` holds behind others.
#[inline(never)]
pub fn put_held(out: &mut Bytes, line: &mut TextBuffer) -> Result<(), AllocError>
    ensures ok { OnOk result (out.new ≡ out.old ++ line.old) }
    ensures none { OnOk result (line.new ≡ []) }
    ensures kept { Grows out.old out.new }
{
    out.append(line.as_slice())?;
    line.clear();
    Ok(())
}

/// Puts what `line` holds behind others, where it has no room for 320 octets more.
#[inline(always)]
pub fn make_room(out: &mut Bytes, line: &mut TextBuffer) -> Result<(), AllocError>
    ensures room { OnOk result (length line.new ≤ 3776) }
    ensures ok { OnOk result (out.new ++ line.new ≡ out.old ++ line.old) }
    ensures kept { Grows out.old out.new }
{
    if line.len() > 3776 {
        put_held(out, line)?;
    }
    Ok(())
}

/// Puts a label, and a number in decimal digits.
#[tactic(auto, unfolding(crate::specs::Pieces::numbered))]
#[inline(always)]
pub fn put_numbered<const N: usize>(line: &mut TextBuffer, label: [u8; N], number: u64)
    requires { length line.old + (N + 20) ≤ 4096 }
    ensures text { line.new ≡ line.old ++ numbered label.entry number }
    ensures len { length line.new ≤ length line.old + (N + 20) }
{
    line.put_text(label);
    line.put_number(number);
}

/// Puts a label, and a number that may be absent.
#[tactic(auto, unfolding(crate::specs::Pieces::numbered_or_none))]
#[inline(always)]
pub fn put_number_or_none<const N: usize>(
    line: &mut TextBuffer,
    label: [u8; N],
    number: Option<u64>,
)
    requires { length line.old + (N + 20) ≤ 4096 }
    ensures text { line.new ≡ line.old ++ numbered_or_none label.entry number }
    ensures len { length line.new ≤ length line.old + (N + 20) }
{
    line.put_text(label);
    match number {
        Some(number) => line.put_number(number),
        None => line.put_text(*b"none"),
    }
}

/// A number of 8 bits that may be absent, as one of 64.
pub fn wide_octet(number: Option<u8>) -> Option<u64>
    ensures { result ≡ number }
{
    match number {
        Some(number) => Some(u64::from(number)),
        None => None,
    }
}

/// A number of 16 bits that may be absent, as one of 64.
pub fn wide_short(number: Option<u16>) -> Option<u64>
    ensures { result ≡ number }
{
    match number {
        Some(number) => Some(u64::from(number)),
        None => None,
    }
}

// Puts up to 128 octets in lower-case hexadecimal digits behind what `line` holds.
fn put_some_hex(out: &mut Bytes, line: &mut TextBuffer, octets: &[u8]) -> Result<(), AllocError>
    requires { length octets.now ≤ 128 }
    ensures ok { OnOk result (out.new ++ line.new ≡ (out.old ++ line.old) ++ encode_lower octets.now) }
    ensures len { OnOk result (length line.new ≤ 4032) }
    ensures kept { Grows out.old out.new }
{
    make_room(out, line)?;
    line.put_hex(octets);
    Ok(())
}

/// Puts octets in lower-case hexadecimal digits behind what `line` holds, which is put behind others where it is long.
pub fn put_hex(out: &mut Bytes, line: &mut TextBuffer, octets: &[u8]) -> Result<(), AllocError>
    requires { length line.old ≤ 4032 }
    ensures ok { OnOk result (out.new ++ line.new ≡ (out.old ++ line.old) ++ encode_lower octets.now) }
    ensures len { OnOk result (length line.new ≤ 4032) }
    ensures kept { Grows out.old out.new }
{
    let mut at = 0;
    while at < octets.len() {
        let size = usize::min(128, octets.len() - at);
        put_some_hex(out, line, &octets[at..at + size])?;
        at += size;
    }
    Ok(())
}

/// Puts a label, and the octets of an address of that width.
#[tactic(auto, unfolding(crate::specs::Pieces::addressed))]
#[inline(always)]
pub fn put_address<const N: usize>(line: &mut TextBuffer, label: [u8; N], width: u8, addr: &RawAddr)
    requires { length line.old + (N + 32) ≤ 4096 }
    ensures text { line.new ≡ line.old ++ addressed label.entry width addr.now }
    ensures len { length line.new ≤ length line.old + (N + 32) }
{
    line.put_text(label);
    // Four octets have a way of their own, which has no loop.
    if width == 4 {
        line.put_hex(&addr.octets[..4]);
    } else {
        line.put_hex(&addr.octets[..usize::min(16, usize::from(width))]);
    }
}

/// Puts a label, and an address of that width that may be absent.
#[tactic(auto, unfolding(crate::specs::Pieces::addressed_or_none))]
pub fn put_address_or_none<const N: usize>(
    line: &mut TextBuffer,
    label: [u8; N],
    width: u8,
    addr: Option<RawAddr>,
)
    requires { length line.old + (N + 32) ≤ 4096 }
    ensures text { line.new ≡ line.old ++ addressed_or_none label.entry width addr }
    ensures len { length line.new ≤ length line.old + (N + 32) }
{
    match addr {
        Some(addr) => put_address(line, label, width, &addr),
        None => {
            line.put_text(label);
            line.put_text(*b"none");
        }
    }
}

/// Puts a label, and the four octets of a router's address.
#[tactic(auto, unfolding(crate::specs::Pieces::addressed_by_number))]
pub fn put_router<const N: usize>(line: &mut TextBuffer, label: [u8; N], addr: Addr4)
    requires { length line.old + (N + 8) ≤ 4096 }
    ensures text { line.new ≡ line.old ++ addressed_by_number label.entry addr }
    ensures len { length line.new ≤ length line.old + (N + 8) }
{
    line.put_text(label);
    line.put_hex(&addr.0.to_be_bytes());
}

// Puts the octets of a TLV's value.
fn put_octets(out: &mut Bytes, line: &mut TextBuffer, octets: &[u8]) -> Result<(), AllocError>
    requires { length line.old ≤ 3972 }
    ensures ok { OnOk result (out.new ++ line.new ≡ (out.old ++ line.old) ++ (if length octets.now == 0 then codes "empty" else encode_lower octets.now)) }
    ensures len { OnOk result (length line.new ≤ 4032) }
    ensures kept { Grows out.old out.new }
{
    if octets.is_empty() {
        line.put_text(*b"empty");
        return Ok(());
    }
    put_hex(out, line, octets)
}

/// Puts a label and the value of a TLV.
#[tactic(auto, unfolding(crate::specs::Pieces::valued))]
pub fn put_value(
    out: &mut Bytes,
    line: &mut TextBuffer,
    value: Option<&[u8]>,
) -> Result<(), AllocError>
    requires { length line.old ≤ 3962 }
    ensures ok { OnOk result (out.new ++ line.new ≡ (out.old ++ line.old) ++ valued (codes " value ") (option_copied value.entry)) }
    ensures len { OnOk result (length line.new ≤ 4032) }
    ensures kept { Grows out.old out.new }
{
    line.put_text(*b" value ");
    match value {
        Some(octets) => put_octets(out, line, octets),
        None => {
            line.put_text(*b"none");
            Ok(())
        }
    }
}

/// Puts a label, and a choice.
#[tactic(auto, unfolding(crate::specs::Pieces::chosen))]
pub fn put_choice<const N: usize>(line: &mut TextBuffer, label: [u8; N], choice: bool)
    requires { length line.old + (N + 3) ≤ 4096 }
    ensures text { line.new ≡ line.old ++ chosen label.entry choice }
    ensures len { length line.new ≤ length line.old + (N + 3) }
{
    line.put_text(label);
    if choice {
        line.put_text(*b"yes");
    } else {
        line.put_text(*b"no");
    }
}

// The name of the rule of this number.
#[tactic(auto, unfolding(crate::specs::Pieces::reason_name))]
fn reason_name(reason: u8) -> &'static [u8]
    ensures name { result.now ≡ reason_name reason }
    ensures len { length result.now ≤ 20 }
{
    match reason {
        1 => b"Short",
        2 => b"Version",
        3 => b"MessageSize",
        4 => b"BlockLength",
        5 => b"TlvFlags",
        6 => b"TlvIndex",
        7 => b"TlvValue",
        8 => b"NoAddresses",
        9 => b"AddrFlags",
        10 => b"AddrCut",
        11 => b"PrefixLength",
        12 => b"NotHex",
        13 => b"OddDigits",
        20 | 32 => b"AddressWidth",
        21 => b"HopLimit",
        22 => b"HopCount",
        23 | 34 => b"Validity",
        24 | 35 => b"Interval",
        25 => b"Willing",
        26 => b"Undefined",
        27 => b"TwoValues",
        28 => b"Prefix",
        29 | 39 => b"Metric",
        33 => b"Heading",
        36 => b"Content",
        37 => b"AddrType",
        38 => b"Gateway",
        _ => b"none",
    }
}

/// Puts a label, and the name of a rule.
#[tactic(auto, unfolding(crate::specs::Pieces::named))]
pub fn put_name<const N: usize>(line: &mut TextBuffer, label: [u8; N], reason: u8)
    requires { length line.old + (N + 20) ≤ 4096 }
    ensures text { line.new ≡ line.old ++ named label.entry reason }
    ensures len { length line.new ≤ length line.old + (N + 20) }
{
    line.put_text(label);
    line.put(reason_name(reason));
}
