//! The lines of a packet's listing. Each is put behind what a piece holds, which is put behind other octets where it is long.
ghost use Rattle.std.specs.Prelude.{◌≡◌, ◌++◌, ◌+◌, ◌≤◌, length, codes, OnOk};
ghost use Rattle.std.specs.List.{flat_map};
ghost use Rattle.mesh_tlv.specs.Least.{Grows};
ghost use Rattle.mesh_packet.specs.Fields.{fields_of_packet, fields_of_message, fields_of_block};
ghost use Rattle.mesh_report.specs.Pieces.{numbered, numbered_or_none, addressed, addressed_or_none, chosen, named};
ghost use Rattle.mesh_report.specs.Lines.{packet_line, message_line, block_line, address_line, refused_line};

use crate::piece::TextBuffer;
use crate::pieces::{
    make_room, put_address, put_address_or_none, put_choice, put_name, put_number_or_none,
    put_numbered, put_value, wide_octet, wide_short,
};
use mesh_addr::RawAddr;
use mesh_atoms::{Bytes, Refusal};
use mesh_packet::{Block, Message, Packet};
use mesh_tlv::{AddrTlv, Tlv};
use std::alloc::AllocError;

/// What is listed in lines of its own.
pub(crate) trait Listed {
    ghost use Rattle.std.specs.Prelude.{◌≡◌, ℕ, List, ◌++◌, OnOk};
    ghost use Rattle.mesh_tlv.specs.Least.{Grows};

    /// The lines.
    ghost text: { Self → List ℕ };

    /// Puts the lines.
    fn put_lines(&self, out: &mut Bytes, line: &mut TextBuffer) -> Result<(), AllocError>
        ensures ok { OnOk result (out.new ++ line.new ≡ (out.old ++ line.old) ++ text self.now) }
        ensures kept { Grows out.old out.new };
}

/// Puts the lines of each value, in order.
pub(crate) fn put_each<T: Listed>(
    out: &mut Bytes,
    line: &mut TextBuffer,
    items: &[T],
) -> Result<(), AllocError>
    ensures ok { OnOk result (out.new ++ line.new ≡ (out.old ++ line.old) ++ flat_map T.text items.now) }
    ensures kept { Grows out.old out.new }
{
    for item in items {
        item.put_lines(out, line)?;
    }
    Ok(())
}

// Puts two counts, and ends the line.
#[inline(always)]
fn put_counts<const N: usize, const M: usize>(
    line: &mut TextBuffer,
    label: [u8; N],
    first: usize,
    other: [u8; M],
    second: usize,
)
    requires { length line.old + (N + (M + 41)) ≤ 4096 }
    ensures text { line.new ≡ line.old ++ (numbered label.entry first ++ numbered other.entry second ++ codes "\n") }
    ensures len { length line.new ≤ length line.old + (N + (M + 41)) }
{
    put_numbered(line, label, first as u64);
    put_numbered(line, other, second as u64);
    line.put_text(*b"\n");
}

#[tactic(auto, unfolding(crate::specs::Lines::packet_line))]
fn put_packet_end(line: &mut TextBuffer, number: u64, packet: &Packet)
    requires { length line.old ≤ 3776 }
    ensures { line.new ≡ line.old ++ packet_line number (fields_of_packet packet.now) }
{
    put_numbered(line, *b"line ", number);
    put_number_or_none(line, *b" packet sequence ", wide_short(packet.sequence));
    put_counts(
        line,
        *b" tlvs ",
        packet.tlvs.len(),
        *b" messages ",
        packet.messages.len(),
    );
}

/// Puts the line of a packet, the line of this number.
pub fn put_packet_line(
    out: &mut Bytes,
    line: &mut TextBuffer,
    number: u64,
    packet: &Packet,
) -> Result<(), AllocError>
    ensures ok { OnOk result (out.new ++ line.new ≡ (out.old ++ line.old) ++ packet_line number (fields_of_packet packet.now)) }
    ensures kept { Grows out.old out.new }
{
    make_room(out, line)?;
    put_packet_end(line, number, packet);
    Ok(())
}

// Puts the type and the extension of a TLV.
#[inline(always)]
fn put_kind<const N: usize>(line: &mut TextBuffer, label: [u8; N], kind: u8, ext: u8)
    requires { length line.old + (N + 51) ≤ 4096 }
    ensures text { line.new ≡ line.old ++ (numbered label.entry kind ++ numbered (codes " extension ") ext) }
    ensures len { length line.new ≤ length line.old + (N + 51) }
{
    put_numbered(line, label, u64::from(kind));
    put_numbered(line, *b" extension ", u64::from(ext));
}

impl Listed for Tlv<'_> {
    ghost use Rattle.mesh_tlv.specs.Fields.{fields};
    ghost use Rattle.mesh_report.specs.Lines.{tlv_line};

    ghost text = { λ tlv. tlv_line (fields tlv) };

    #[tactic(auto, unfolding(crate::specs::Lines::tlv_line))]
    fn put_lines(&self, out: &mut Bytes, line: &mut TextBuffer) -> Result<(), AllocError> {
        make_room(out, line)?;
        put_kind(line, *b"  tlv ", self.kind, self.ext);
        put_value(out, line, self.value)?;
        line.put_text(*b"\n");
        Ok(())
    }
}

// Puts what a message's line says up to its originator.
fn put_opening(line: &mut TextBuffer, size: usize, message: &Message)
    requires { length line.old ≤ 3776 }
    ensures text { line.new ≡ line.old ++ (numbered (codes " message type ") message.now.kind ++ numbered (codes " width ") message.now.width
        ++ numbered (codes " size ") size ++ addressed_or_none (codes " originator ") message.now.width message.now.originator) }
    ensures len { length line.new ≤ 3907 }
{
    put_numbered(line, *b" message type ", u64::from(message.kind));
    put_numbered(line, *b" width ", u64::from(message.width));
    put_numbered(line, *b" size ", size as u64);
    put_address_or_none(line, *b" originator ", message.width, message.originator);
}

// Puts the numbers of a message that may be absent.
fn put_numbers(line: &mut TextBuffer, message: &Message)
    requires { length line.old ≤ 3907 }
    ensures text { line.new ≡ line.old ++ (numbered_or_none (codes " limit ") message.now.limit
        ++ numbered_or_none (codes " count ") message.now.count ++ numbered_or_none (codes " sequence ") message.now.sequence) }
    ensures len { length line.new ≤ 3992 }
{
    put_number_or_none(line, *b" limit ", wide_octet(message.limit));
    put_number_or_none(line, *b" count ", wide_octet(message.count));
    put_number_or_none(line, *b" sequence ", wide_short(message.sequence));
}

#[tactic(auto, unfolding(crate::specs::Lines::message_line))]
fn put_message_end(line: &mut TextBuffer, size: usize, message: &Message)
    requires { length line.old ≤ 3776 }
    ensures { line.new ≡ line.old ++ message_line size (fields_of_message message.now) }
{
    put_opening(line, size, message);
    put_numbers(line, message);
    put_counts(
        line,
        *b" tlvs ",
        message.tlvs.len(),
        *b" blocks ",
        message.blocks.len(),
    );
}

/// Puts the line of a message that takes so many octets of its frame.
pub fn put_message_line(
    out: &mut Bytes,
    line: &mut TextBuffer,
    size: usize,
    message: &Message,
) -> Result<(), AllocError>
    ensures ok { OnOk result (out.new ++ line.new ≡ (out.old ++ line.old) ++ message_line size (fields_of_message message.now)) }
    ensures kept { Grows out.old out.new }
{
    make_room(out, line)?;
    put_message_end(line, size, message);
    Ok(())
}

/// Puts the line of an address block.
#[tactic(auto, unfolding(crate::specs::Lines::block_line))]
pub fn put_block_line(
    out: &mut Bytes,
    line: &mut TextBuffer,
    block: &Block,
) -> Result<(), AllocError>
    ensures ok { OnOk result (out.new ++ line.new ≡ (out.old ++ line.old) ++ block_line (fields_of_block block.now)) }
    ensures kept { Grows out.old out.new }
{
    make_room(out, line)?;
    put_counts(
        line,
        *b"  block addresses ",
        block.addrs.addrs.len(),
        *b" tlvs ",
        block.tlvs.len(),
    );
    Ok(())
}

// Puts the prefix of an address, and ends the line.
#[inline(always)]
fn put_prefix_end(line: &mut TextBuffer, prefix: u8)
    requires { length line.old ≤ 4072 }
    ensures { line.new ≡ line.old ++ (numbered (codes "/") prefix ++ codes "\n") }
{
    // Most addresses are whole ones of IPv4.
    if prefix == 32 {
        line.put_text(*b"/32\n");
    } else {
        put_numbered(line, *b"/", u64::from(prefix));
        line.put_text(*b"\n");
    }
}

// Puts the line of an address of that width.
#[tactic(auto, unfolding(crate::specs::Lines::address_line))]
#[inline(always)]
fn put_address_end(line: &mut TextBuffer, width: u8, addr: &RawAddr)
    requires { length line.old ≤ 3776 }
    ensures { line.new ≡ line.old ++ address_line width addr.now }
{
    put_address(line, *b"   address ", width, addr);
    put_prefix_end(line, addr.prefix);
}

/// Puts the line of an address of that width.
#[inline(always)]
pub fn put_address_line(
    out: &mut Bytes,
    line: &mut TextBuffer,
    width: u8,
    addr: &RawAddr,
) -> Result<(), AllocError>
    ensures ok { OnOk result (out.new ++ line.new ≡ (out.old ++ line.old) ++ address_line width addr.now) }
    ensures kept { Grows out.old out.new }
{
    make_room(out, line)?;
    put_address_end(line, width, addr);
    Ok(())
}

// Puts the addresses that a TLV covers, and whether its value is in parts.
fn put_cover(line: &mut TextBuffer, first: u8, last: u8, multi: bool)
    requires { length line.old ≤ 3842 }
    ensures text { line.new ≡ line.old ++ (numbered (codes " first ") first ++ numbered (codes " last ") last ++ chosen (codes " multi ") multi) }
    ensures len { length line.new ≤ 3912 }
{
    put_numbered(line, *b" first ", u64::from(first));
    put_numbered(line, *b" last ", u64::from(last));
    put_choice(line, *b" multi ", multi);
}

impl Listed for AddrTlv<'_> {
    ghost use Rattle.mesh_tlv.specs.Fields.{addr_fields};
    ghost use Rattle.mesh_report.specs.Lines.{addr_tlv_line};

    ghost text = { λ tlv. addr_tlv_line (addr_fields tlv) };

    #[tactic(auto, unfolding(crate::specs::Lines::addr_tlv_line))]
    fn put_lines(&self, out: &mut Bytes, line: &mut TextBuffer) -> Result<(), AllocError> {
        make_room(out, line)?;
        put_kind(line, *b"   tlv ", self.kind, self.ext);
        put_cover(line, self.first, self.last, self.multi);
        put_value(out, line, self.value)?;
        line.put_text(*b"\n");
        Ok(())
    }
}

/// Puts a label, the number of the rule that is broken, and its name, and ends the line.
pub fn put_rule<const N: usize>(line: &mut TextBuffer, label: [u8; N], reason: u8)
    requires { length line.old + (N + 42) ≤ 4096 }
    ensures text { line.new ≡ line.old ++ (numbered label.entry reason ++ named (codes " ") reason ++ codes "\n") }
    ensures len { length line.new ≤ length line.old + (N + 42) }
{
    put_numbered(line, label, u64::from(reason));
    put_name(line, *b" ", reason);
    line.put_text(*b"\n");
}

/// Puts the line of a refusal, the line of this number.
#[tactic(auto, unfolding(crate::specs::Lines::refused_line))]
pub fn put_refused_line(line: &mut TextBuffer, number: u64, refusal: Refusal)
    requires { length line.old ≤ 3776 }
    ensures { line.new ≡ line.old ++ refused_line number refusal }
{
    put_numbered(line, *b"line ", number);
    put_numbered(line, *b" refused at ", refusal.place as u64);
    put_rule(line, *b" reason ", refusal.reason);
}
