//! Writing HELLO and TC messages, each as a packet of its own (RFC 6130, section 10, and RFC 7181, sections 15 and 16).
ghost use Rattle.std.specs.Prelude.{◌≡◌, ◌<◌, ◌≤◌, ◌++◌, [], ℕ, length, map, slice_index, List, IfOk, OnOk};
ghost use Rattle.std.specs.Option.{option_map};
ghost use Rattle.mesh_atoms.specs.declared.limits.TheConstants.{LONGEST_DATAGRAM};
ghost use Rattle.mesh_tlv.specs.Fields.{fields};
ghost use Rattle.mesh_atoms.specs.Codes.Codes.{time_at_distance};
ghost use Rattle.mesh_atoms.specs.Validity.{IsTimeValue};
ghost use Rattle.mesh_atoms.specs.Writable.{IsSentTime, IsSentIfSome, HaveSenderAlone, HaveStatusWhole, AreOneType, HaveTypeWhole};
ghost use Rattle.mesh_packet.specs.declared.packet.Span.{Span};
ghost use Rattle.mesh_packet.specs.Fields.{fields_of_message, fields_of_packet, PacketFields};
ghost use Rattle.mesh_packet.specs.Grammar.{Spells};
ghost use Rattle.mesh_packet.specs.Least.{IsEncodable, IsEncodableMessage, LeastForm};
ghost use Rattle.mesh_wire.specs.Drafts.{IsCodeOf, IsCodeIfSome, octet_of, whole, HasHelloValues, HasTcValues, saying, heading_of, DraftsHello, DraftsTc, FitsAlone};
ghost use Rattle.mesh_wire.specs.Hello.{HelloIs};
ghost use Rattle.mesh_wire.specs.HelloRules.{BreaksHello};
ghost use Rattle.mesh_wire.specs.Lines.{columns, columns_text, hello_line, tc_line};
ghost use Rattle.mesh_wire.specs.Tc.{TcIs};
ghost use Rattle.mesh_wire.specs.TcRules.{BreaksTc};
ghost use Rattle.mesh_wire.specs.Writes.{IsSoleMessage, WritesHello, WritesTc, WritesLeastHello, WritesLeastTc, alone, ReadsBack};

use crate::lay::lay;
use crate::lines::{AddressRecord, hello_lines, tc_lines};
use crate::runs::{blocks_of, raw_of};
use mesh_addr::RawAddr;
use mesh_atoms::tlv_type::{CONT_SEQ_NUM, INTERVAL_TIME, MPR_WILLING, VALIDITY_TIME};
use mesh_atoms::{Addr4, Bytes, Hello, Seq, Tc, Willing, octets_of_short, time_code_at_least};
use mesh_packet::{EncodeFault, Message, Packet, encode};
use mesh_tlv::Tlv;
use std::alloc::{AllocError, Global};

// The code of a time that has one.
fn code_of(ticks: u64) -> u8
    requires { IsSentTime ticks }
    ensures { IsCodeOf ticks result }
{
    match time_code_at_least(ticks) {
        Some(code) => code,
        None => unreachable!(),
    }
}

// The code of a time that may be left out, or 0.
fn code_if_some(ticks: Option<u64>) -> u8
    requires { IsSentIfSome ticks }
    ensures { IsCodeIfSome ticks result }
{
    match ticks {
        Some(ticks) => code_of(ticks),
        None => 0,
    }
}

// The octet of willingness.
fn octet_of(willing: Willing) -> u8
    ensures { result ≡ octet_of willing }
{
    16 * willing.flooding + willing.routing
}

// The address as a whole one.
fn whole(address: Addr4) -> RawAddr
    ensures { result ≡ whole address }
{
    raw_of(address, 32)
}

// The same, where there is one.
fn whole_if_some(address: Option<Addr4>) -> Option<RawAddr>
    ensures { result ≡ option_map whole address }
{
    match address {
        Some(address) => Some(whole(address)),
        None => None,
    }
}

// A TLV with a value.
fn saying<'a>(kind: u8, ext: u8, octets: &'a [u8]) -> Tlv<'a>
    ensures { fields result ≡ saying kind ext octets.now }
{
    Tlv {
        kind,
        ext,
        value: Some(octets),
    }
}

// Puts the message TLVs into an empty list: validity, interval where there is one, and another.
fn put_heading<'a>(
    validity: &'a [u8],
    values: &'a [u8],
    has_interval: bool,
    kind: u8,
    ext: u8,
    tlvs: &mut Seq<Tlv<'a>>,
) -> Result<(), AllocError>
    requires values { 1 ≤ length values.now }
    requires empty { tlvs.old ≡ [] }
    ensures { OnOk result (map fields tlvs.new ≡ heading_of validity.now values.now has_interval kind ext) }
{
    tlvs.push(saying(VALIDITY_TIME, 0, validity))?;
    if has_interval {
        tlvs.push(saying(INTERVAL_TIME, 0, &values[..1]))?;
    }
    tlvs.push(saying(kind, ext, &values[1..]))
}

// The message TLVs.
fn heading_of<'a>(
    alloc: Global,
    validity: &'a [u8],
    values: &'a [u8],
    has_interval: bool,
    kind: u8,
    ext: u8,
) -> Result<Seq<Tlv<'a>>, AllocError>
    requires { 1 ≤ length values.now }
    ensures { IfOk result (λ tlvs. map fields tlvs ≡ heading_of validity.now values.now has_interval kind ext) }
{
    let mut tlvs = Seq::new(alloc);
    put_heading(validity, values, has_interval, kind, ext, &mut tlvs)?;
    Ok(tlvs)
}

// The octets of a packet whose least form fits a datagram.
fn encoded(alloc: Global, packet: &Packet) -> Result<Bytes, AllocError>
    requires encodable { IsEncodable (fields_of_packet packet.now) }
    requires fits { (bytes : List ℕ) → LeastForm (fields_of_packet packet.now) bytes → length bytes ≤ LONGEST_DATAGRAM }
    ensures { IfOk result (LeastForm (fields_of_packet packet.now)) }
{
    match encode(alloc, packet) {
        Ok(bytes) => Ok(bytes),
        Err(EncodeFault::Memory(e)) => Err(e),
        Err(EncodeFault::TooLong) => unreachable!(),
    }
}

// Octets are below 256.
fn are_octets(bytes: &[u8])
    ensures { (i : ℕ) → slice_index bytes.now i < 256 }
{}

// The packet of one message.
fn alone(alloc: Global, message: Message) -> Result<Bytes, AllocError>
    requires encodable { IsEncodableMessage (fields_of_message message) }
    requires fits { FitsAlone (fields_of_message message) }
    ensures { IfOk result (λ bytes. IsSoleMessage (fields_of_message message.entry) bytes × LeastForm (alone (fields_of_message message.entry)) bytes) }
{
    let mut messages = Seq::new(alloc);
    messages.push(message)?;
    let packet = Packet {
        sequence: None,
        tlvs: Seq::new(alloc),
        messages,
    };
    let bytes = encoded(alloc, &packet)?;
    are_octets(bytes.as_slice());
    Ok(bytes)
}

// Octets, and the values of all columns behind them.
fn values_of(alloc: Global, first: &[u8], lines: &[AddressRecord]) -> Result<Bytes, AllocError>
    ensures { IfOk result (λ values. values ≡ first.now ++ columns_text columns lines.now) }
{
    let mut values = Bytes::new(alloc);
    values.append(first)?;
    lay(lines, &mut values)?;
    Ok(values)
}

// The values of all TLVs of a HELLO.
fn hello_values(alloc: Global, hello: &Hello, lines: &[AddressRecord]) -> Result<Bytes, AllocError>
    requires validity { IsSentTime hello.now.validity }
    requires interval { IsSentIfSome hello.now.interval }
    ensures { IfOk result (HasHelloValues hello.now lines.now) }
{
    let first = [
        code_of(hello.validity),
        code_if_some(hello.interval),
        octet_of(hello.willing),
    ];
    values_of(alloc, &first, lines)
}

// The message of a HELLO.
fn hello_message<'a>(
    alloc: Global,
    hello: &Hello,
    lines: &[AddressRecord],
    values: &'a [u8],
) -> Result<Message<'a>, AllocError>
    requires lines { lines.now ≡ map hello_line hello.now.rows }
    requires values { HasHelloValues hello.now lines.now values.now }
    ensures { IfOk result (λ message. DraftsHello hello.now (fields_of_message message)) }
{
    let tlvs = heading_of(
        alloc,
        &values[..1],
        &values[1..3],
        hello.interval.is_some(),
        MPR_WILLING,
        0,
    )?;
    let blocks = blocks_of(alloc, lines, &values[3..])?;
    Ok(Message {
        kind: 0,
        width: 4,
        originator: whole_if_some(hello.originator),
        limit: None,
        count: None,
        sequence: None,
        tlvs,
        blocks,
    })
}

// The values of all TLVs of a TC but its validity.
fn tc_values(alloc: Global, tc: &Tc, lines: &[AddressRecord]) -> Result<Bytes, AllocError>
    requires { IsSentIfSome tc.now.interval }
    ensures { IfOk result (HasTcValues tc.now lines.now) }
{
    let [high, low] = octets_of_short(tc.ansn);
    let first = [code_if_some(tc.interval), high, low];
    values_of(alloc, &first, lines)
}

// The message of a TC.
fn tc_message<'a>(
    alloc: Global,
    tc: &Tc,
    hop_limit: u8,
    validity: &'a [u8],
    lines: &[AddressRecord],
    values: &'a [u8],
) -> Result<Message<'a>, AllocError>
    requires lines { lines.now ≡ map tc_line tc.now.rows }
    requires values { HasTcValues tc.now lines.now values.now }
    ensures { IfOk result (λ message. DraftsTc tc.now hop_limit validity.now (fields_of_message message)) }
{
    let ext = if tc.complete { 0 } else { 1 };
    let tlvs = heading_of(
        alloc,
        validity,
        &values[..3],
        tc.interval.is_some(),
        CONT_SEQ_NUM,
        ext,
    )?;
    let blocks = blocks_of(alloc, lines, &values[3..])?;
    Ok(Message {
        kind: 1,
        width: 4,
        originator: Some(whole(tc.originator)),
        limit: Some(hop_limit),
        count: Some(0),
        sequence: Some(tc.sequence),
        tlvs,
        blocks,
    })
}

/// Writes a HELLO as a packet of its own, in the least form (RFC 6130, section 10, and RFC 7181, section 15). It takes at most
/// 1,100 rows. Its times are those of codes from 1 to 254. A row with `local` has no status, no metric and no relay; one with
/// `local`, `link` or `other` is of a whole address. The message has no hop limit, hop count or sequence number. An allocation failure
/// is the only fault.
pub fn write_hello(alloc: Global, hello: &Hello) -> Result<Bytes, AllocError>
    requires few { length hello.now.rows ≤ 1100 }
    requires validity { IsSentTime hello.now.validity }
    requires interval { IsSentIfSome hello.now.interval }
    requires sender { HaveSenderAlone hello.now.rows }
    requires whole { HaveStatusWhole hello.now.rows }
    // What is written may be sent for it, and is the least form.
    ensures writes { IfOk result (WritesHello hello.now) }
    ensures least { IfOk result (WritesLeastHello hello.now) }
    // Whatever it is read as is that HELLO.
    ensures back { IfOk result (λ bytes. (packet : PacketFields) (spans : List Span) → Spells packet spans bytes → ReadsBack 0 HelloIs BreaksHello hello.now packet) }
{
    let lines = hello_lines(alloc, hello.rows.as_slice())?;
    let values = hello_values(alloc, hello, lines.as_slice())?;
    let message = hello_message(alloc, hello, lines.as_slice(), values.as_slice())?;
    alone(alloc, message)
}

/// Writes a TC as a packet of its own with that hop limit and hop count 0, in the least form (RFC 7181, section 16). The value of
/// VALIDITY_TIME may tell more than one validity, by distance (RFC 5497, section 6): in at most 17 octets, all its codes from 1 to
/// 254; the TC's validity is what it tells at distance 1. It takes at most 1,100 rows. Its interval is that of such a code. A row with
/// `origin` or `routable` has no gateway, and is of a whole address. An allocation failure is the only fault.
pub fn write_tc(alloc: Global, tc: &Tc, hop_limit: u8, validity: &[u8]) -> Result<Bytes, AllocError>
    requires few { length tc.now.rows ≤ 1100 }
    requires value { IsTimeValue validity.now }
    requires short { length validity.now ≤ 17 }
    requires near { time_at_distance 1 validity.now ≡ tc.now.validity }
    requires interval { IsSentIfSome tc.now.interval }
    requires kinds { AreOneType tc.now.rows }
    requires whole { HaveTypeWhole tc.now.rows }
    // What is written may be sent for it, and is the least form.
    ensures writes { IfOk result (WritesTc tc.now hop_limit validity.now) }
    ensures least { IfOk result (WritesLeastTc tc.now hop_limit validity.now) }
    // Whatever it is read as is that TC.
    ensures back { IfOk result (λ bytes. (packet : PacketFields) (spans : List Span) → Spells packet spans bytes → ReadsBack 1 TcIs BreaksTc tc.now packet) }
{
    let lines = tc_lines(alloc, tc.rows.as_slice())?;
    let values = tc_values(alloc, tc, lines.as_slice())?;
    let message = tc_message(
        alloc,
        tc,
        hop_limit,
        validity,
        lines.as_slice(),
        values.as_slice(),
    )?;
    alone(alloc, message)
}
