//! Whether octets may be sent for a TC.
ghost use Rattle.std.specs.Prelude.{◌≡◌, ◌+◌, ◌≤◌, ◌↔◌, [], ◌∷◌, ℕ, List, length, slice_range, IfOk, IsTrue};
ghost use Rattle.mesh_packet.specs.Fields.{fields_of_message, fields_of_packet};
ghost use Rattle.mesh_packet.specs.Grammar.{Spells, SpellsMessage};
ghost use Rattle.mesh_packet.specs.Least.{IsEncodable, IsEncodableMessage};
ghost use Rattle.mesh_packet.specs.Placed.{ArePlaced};
ghost use Rattle.mesh_atoms.specs.declared.tlv_type.TheConstants.{VALIDITY_TIME};
ghost use Rattle.mesh_wire.specs.Metrics.{Near_out};
ghost use Rattle.mesh_wire.specs.Parts.{values_of};
ghost use Rattle.mesh_wire.specs.Rules.{Keeps};
ghost use Rattle.mesh_wire.specs.Tc.{TcIs};
ghost use Rattle.mesh_wire.specs.TcRules.{BreaksTc};
ghost use Rattle.mesh_wire.specs.Writes.{HasFlag, HasBriefBlocks, WritesTc};
ghost use Rattle.mesh_trace.specs.Spelling.Looks.{HasTcHeader, SaysTc};

use crate::spelling::brief::is_brief;
use crate::spelling::parts::{Looks, are_tlvs_read, is_all_read};
use crate::spelling::sole::sole_message;
use mesh_atoms::tlv_type::{
    CONT_SEQ_NUM, GATEWAY, INTERVAL_TIME, LINK_METRIC, NBR_ADDR_TYPE, VALIDITY_TIME,
};
use mesh_atoms::{DecodeFault, NetAddr, Tc, are_same_rows};
use mesh_packet::{Decoded, Message, Span, decode};
use mesh_tlv::Tlv;
use mesh_wire::{WireFault, only_value, tc_of};
use std::alloc::{AllocError, Global};

// Whether two TCs say the same.
fn is_same_tc(one: &Tc, other: &Tc) -> bool
    ensures { IsTrue result ↔ (one.now ≡ other.now) }
{
    one.originator == other.originator
        && one.sequence == other.sequence
        && one.ansn == other.ansn
        && one.complete == other.complete
        && one.validity == other.validity
        && one.interval == other.interval
        && are_same_rows(one.rows.as_slice(), other.rows.as_slice())
}

// Whether a message has the header of a TC with that hop limit, which has come no hop.
fn has_header(message: &Message, hop_limit: u8) -> bool
    ensures { IsTrue result ↔ HasTcHeader (fields_of_message message.now) hop_limit }
{
    message.kind == 1 && message.limit == Some(hop_limit) && message.count == Some(0)
}

// Whether a message has one VALIDITY_TIME, of that value.
fn has_validity(message: &Message, validity: &[u8]) -> bool
    ensures { IsTrue result ↔ (values_of VALIDITY_TIME (fields_of_message message.now) ≡ validity.now ∷ []) }
{
    match only_value(message.tlvs.as_slice(), VALIDITY_TIME) {
        Some(octets) => octets == validity,
        None => false,
    }
}

// Whether a value shows a metric of the kind that a TC has.
fn has_metric(octets: &[u8]) -> bool
    ensures { IsTrue result ↔ HasFlag Near_out octets.now }
{
    match octets {
        [high, _] => *high & 16 != 0,
        _ => false,
    }
}

// What a reading of a TC looks at.
#[derive(Drop)]
struct Advertised {}

impl Looks for Advertised {
    ghost use Rattle.mesh_wire.specs.Writes.{IsReadOfTc};
    ghost use Rattle.mesh_trace.specs.Spelling.Looks.{LooksTc};

    ghost reads = { λ _. LooksTc };

    ghost reads_tlv = { λ _. IsReadOfTc };

    fn is_read(&self, _net: NetAddr, kind: u8, ext: u8, octets: &[u8]) -> bool {
        ext == 0
            && (kind == NBR_ADDR_TYPE
                || kind == GATEWAY
                || (kind == LINK_METRIC && has_metric(octets)))
    }

    fn is_tlv_read(&self, tlv: &Tlv) -> bool {
        match tlv.kind {
            VALIDITY_TIME => tlv.ext == 0,
            INTERVAL_TIME => tlv.ext == 0,
            CONT_SEQ_NUM => tlv.ext <= 1,
            _ => false,
        }
    }
}

// Whether a message that was read says the TC with that hop limit and that value of VALIDITY_TIME, and nothing that the reading
// ignores.
fn is_message_of_tc(tc: &Tc, read: &Tc, hop_limit: u8, validity: &[u8], message: &Message) -> bool
    requires encodable { IsEncodableMessage (fields_of_message message.now) }
    requires reads { TcIs (fields_of_message message.now) read.now }
    requires keeps { Keeps (BreaksTc (fields_of_message message.now)) }
    ensures { IsTrue result ↔ SaysTc tc.now hop_limit validity.now (fields_of_message message.now) }
{
    if !has_header(message, hop_limit) {
        return false;
    }
    if !has_validity(message, validity) {
        return false;
    }
    if !is_same_tc(read, tc) {
        return false;
    }
    if !are_tlvs_read(&Advertised {}, message.tlvs.as_slice()) {
        return false;
    }
    is_all_read(&Advertised {}, message)
}

// Whether a message that stands there says the TC so, and has each address block in the fewest octets.
fn tells_tc(
    alloc: Global,
    tc: &Tc,
    hop_limit: u8,
    validity: &[u8],
    message: &Message,
    bytes: &[u8],
    span: Span,
) -> Result<bool, AllocError>
    requires end { span.start + span.len ≤ length bytes.now }
    requires encodable { IsEncodableMessage (fields_of_message message.now) }
    requires spelled { SpellsMessage (fields_of_message message.now) (slice_range bytes.now span.start (span.start + span.len)) }
    ensures { IfOk result (λ yes. (text : List ℕ) (spelled : SpellsMessage (fields_of_message message.now) text)
        → slice_range bytes.now span.start (span.start + span.len) ≡ text
        → IsTrue yes ↔ (SaysTc tc.now hop_limit validity.now (fields_of_message message.now) × HasBriefBlocks spelled)) }
{
    if message.kind != 1 {
        return Ok(false);
    }
    let read = match tc_of(alloc, message) {
        Ok(read) => read,
        Err(WireFault::Broken { .. }) => {
            return Ok(false);
        }
        Err(WireFault::Memory(e)) => {
            return Err(e);
        }
    };
    if !is_message_of_tc(tc, &read, hop_limit, validity, message) {
        return Ok(false);
    }
    is_brief(alloc, message, bytes, span)
}

// The same of a packet that was read.
fn is_tc(
    alloc: Global,
    tc: &Tc,
    hop_limit: u8,
    validity: &[u8],
    decoded: &Decoded,
    bytes: &[u8],
) -> Result<bool, AllocError>
    requires value { Spells (fields_of_packet decoded.now.packet) decoded.now.spans bytes.now }
    requires placed { ArePlaced (fields_of_packet decoded.now.packet).messages decoded.now.spans bytes.now }
    requires encodable { IsEncodable (fields_of_packet decoded.now.packet) }
    ensures { IfOk result (λ yes. IsTrue yes ↔ WritesTc tc.now hop_limit validity.now bytes.now) }
{
    match sole_message(&decoded.packet) {
        Some(message) => {
            let span = decoded.spans.as_slice()[0];
            tells_tc(alloc, tc, hop_limit, validity, message, bytes, span)
        }
        None => Ok(false),
    }
}

/// Whether octets may be sent for a TC with that hop limit and that value of VALIDITY_TIME (RFC 7181, section 16): a packet of one message
/// alone, which has come no hop, reads as the TC, has nothing that the reading ignores, and each of whose address blocks is in the
/// fewest octets. An allocation failure is the only fault.
pub fn spells_tc(
    alloc: Global,
    tc: &Tc,
    hop_limit: u8,
    validity: &[u8],
    bytes: &[u8],
) -> Result<bool, AllocError>
    ensures { IfOk result (λ yes. IsTrue yes ↔ WritesTc tc.now hop_limit validity.now bytes.now) }
{
    match decode(alloc, bytes) {
        Ok(decoded) => is_tc(alloc, tc, hop_limit, validity, &decoded, bytes),
        Err(DecodeFault::Refused(_)) => Ok(false),
        Err(DecodeFault::Memory(e)) => Err(e),
    }
}
