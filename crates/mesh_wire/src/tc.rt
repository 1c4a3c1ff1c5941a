//! TC messages read as typed values (RFC 7181, sections 13 and 16).
ghost use Rattle.std.specs.Prelude.{◌≡◌, ◌<◌, ◌^◌, ℕ, Bool, map, IfSome, IfNone, IfOk, IfErr, None};
ghost use Rattle.mesh_tlv.specs.Fields.{fields};
ghost use Rattle.mesh_atoms.specs.Writable.{HaveTypeWhole};
ghost use Rattle.mesh_packet.specs.Fields.{fields_of_message};
ghost use Rattle.mesh_wire.specs.Answers.{ReadsOrRefuses};
ghost use Rattle.mesh_wire.specs.Rules.{FirstBroken};
ghost use Rattle.mesh_wire.specs.Singles.{IsSingleOf};
ghost use Rattle.mesh_wire.specs.Tc.{ContentIs, TcIs};
ghost use Rattle.mesh_wire.specs.TcHeading.{contents_in, TcHeaderIs};
ghost use Rattle.mesh_wire.specs.TcRules.{BreaksTc};
ghost use Rattle.mesh_wire.specs.Times.{distance_of};

use crate::collect::AddressParts;
use crate::fault::WireFault;
use crate::hello::originator_of;
use crate::rows::{Row, TypedKind, kept_of, rows_of};
use crate::singles::Single;
use crate::times;
use mesh_atoms::tlv_type::CONT_SEQ_NUM;
use mesh_atoms::{Addr4, Tc, TcRow, short_of, tc_rule};
use mesh_packet::Message;
use mesh_tlv::Tlv;
use std::alloc::Global;

/// What CONT_SEQ_NUM says: the number of what is advertised, and whether all rows are told.
#[derive(Clone, Copy)]
pub struct TcContent {
    pub ansn: u16,
    pub complete: bool,
}

/// What a TC says before its rows. Times are in ticks.
#[derive(Clone, Copy)]
pub struct TcHeader {
    pub originator: Addr4,
    pub sequence: u16,
    pub content: TcContent,
    pub validity: u64,
    pub interval: Option<u64>,
}

// How many hops a message has come when it is heard: one more than its hop count, and 1 where it has none.
fn distance_of(count: Option<u8>) -> u16
    ensures { result ≡ distance_of count }
{
    match count {
        Some(count) => u16::from(count) + 1,
        None => 1,
    }
}

// The TLVs CONT_SEQ_NUM of extension 0 or 1: none, one, or more.
fn contents_of<'a>(tlvs: &[Tlv<'a>]) -> Single<Tlv<'a>>
    ensures { IsSingleOf result fields (contents_in (map fields tlvs.now)) }
{
    let mut found = None;
    for i in 0..tlvs.len() {
        let tlv = tlvs[i];
        if tlv.kind == CONT_SEQ_NUM && tlv.ext < 2 {
            if found.is_some() {
                return Single::Conflict;
            }
            found = Some(tlv);
        }
    }
    match found {
        Some(tlv) => Single::Value(tlv),
        None => Single::Absent,
    }
}

// What CONT_SEQ_NUM says; none where the message breaks the rule on it.
fn content_of(message: &Message) -> Option<TcContent>
    ensures some { IfSome result (λ content. ContentIs (fields_of_message message.now) content.ansn content.complete) }
    ensures none { IfNone result ((ansn : ℕ) (complete : Bool) → ContentIs (fields_of_message message.now) ansn complete → ⊥) }
{
    match contents_of(message.tlvs.as_slice()) {
        Single::Value(tlv) => {
            let octets = times::octets_of(&tlv);
            if octets.len() != 2 {
                return None;
            }
            Some(TcContent {
                ansn: short_of(octets),
                complete: tlv.ext == 0,
            })
        }
        _ => None,
    }
}

/// What the message says before its rows, or the first rule on it that is broken.
pub(crate) fn header_of(message: &Message) -> Result<TcHeader, u8>
    ensures header { IfOk result (TcHeaderIs (fields_of_message message.now)) }
    ensures bounded { IfOk result (λ header. header.validity < 2 ^ 35) }
    ensures broken { IfErr result (λ number. FirstBroken (BreaksTc (fields_of_message message.now)) number None) }
{
    if message.width != 4 {
        return Err(tc_rule::ADDRESS_WIDTH);
    }
    let Some(originator) = originator_of(message) else {
        return Err(tc_rule::HEADING);
    };
    let Some(sequence) = message.sequence else {
        return Err(tc_rule::HEADING);
    };
    let distance = distance_of(message.count);
    let Some(validity) = times::validity(message, distance) else {
        return Err(tc_rule::VALIDITY);
    };
    let Some(interval) = times::interval(message, distance) else {
        return Err(tc_rule::INTERVAL);
    };
    let Some(content) = content_of(message) else {
        return Err(tc_rule::CONTENT);
    };
    Ok(TcHeader {
        originator,
        sequence,
        content,
        validity,
        interval,
    })
}

impl Row for TcRow {
    ghost use Rattle.mesh_wire.specs.TcHeading.{tc_row};

    ghost row_of = { tc_row };

    // The row of what is kept of an address.
    fn of_told(told: &AddressParts) -> TcRow {
        TcRow {
            dest: told.net,
            origin: told.parts.octets.addr_type.first,
            routable: told.parts.octets.addr_type.second,
            gateway: told.parts.octets.gateway.one.value(),
            metric: told.parts.metrics.near_out.value(),
        }
    }
}

/// Reads a message of type TC (RFC 7181, sections 13 and 16). TLVs with an extension, but for CONT_SEQ_NUM, and of other types
/// are ignored. The rows are the distinct addresses of the message, each with all that the TLVs over it say, in ascending
/// order; times are those at the distance that the message has come. Where rules are broken, the fault is the one of least
/// number, with the least address that breaks it where the rule is about addresses; else an allocation failure is the only fault.
pub fn tc_of(alloc: Global, message: &Message) -> Result<Tc, WireFault>
    requires kind { message.now.kind ≡ 1 }
    ensures reads { ReadsOrRefuses (TcIs (fields_of_message message.now)) (BreaksTc (fields_of_message message.now)) result }
    // What says that it is a router's address is a whole address.
    ensures whole { IfOk result (λ tc. HaveTypeWhole tc.rows) }
    ensures bounded { IfOk result (λ tc. tc.validity < 2 ^ 35) }
{
    let (header, told) = kept_of(alloc, message, header_of(message), TypedKind::Tc)?;
    let rows = rows_of::<TcRow>(alloc, told.as_slice())?;
    Ok(Tc {
        originator: header.originator,
        sequence: header.sequence,
        ansn: header.content.ansn,
        complete: header.content.complete,
        validity: header.validity,
        interval: header.interval,
        rows,
    })
}
