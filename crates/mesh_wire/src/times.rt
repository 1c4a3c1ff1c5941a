//! What the TLVs of a message's header say: its times and how willing its sender is to be a relay (RFC 5497, section 7, and RFC 7181,
//! section 13.3.1).
ghost use Rattle.std.specs.Prelude.{◌≡◌, ◌≤◌, ◌<◌, ◌^◌, ℕ, List, [], ◌∷◌, Option, map, IfSome, IfNone};
ghost use Rattle.mesh_tlv.specs.Fields.{fields};
ghost use Rattle.mesh_packet.specs.Fields.{fields_of_message};
ghost use Rattle.mesh_wire.specs.Hello.{HasWilling};
ghost use Rattle.mesh_wire.specs.Parts.{octets_of};
ghost use Rattle.mesh_wire.specs.Singles.{IsSingleOf};
ghost use Rattle.mesh_wire.specs.Times.{ValidityIs, IntervalIs};
ghost use Rattle.mesh_wire.specs.Values.{values_in};

use crate::singles::Single;
use mesh_atoms::time_at;
use mesh_atoms::tlv_type::{INTERVAL_TIME, MPR_WILLING, VALIDITY_TIME};
use mesh_packet::Message;
use mesh_tlv::Tlv;

// The octets of a TLV's value.
pub(crate) fn octets_of<'a>(tlv: &Tlv<'a>) -> &'a [u8]
    ensures { result.now ≡ octets_of (fields tlv.now).value }
{
    match tlv.value {
        Some(octets) => octets,
        None => &[],
    }
}

// The values of the TLVs of that type, without extension: none, one, or more.
fn values_of<'a>(tlvs: &[Tlv<'a>], kind: u8) -> Single<&'a [u8]>
    ensures { IsSingleOf result (λ octets. octets.now) (values_in kind (map fields tlvs.now)) }
{
    let mut found = None;
    for i in 0..tlvs.len() {
        let tlv = &tlvs[i];
        if tlv.kind == kind && tlv.ext == 0 {
            if found.is_some() {
                return Single::Conflict;
            }
            found = Some(octets_of(tlv));
        }
    }
    match found {
        Some(octets) => Single::Value(octets),
        None => Single::Absent,
    }
}

/// The value of the one message TLV of that type without extension; `None` where there is none, or more than one. No value counts as one of no
/// octets.
pub fn only_value<'a>(tlvs: &[Tlv<'a>], kind: u8) -> Option<&'a [u8]>
    ensures some { IfSome result (λ octets. values_in kind (map fields tlvs.now) ≡ octets.now ∷ []) }
    ensures none { IfNone result ((octets : List ℕ) → values_in kind (map fields tlvs.now) ≡ octets ∷ [] → ⊥) }
{
    match values_of(tlvs, kind) {
        Single::Value(octets) => Some(octets),
        _ => None,
    }
}

/// The validity at the distance; none where the message breaks the rule on it.
pub(crate) fn validity(message: &Message, distance: u16) -> Option<u64>
    ensures some { IfSome result (ValidityIs (fields_of_message message.now) distance) }
    ensures none { IfNone result ((ticks : ℕ) → ValidityIs (fields_of_message message.now) distance ticks → ⊥) }
    ensures bounded { IfSome result (λ ticks. ticks < 2 ^ 35) }
{
    match values_of(message.tlvs.as_slice(), VALIDITY_TIME) {
        Single::Value(value) => match time_at(value, distance) {
            Some(ticks) => { if ticks > 0 { Some(ticks) } else { None } }
            None => None,
        },
        _ => None,
    }
}

/// The interval at the distance, which may be left out; none where the message breaks the rule on it.
pub(crate) fn interval(message: &Message, distance: u16) -> Option<Option<u64>>
    ensures some { IfSome result (IntervalIs (fields_of_message message.now) distance) }
    ensures none { IfNone result ((ticks : Option ℕ) → IntervalIs (fields_of_message message.now) distance ticks → ⊥) }
{
    match values_of(message.tlvs.as_slice(), INTERVAL_TIME) {
        Single::Absent => Some(None),
        Single::Value(value) => match time_at(value, distance) {
            Some(ticks) => Some(Some(ticks)),
            None => None,
        },
        Single::Conflict => None,
    }
}

/// How willing the sender is, by its octet; none where the message breaks the rule on it.
pub(crate) fn willing(message: &Message) -> Option<u8>
    ensures some { IfSome result (HasWilling (fields_of_message message.now)) }
    ensures none { IfNone result ((octet : ℕ) → HasWilling (fields_of_message message.now) octet → ⊥) }
{
    match values_of(message.tlvs.as_slice(), MPR_WILLING) {
        Single::Absent => Some(119),
        Single::Value(value) => match value {
            [octet] => Some(*octet),
            _ => None,
        },
        Single::Conflict => None,
    }
}
