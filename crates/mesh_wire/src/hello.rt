//! HELLO messages read as typed values (RFC 6130, section 10, and RFC 7181, section 15).
ghost use Rattle.std.specs.Prelude.{◌≡◌, ◌↔◌, ◌<◌, ◌/◌, ◌%◌, ◌^◌, IsTrue, IfOk, IfErr, None};
ghost use Rattle.std.specs.Option.{option_map};
ghost use Rattle.mesh_packet.specs.Fields.{fields_of_message};
ghost use Rattle.mesh_wire.specs.Answers.{ReadsOrRefuses};
ghost use Rattle.mesh_wire.specs.Hello.{OriginatorIs, HelloIs};
ghost use Rattle.mesh_wire.specs.HelloHeading.{IsOther, HelloHeaderIs};
ghost use Rattle.mesh_wire.specs.HelloRows.{local_from, link_from, other_from, sender_row, row_with};
ghost use Rattle.mesh_wire.specs.HelloRules.{BreaksHello};
ghost use Rattle.mesh_wire.specs.Rules.{FirstBroken};
ghost use Rattle.mesh_wire.specs.Singles.{value_from};

use crate::collect::AddressParts;
use crate::fault::WireFault;
use crate::rows::{Row, TypedKind, kept_of, rows_of};
use crate::singles::Single;
use crate::times;
use mesh_atoms::{
    Addr4, Hello, HelloRow, LinkStatus, LocalIf, Metrics, Mpr, NetAddr, OtherStatus, Willing,
    address_in, hello_rule,
};
use mesh_packet::Message;
use std::alloc::Global;

/// What a HELLO says before its rows, but for its originator. Times are in ticks.
#[derive(Clone, Copy)]
pub struct HelloHeader {
    pub validity: u64,
    pub interval: Option<u64>,
    pub willing: Willing,
}

// Whether a number is there that isn't the wanted one.
fn is_other(value: Option<u8>, wanted: u8) -> bool
    ensures { IsTrue result ↔ IsOther wanted value }
{
    match value {
        Some(number) => number != wanted,
        None => false,
    }
}

// How willing a sender is, by the octet of MPR_WILLING.
fn willing_of(octet: u8) -> Willing
    ensures flooding { result.flooding ≡ octet / 16 }
    ensures routing { result.routing ≡ octet % 16 }
{
    Willing {
        flooding: octet / 16,
        routing: octet % 16,
    }
}

/// What the message says before its rows, or the first rule on it that is broken.
pub(crate) fn header_of(message: &Message) -> Result<HelloHeader, u8>
    ensures header { IfOk result (HelloHeaderIs (fields_of_message message.now)) }
    ensures bounded { IfOk result (λ header. header.validity < 2 ^ 35) }
    ensures broken { IfErr result (λ number. FirstBroken (BreaksHello (fields_of_message message.now)) number None) }
{
    if message.width != 4 {
        return Err(hello_rule::ADDRESS_WIDTH);
    }
    if is_other(message.limit, 1) {
        return Err(hello_rule::HOP_LIMIT);
    }
    if is_other(message.count, 0) {
        return Err(hello_rule::HOP_COUNT);
    }
    let Some(validity) = times::validity(message, 1) else {
        return Err(hello_rule::VALIDITY);
    };
    let Some(interval) = times::interval(message, 1) else {
        return Err(hello_rule::INTERVAL);
    };
    let Some(willing) = times::willing(message) else {
        return Err(hello_rule::WILLING);
    };
    Ok(HelloHeader {
        validity,
        interval,
        willing: willing_of(willing),
    })
}

fn local_from(one: Single<u8>) -> Option<LocalIf>
    ensures { result ≡ option_map local_from (value_from one) }
{
    match one.value() {
        Some(0) => Some(LocalIf::This),
        Some(_) => Some(LocalIf::Other),
        None => None,
    }
}

fn link_from(one: Single<u8>) -> Option<LinkStatus>
    ensures { result ≡ option_map link_from (value_from one) }
{
    match one.value() {
        Some(0) => Some(LinkStatus::Lost),
        Some(1) => Some(LinkStatus::Symmetric),
        Some(_) => Some(LinkStatus::Heard),
        None => None,
    }
}

fn other_from(one: Single<u8>) -> Option<OtherStatus>
    ensures { result ≡ option_map other_from (value_from one) }
{
    match one.value() {
        Some(0) => Some(OtherStatus::Lost),
        Some(_) => Some(OtherStatus::Symmetric),
        None => None,
    }
}

// A row of which nothing is said but whether its address is the sender's.
fn sender_row(addr: NetAddr, local: Option<LocalIf>) -> HelloRow
    ensures { result ≡ sender_row addr local }
{
    HelloRow {
        addr,
        local,
        link: None,
        other: None,
        metrics: Metrics {
            link_in: None,
            link_out: None,
            near_in: None,
            near_out: None,
        },
        mpr: Mpr {
            flooding: false,
            routing: false,
        },
    }
}

// The row of what is kept of an address, by its LOCAL_IF.
fn row_with(told: &AddressParts, local: Option<LocalIf>) -> HelloRow
    ensures { result ≡ row_with told.now local }
{
    let octets = &told.parts.octets;
    let metrics = &told.parts.metrics;
    match local {
        Some(local) => sender_row(told.net, Some(local)),
        None => HelloRow {
            addr: told.net,
            local: None,
            link: link_from(octets.link.one),
            other: other_from(octets.other.one),
            metrics: Metrics {
                link_in: metrics.link_in.value(),
                link_out: metrics.link_out.value(),
                near_in: metrics.near_in.value(),
                near_out: metrics.near_out.value(),
            },
            mpr: Mpr {
                flooding: octets.mpr.first,
                routing: octets.mpr.second,
            },
        },
    }
}

impl Row for HelloRow {
    ghost use Rattle.mesh_wire.specs.HelloRows.{hello_row};

    ghost row_of = { hello_row };

    // The row of what is kept of an address.
    fn of_told(told: &AddressParts) -> HelloRow {
        row_with(told, local_from(told.parts.octets.local.one))
    }
}

/// The originator of a message's header by its first four octets, of a message of any type; `None` where it has none. The
/// message's addresses are of IPv4.
pub fn originator_of(message: &Message) -> Option<Addr4>
    ensures { OriginatorIs message.now.originator result }
{
    match message.originator {
        Some(address) => Some(address_in(&address.octets)),
        None => None,
    }
}

/// Reads a message of type HELLO (RFC 6130, section 10, and RFC 7181, section 15). TLVs with an extension, of other types, and
/// MPR values other than 1, 2 and 3 are ignored. The rows are the distinct addresses of the message, each with all that the
/// TLVs over it say, in ascending order. Where rules are broken, the fault is the one of least number, with the least
/// address that breaks it where the rule is about addresses; else an allocation failure is the only fault.
pub fn hello_of(alloc: Global, message: &Message) -> Result<Hello, WireFault>
    requires kind { message.now.kind ≡ 0 }
    ensures reads { ReadsOrRefuses (HelloIs (fields_of_message message.now)) (BreaksHello (fields_of_message message.now)) result }
    ensures bounded { IfOk result (λ hello. hello.validity < 2 ^ 35) }
{
    let (header, told) = kept_of(alloc, message, header_of(message), TypedKind::Hello)?;
    let rows = rows_of::<HelloRow>(alloc, told.as_slice())?;
    Ok(Hello {
        originator: originator_of(message),
        validity: header.validity,
        interval: header.interval,
        willing: header.willing,
        rows,
    })
}
