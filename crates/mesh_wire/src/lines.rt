//! What is written of each address of a message, whichever message it is (RFC 6130, section 10, and RFC 7181, section 13.3).
ghost use Rattle.std.specs.Prelude.{◌≡◌, ◌≤◌, IfOk, map};
ghost use Rattle.std.specs.Option.{option_map};
ghost use Rattle.mesh_wire.specs.Hello.{local_value, link_value, other_value};
ghost use Rattle.mesh_wire.specs.Lines.{kind_of, is_wide, width_of, narrow, flagged, octet_pair, hello_line, tc_line};
ghost use Rattle.mesh_wire.specs.OctetKinds.{flags_number};

use crate::octets::{ByKind, OctetKind};
use mesh_atoms::tlv_type::LINK_METRIC;
use mesh_atoms::{
    HelloRow, LinkStatus, LocalIf, Metric, Metrics, NetAddr, OtherStatus, Seq, TcRow,
};
use std::alloc::{AllocError, Global};

/// What a TLV may say of an address: its type, and for LINK_METRIC which metric.
#[derive(Clone, Copy)]
pub(crate) enum AddressTlvKind {
    Octet(OctetKind),
    LinkIn,
    LinkOut,
    NearIn,
    NearOut,
}

/// All columns, in the order in which they are laid and written.
pub(crate) const COLUMNS: [AddressTlvKind; 10] = [
    AddressTlvKind::Octet(OctetKind::Local),
    AddressTlvKind::Octet(OctetKind::Link),
    AddressTlvKind::Octet(OctetKind::Other),
    AddressTlvKind::Octet(OctetKind::Mpr),
    AddressTlvKind::Octet(OctetKind::AddrType),
    AddressTlvKind::Octet(OctetKind::Gateway),
    AddressTlvKind::LinkIn,
    AddressTlvKind::LinkOut,
    AddressTlvKind::NearIn,
    AddressTlvKind::NearOut,
];

/// All that is written of one address.
#[derive(Clone, Copy)]
pub(crate) struct AddressRecord {
    pub net: NetAddr,
    pub octets: ByKind<Option<u8>>,
    pub metrics: Metrics,
}

impl AddressTlvKind {
    /// The type of its TLVs.
    pub(crate) fn kind(self) -> u8
        ensures { result ≡ kind_of self }
    {
        match self {
            AddressTlvKind::Octet(kind) => kind.tlv_type(),
            _ => LINK_METRIC,
        }
    }

    /// Whether its values have two octets, as those of metrics, and not one.
    pub(crate) fn is_wide(self) -> bool
        ensures { result ≡ is_wide self }
    {
        match self {
            AddressTlvKind::Octet(_) => false,
            _ => true,
        }
    }
}

// One octet, with 0 behind it.
fn narrow(octet: Option<u8>) -> Option<(u8, u8)>
    ensures { result ≡ narrow octet }
{
    match octet {
        Some(octet) => Some((octet, 0)),
        None => None,
    }
}

// A metric with the flag of its kind in the first octet.
fn flagged(flag: u8, metric: Option<Metric>) -> Option<(u8, u8)>
    requires { flag ≤ 128 }
    ensures { result ≡ flagged flag metric }
{
    match metric {
        Some(metric) => Some((flag + (metric.code / 256) as u8, (metric.code % 256) as u8)),
        None => None,
    }
}

impl AddressRecord {
    /// What is said of the address, as two octets, of which a value has the first or both.
    pub(crate) fn octet_pair(&self, column: AddressTlvKind) -> Option<(u8, u8)>
        ensures { result ≡ octet_pair column self.now }
    {
        match column {
            AddressTlvKind::Octet(kind) => narrow(self.octets.at(kind)),
            AddressTlvKind::LinkIn => flagged(128, self.metrics.link_in),
            AddressTlvKind::LinkOut => flagged(64, self.metrics.link_out),
            AddressTlvKind::NearIn => flagged(32, self.metrics.near_in),
            AddressTlvKind::NearOut => flagged(16, self.metrics.near_out),
        }
    }
}

// Two flags, 1 and 2, in one octet; none where neither is set.
fn flags_number(first: bool, second: bool) -> Option<u8>
    ensures { result ≡ flags_number first second }
{
    match (first, second) {
        (false, false) => None,
        (true, false) => Some(1),
        (false, true) => Some(2),
        (true, true) => Some(3),
    }
}

fn local_value(local: Option<LocalIf>) -> Option<u8>
    ensures { result ≡ option_map local_value local }
{
    match local {
        Some(LocalIf::This) => Some(0),
        Some(LocalIf::Other) => Some(1),
        None => None,
    }
}

fn link_value(link: Option<LinkStatus>) -> Option<u8>
    ensures { result ≡ option_map link_value link }
{
    match link {
        Some(LinkStatus::Lost) => Some(0),
        Some(LinkStatus::Symmetric) => Some(1),
        Some(LinkStatus::Heard) => Some(2),
        None => None,
    }
}

fn other_value(other: Option<OtherStatus>) -> Option<u8>
    ensures { result ≡ option_map other_value other }
{
    match other {
        Some(OtherStatus::Lost) => Some(0),
        Some(OtherStatus::Symmetric) => Some(1),
        None => None,
    }
}

// What is written of a row of a HELLO.
fn hello_line(row: &HelloRow) -> AddressRecord
    ensures { result ≡ hello_line row.now }
{
    AddressRecord {
        net: row.addr,
        octets: ByKind {
            local: local_value(row.local),
            link: link_value(row.link),
            other: other_value(row.other),
            mpr: flags_number(row.mpr.flooding, row.mpr.routing),
            addr_type: None,
            gateway: None,
        },
        metrics: row.metrics,
    }
}

// What is written of a row of a TC.
fn tc_line(row: &TcRow) -> AddressRecord
    ensures { result ≡ tc_line row.now }
{
    AddressRecord {
        net: row.dest,
        octets: ByKind {
            local: None,
            link: None,
            other: None,
            mpr: None,
            addr_type: flags_number(row.origin, row.routable),
            gateway: row.gateway,
        },
        metrics: Metrics {
            link_in: None,
            link_out: None,
            near_in: None,
            near_out: row.metric,
        },
    }
}

/// What is written of the rows of a HELLO.
pub(crate) fn hello_lines(
    alloc: Global,
    rows: &[HelloRow],
) -> Result<Seq<AddressRecord>, AllocError>
    ensures { IfOk result (λ lines. lines ≡ map hello_line rows.now) }
{
    let mut lines = Seq::new(alloc);
    for row in rows {
        lines.push(hello_line(row))?;
    }
    Ok(lines)
}

/// What is written of the rows of a TC.
pub(crate) fn tc_lines(alloc: Global, rows: &[TcRow]) -> Result<Seq<AddressRecord>, AllocError>
    ensures { IfOk result (λ lines. lines ≡ map tc_line rows.now) }
{
    let mut lines = Seq::new(alloc);
    for row in rows {
        lines.push(tc_line(row))?;
    }
    Ok(lines)
}
