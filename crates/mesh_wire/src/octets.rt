//! The types of address TLV whose values are one octet (RFC 6130, section 10, and RFC 7181, section 13.3).
ghost use Rattle.std.specs.Prelude.{◌≡◌, ◌↔◌, ◌==◌, IsTrue};
ghost use Rattle.std.specs.List.{list_any};
ghost use Rattle.mesh_wire.specs.KeptParts.{is_flag_set, no_octets, octet_in, octets_also, take_octets};
ghost use Rattle.mesh_wire.specs.OctetKinds.{type_of, IsStatusType, is_within, is_value, at};
ghost use Rattle.mesh_wire.specs.RowRules.{is_undefined, has_two, has_status};

use crate::singles::{Single, set_if};
use mesh_atoms::tlv_type::{GATEWAY, LINK_STATUS, LOCAL_IF, MPR, NBR_ADDR_TYPE, OTHER_NEIGHB};

/// A type of address TLV whose values are one octet.
#[derive(Clone, Copy)]
pub(crate) enum OctetKind {
    Local,
    Link,
    Other,
    Mpr,
    AddrType,
    Gateway,
}

/// LOCAL_IF, LINK_STATUS and OTHER_NEIGHB: a HELLO has one defined value of each on an address, which is a whole one.
const STATUSES: [OctetKind; 3] = [OctetKind::Local, OctetKind::Link, OctetKind::Other];

/// One thing for each of these types.
#[derive(Clone, Copy)]
pub(crate) struct ByKind<T> {
    pub local: T,
    pub link: T,
    pub other: T,
    pub mpr: T,
    pub addr_type: T,
    pub gateway: T,
}

/// What is kept of the values of a type: whether one is no value of it, which octet the others are, and whether one sets the
/// first of two flags, 1 and 2, or the second.
#[derive(Clone, Copy)]
pub(crate) struct Octets {
    pub wrong: bool,
    pub one: Single<u8>,
    pub first: bool,
    pub second: bool,
}

// Whether an octet is in a range.
fn is_within(low: u8, bound: u8, octet: u8) -> bool
    ensures { result ≡ is_within low bound octet }
{
    low <= octet && octet < bound
}

impl OctetKind {
    /// The type by its number.
    pub(crate) fn tlv_type(self) -> u8
        ensures { result ≡ type_of self }
    {
        match self {
            OctetKind::Local => LOCAL_IF,
            OctetKind::Link => LINK_STATUS,
            OctetKind::Other => OTHER_NEIGHB,
            OctetKind::Mpr => MPR,
            OctetKind::AddrType => NBR_ADDR_TYPE,
            OctetKind::Gateway => GATEWAY,
        }
    }

    // Whether the octet is a value of the type.
    fn is_value(self, octet: u8) -> bool
        ensures { result ≡ is_value self octet }
    {
        match self {
            OctetKind::Local => is_within(0, 2, octet),
            OctetKind::Link => is_within(0, 3, octet),
            OctetKind::Other => is_within(0, 2, octet),
            OctetKind::Mpr => is_within(1, 4, octet),
            OctetKind::AddrType => is_within(1, 4, octet),
            OctetKind::Gateway => true,
        }
    }

    // The octet of a value of the type.
    fn octet_in(self, octets: &[u8]) -> Option<u8>
        ensures { result ≡ octet_in self octets.now }
    {
        match octets {
            [octet] => {
                if self.is_value(*octet) {
                    Some(*octet)
                } else {
                    None
                }
            }
            _ => None,
        }
    }
}

// Whether one of the types has the number.
fn has_type(kinds: &[OctetKind], tlv_type: u8) -> bool
    ensures { result ≡ list_any (λ kind. tlv_type == type_of kind) kinds.now }
{
    match kinds {
        [] => false,
        [kind, rest @ ..] => tlv_type == kind.tlv_type() || has_type(rest, tlv_type),
    }
}

/// Whether the type of an address TLV is LOCAL_IF, LINK_STATUS or OTHER_NEIGHB.
pub fn is_status_type(tlv_type: u8) -> bool
    ensures { IsTrue result ↔ IsStatusType tlv_type }
{
    has_type(&STATUSES, tlv_type)
}

impl<T: Copy> ByKind<T> {
    /// What there is for the type.
    pub(crate) fn at(&self, kind: OctetKind) -> T
        ensures { result ≡ at kind self.now }
    {
        match kind {
            OctetKind::Local => self.local,
            OctetKind::Link => self.link,
            OctetKind::Other => self.other,
            OctetKind::Mpr => self.mpr,
            OctetKind::AddrType => self.addr_type,
            OctetKind::Gateway => self.gateway,
        }
    }
}

// Whether a value sets the flag, by itself or beside the other one.
fn is_flag_set(octets: &[u8], flag: u8) -> bool
    ensures { result ≡ is_flag_set flag octets.now }
{
    match octets {
        [octet] => *octet == flag || *octet == 3,
        _ => false,
    }
}

impl Octets {
    // One value more.
    fn take(&mut self, kind: OctetKind, octets: &[u8])
        ensures { self.new ≡ octets_also kind octets.now self.old }
    {
        let octet = kind.octet_in(octets);
        set_if(&mut self.wrong, octet.is_none());
        self.one = self.one.also_some(octet);
        set_if(&mut self.first, is_flag_set(octets, 1));
        set_if(&mut self.second, is_flag_set(octets, 2));
    }
}

impl ByKind<Octets> {
    /// Nothing is said.
    pub(crate) fn new() -> ByKind<Octets>
        ensures { result ≡ no_octets }
    {
        let none = Octets {
            wrong: false,
            one: Single::Absent,
            first: false,
            second: false,
        };
        ByKind {
            local: none,
            link: none,
            other: none,
            mpr: none,
            addr_type: none,
            gateway: none,
        }
    }

    /// One value more, of a type without extension.
    pub(crate) fn take(&mut self, tlv_type: u8, octets: &[u8])
        ensures { self.new ≡ take_octets tlv_type octets.now self.old }
    {
        if tlv_type == LOCAL_IF {
            self.local.take(OctetKind::Local, octets);
        } else if tlv_type == LINK_STATUS {
            self.link.take(OctetKind::Link, octets);
        } else if tlv_type == OTHER_NEIGHB {
            self.other.take(OctetKind::Other, octets);
        } else if tlv_type == MPR {
            self.mpr.take(OctetKind::Mpr, octets);
        } else if tlv_type == NBR_ADDR_TYPE {
            self.addr_type.take(OctetKind::AddrType, octets);
        } else if tlv_type == GATEWAY {
            self.gateway.take(OctetKind::Gateway, octets);
        }
    }

    /// Whether a LOCAL_IF, LINK_STATUS or OTHER_NEIGHB has an undefined value.
    pub(crate) fn is_undefined(&self) -> bool
        ensures { result ≡ is_undefined self.now }
    {
        self.local.wrong || (self.link.wrong || self.other.wrong)
    }

    /// Whether one of these has two values.
    pub(crate) fn has_two(&self) -> bool
        ensures { result ≡ has_two self.now }
    {
        self.local.one.is_conflict()
            || (self.link.one.is_conflict() || self.other.one.is_conflict())
    }

    /// Whether there is one of these.
    pub(crate) fn has_status(&self) -> bool
        ensures { result ≡ has_status self.now }
    {
        self.local.one.is_said() || (self.link.one.is_said() || self.other.one.is_said())
    }
}
