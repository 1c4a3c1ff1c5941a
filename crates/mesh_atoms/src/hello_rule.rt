//! The rules that a HELLO keeps, by the numbers that a refusal tells, in the order in which they are looked at.

/// Addresses are of IPv4.
pub const ADDRESS_WIDTH: u8 = 20;

/// A hop limit that is there is 1.
pub const HOP_LIMIT: u8 = 21;

/// A hop count that is there is 0.
pub const HOP_COUNT: u8 = 22;

/// There is one VALIDITY_TIME, with a time above 0.
pub const VALIDITY: u8 = 23;

/// There is one INTERVAL_TIME at most.
pub const INTERVAL: u8 = 24;

/// There is one MPR_WILLING at most, of one octet.
pub const WILLING: u8 = 25;

/// LOCAL_IF, LINK_STATUS and OTHER_NEIGHB have a defined value.
pub const UNDEFINED: u8 = 26;

/// An address has one value of each of these at most.
pub const TWO_VALUES: u8 = 27;

/// An address with one of these is a whole address.
pub const PREFIX: u8 = 28;

/// LINK_METRIC is two octets, with one code of each kind on an address.
pub const METRIC: u8 = 29;

/// No address of its sender is one of the receiver's.
pub const OWN_ADDRESS: u8 = 30;

/// There is an originator where the sender has several addresses.
pub const NO_ORIGINATOR: u8 = 31;
