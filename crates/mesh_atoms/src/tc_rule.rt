//! The rules that a TC keeps, by the numbers that a refusal tells, in the order in which they are looked at.

/// Addresses are of IPv4.
pub const ADDRESS_WIDTH: u8 = 32;

/// There is an originator and a sequence number.
pub const HEADING: u8 = 33;

/// There is one VALIDITY_TIME, with a time above 0 at the message's distance.
pub const VALIDITY: u8 = 34;

/// There is one INTERVAL_TIME at most.
pub const INTERVAL: u8 = 35;

/// There is one CONT_SEQ_NUM, of two octets.
pub const CONTENT: u8 = 36;

/// NBR_ADDR_TYPE is 1, 2 or 3, one value on each address, on whole addresses.
pub const ADDR_TYPE: u8 = 37;

/// GATEWAY is one octet, one value on each address, and not beside NBR_ADDR_TYPE.
pub const GATEWAY: u8 = 38;

/// LINK_METRIC is two octets, with one code of each kind on an address.
pub const METRIC: u8 = 39;
