//! The types of TLVs that HELLO and TC messages have, by their numbers (RFC 5497, section 7; RFC 6130, section 10;
//! RFC 7181, section 13.3).

/// Message TLV: the time until the message is sent again.
pub const INTERVAL_TIME: u8 = 0;

/// Message TLV: the time for which the message holds.
pub const VALIDITY_TIME: u8 = 1;

/// Message TLV: how willing the sender is to be a relay.
pub const MPR_WILLING: u8 = 7;

/// Message TLV: the sequence number of what a TC advertises.
pub const CONT_SEQ_NUM: u8 = 8;

/// Address TLV: the address is the sender's own.
pub const LOCAL_IF: u8 = 2;

/// Address TLV: the state of the link with the address.
pub const LINK_STATUS: u8 = 3;

/// Address TLV: the state of the neighbour with the address.
pub const OTHER_NEIGHB: u8 = 4;

/// Address TLV: metrics of the address.
pub const LINK_METRIC: u8 = 7;

/// Address TLV: the router with the address is a relay.
pub const MPR: u8 = 8;

/// Address TLV: what an advertised address is.
pub const NBR_ADDR_TYPE: u8 = 9;

/// Address TLV: the distance of an attached network, in hops.
pub const GATEWAY: u8 = 10;
