//! The flags of a message and of a packet (RFC 5444, sections 5.1 and 5.2).

/// An originator follows.
pub const ORIGINATOR: u8 = 0x80;

/// A hop limit follows.
pub const LIMIT: u8 = 0x40;

/// A hop count follows.
pub const COUNT: u8 = 0x20;

/// A sequence number of the message follows.
pub const SEQUENCE: u8 = 0x10;

/// A sequence number of the packet follows.
pub const PACKET_SEQUENCE: u8 = 0x08;

/// A TLV block of the packet follows.
pub const PACKET_TLVS: u8 = 0x04;
