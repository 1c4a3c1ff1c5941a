//! The rules of RFC 5444 that a field can break, by the numbers that a refusal tells, in the order in which they are looked
//! at within one field.

/// The field passes the end of its frame or message, outside TLVs.
pub const SHORT: u8 = 1;

/// The packet's version isn't 0.
pub const VERSION: u8 = 2;

/// A message's size is less than its own first fields have, or passes the end of the frame.
pub const MESSAGE_SIZE: u8 = 3;

/// A TLV block passes the end of its frame or message, or a TLV's field passes its block's end.
pub const BLOCK_LENGTH: u8 = 4;

/// Flags of a TLV that don't go together, or that this kind of TLV doesn't take.
pub const TLV_FLAGS: u8 = 5;

/// An index that is not below the number of addresses, or a stop that is below the start.
pub const TLV_INDEX: u8 = 6;

/// A length that the number of covered addresses doesn't divide, with multivalue.
pub const TLV_VALUE: u8 = 7;

/// The number of addresses is 0.
pub const NO_ADDRESSES: u8 = 8;

/// Both tail flags, or both prefix flags.
pub const ADDR_FLAGS: u8 = 9;

/// A head length above the width, or a tail length above what the head leaves.
pub const ADDR_CUT: u8 = 10;

/// A prefix length above 8 times the width.
pub const PREFIX_LENGTH: u8 = 11;
