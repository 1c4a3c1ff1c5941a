//! The flags of an address block (RFC 5444, section 5.3).

/// A head follows.
pub const HEAD: u8 = 128;

/// A tail follows.
pub const FULL_TAIL: u8 = 64;

/// The length of a tail of zeros follows.
pub const ZERO_TAIL: u8 = 32;

/// One prefix length follows, of all addresses.
pub const ONE_PREFIX: u8 = 16;

/// A prefix length of each address follows.
pub const EACH_PREFIX: u8 = 8;
