//! What settings are refused for, by the numbers that a refusal tells. It tells a key too: the one at fault, or `input` where
//! the text itself is.

/// The text is no TOML.
pub const NOT_TOML: u8 = 40;

/// A key that must stand is absent.
pub const MISSING: u8 = 41;

/// A value is of another kind, out of its range or not of its form, or an array has too few elements.
pub const BAD_VALUE: u8 = 42;

/// A name, an address, a network or an arc stands twice.
pub const DUPLICATE: u8 = 43;

/// An array has too many elements.
pub const TOO_MANY: u8 = 44;

/// An arc names a router or an interface that isn't there.
pub const UNKNOWN_NAME: u8 = 45;

/// A table has a key that it doesn't take.
pub const UNKNOWN_KEY: u8 = 46;

/// The text has too many octets.
pub const TOO_LONG: u8 = 47;
