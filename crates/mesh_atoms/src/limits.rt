//! Limits that several crates keep to.

/// The longest frame and packet, in octets: a UDP datagram over IPv4 has up to 65,535 octets, 20 of them the IP header
/// (RFC 791, section 3.1) and 8 the UDP header (RFC 768).
pub const LONGEST_DATAGRAM: usize = 65_507;

/// The most tuples of a base of 2-hop neighbours, of the topology, or of messages seen before. Own.
pub const MOST_TUPLES: usize = 16_384;

/// The most rows of a TC that a router sends, and of those that it advertises: the 1,024 addresses that it holds at most,
/// and the 64 networks that it attaches at most. Own.
pub const MOST_TC_ROWS: usize = 1_088;
