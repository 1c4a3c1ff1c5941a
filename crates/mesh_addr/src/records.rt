//! Addresses as they stand in a block.
use mesh_atoms::Seq;

/// An address of up to 16 octets, with zeros after them, and the length of its prefix in bits.
#[derive(Clone, Copy, PartialEq, Eq)]
pub struct RawAddr {
    pub octets: [u8; 16],
    pub prefix: u8,
}

/// The addresses of an address block (RFC 5444, section 5.3), `width` octets each. A block on the air has 1 to 255 of them.
#[derive(Drop)]
pub struct AddrBlock {
    pub width: u8,
    pub addrs: Seq<RawAddr>,
}
