//! The values of TLVs, and why reading or writing them fails (RFC 5444, section 5.4.1).
use std::alloc::AllocError;

/// A TLV of a packet or a message (RFC 5444, section 5.4.1). `ext` is its type extension, 0 where none is written. A
/// value of no octets is a value. The value is a slice of the frame that it was read from.
#[derive(Clone, Copy, PartialEq, Eq)]
pub struct Tlv<'a> {
    pub kind: u8,
    pub ext: u8,
    pub value: Option<&'a [u8]>,
}

/// A TLV of the addresses from `first` to `last` of an address block, counted from 0 (RFC 5444, section 5.4.1). With
/// `multi` its value is in equal parts, one for each of them in order. What is read has `first` at most `last`, `last`
/// below the number of addresses, and `multi` only with a value whose length the number of covered addresses divides;
/// the writer asks for the same.
#[derive(Clone, Copy, PartialEq, Eq)]
pub struct AddrTlv<'a> {
    pub kind: u8,
    pub ext: u8,
    pub first: u8,
    pub last: u8,
    pub multi: bool,
    pub value: Option<&'a [u8]>,
}

/// Why a block isn't written: it or one of its values has more than 65,535 octets, or an allocation failure.
#[derive(Drop)]
pub enum WriteTlv {
    TooLong,
    Memory(AllocError),
}

impl From<AllocError> for WriteTlv {
    ghost use Rattle.std.specs.Prelude.{◌≡◌};
    ghost use Rattle.mesh_tlv.specs.declared.tlv.WriteTlv.TheVariants.{Memory};

    ghost from_gives = { λ e r. r ≡ Memory e };

    fn from(e: AllocError) -> WriteTlv {
        WriteTlv::Memory(e)
    }
}
