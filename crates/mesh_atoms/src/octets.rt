//! Numbers of 16 bits and addresses as octets, the highest octet first, and the first steps of reading a frame: one octet, and a
//! number of 16 bits, or the fault of one that is cut off.
ghost use Rattle.std.specs.Prelude.{◌≡◌, ◌≤◌, ◌<◌, ◌+◌, ◌∷◌, [], length, IfOk};
ghost use Rattle.mesh_atoms.specs.Octets.{short_in, short_octets, address_in, address_octets};
ghost use Rattle.mesh_atoms.specs.Reading.{octet_at, short_at};

use crate::{Addr4, Refusal};
use byteorder::{BigEndian, ByteOrder};

/// The number of 16 bits that the first two octets are, the high one first.
pub fn short_of(octets: &[u8]) -> u16
    requires { 2 ≤ length octets.now }
    ensures { result ≡ short_in octets.now }
{
    BigEndian::read_u16(octets)
}

/// The two octets of a number of 16 bits, the high one first.
pub fn octets_of_short(number: u16) -> [u8; 2]
    ensures { result ≡ short_octets number }
{
    let mut octets = [0; 2];
    BigEndian::write_u16(&mut octets, number);
    octets
}

/// The IPv4 address that the first four octets are.
pub fn address_in(octets: &[u8]) -> Addr4
    requires { 4 ≤ length octets.now }
    ensures { result.0 ≡ address_in octets.now }
{
    Addr4(BigEndian::read_u32(octets))
}

/// The four octets of an IPv4 address.
pub fn octets_of_address(address: Addr4) -> [u8; 4]
    ensures { result ≡ address_octets address.0 }
{
    let mut octets = [0; 4];
    BigEndian::write_u32(&mut octets, address.0);
    octets
}

/// The refusal of the field at a place, by the number of the rule that it breaks.
pub fn refuse(place: usize, reason: u8) -> Refusal
    ensures { result ≡ record { place = place; reason = reason } }
{
    Refusal { place, reason }
}

/// The octet at a place, and the place after it. Refuses it, for that reason, from `end` on.
pub fn read_octet(frame: &[u8], at: usize, end: usize, reason: u8) -> Result<(u8, usize), Refusal>
    requires { end ≤ length frame.now }
    ensures exact { result ≡ octet_at reason frame.now at end }
    ensures after { IfOk result (λ x. (x.1 ≤ end) × (x.1 ≡ at + 1)) }
{
    if at < end {
        Ok((frame[at], at + 1))
    } else {
        Err(refuse(at, reason))
    }
}

/// The number of 16 bits at a place, its high octet first, and the place after it. Refuses it, for that reason, where it
/// passes `end`.
pub fn read_short(frame: &[u8], at: usize, end: usize, reason: u8) -> Result<(u16, usize), Refusal>
    requires at { at ≤ end }
    requires end { end ≤ length frame.now }
    ensures exact { result ≡ short_at reason frame.now at end }
    ensures after { IfOk result (λ x. (x.1 ≤ end) × (x.1 ≡ at + 2)) }
{
    if end - at > 1 {
        Ok((short_of(&frame[at..]), at + 2))
    } else {
        Err(refuse(at, reason))
    }
}
