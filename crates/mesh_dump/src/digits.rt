//! Hexadecimal digits, two for each octet.
ghost use Rattle.std.specs.Prelude.{◌≡◌, ◌*◌, ◌<◌, ◌≤◌, ◌/◌, length, Ok, Some, IfOk, OnOk, IsTrue};
ghost use Rattle.std.specs.Option.{option_map};
ghost use Rattle.hex.specs.Hex.{hex_digit_value, decode_pairs};
ghost use Rattle.mesh_dump.specs.Pairs.{AreHexPairs, AreFirst};

use crate::lanes::put_wide;
use std::alloc::{AllocError, Global};

// 16 times the value of the digit that an octet is, or 4,096.
const HIGH: [u16; 256] = [
    4096, 4096, 4096, 4096, 4096, 4096, 4096, 4096, 4096, 4096, 4096, 4096, 4096, 4096, 4096, 4096,
    4096, 4096, 4096, 4096, 4096, 4096, 4096, 4096, 4096, 4096, 4096, 4096, 4096, 4096, 4096, 4096,
    4096, 4096, 4096, 4096, 4096, 4096, 4096, 4096, 4096, 4096, 4096, 4096, 4096, 4096, 4096, 4096,
    0, 16, 32, 48, 64, 80, 96, 112, 128, 144, 4096, 4096, 4096, 4096, 4096, 4096, 4096, 160, 176,
    192, 208, 224, 240, 4096, 4096, 4096, 4096, 4096, 4096, 4096, 4096, 4096, 4096, 4096, 4096,
    4096, 4096, 4096, 4096, 4096, 4096, 4096, 4096, 4096, 4096, 4096, 4096, 4096, 4096, 160, 176,
    192, 208, 224, 240, 4096, 4096, 4096, 4096, 4096, 4096, 4096, 4096, 4096, 4096, 4096, 4096,
    4096, 4096, 4096, 4096, 4096, 4096, 4096, 4096, 4096, 4096, 4096, 4096, 4096, 4096, 4096, 4096,
    4096, 4096, 4096, 4096, 4096, 4096, 4096, 4096, 4096, 4096, 4096, 4096, 4096, 4096, 4096, 4096,
    4096, 4096, 4096, 4096, 4096, 4096, 4096, 4096, 4096, 4096, 4096, 4096, 4096, 4096, 4096, 4096,
    4096, 4096, 4096, 4096, 4096, 4096, 4096, 4096, 4096, 4096, 4096, 4096, 4096, 4096, 4096, 4096,
    4096, 4096, 4096, 4096, 4096, 4096, 4096, 4096, 4096, 4096, 4096, 4096, 4096, 4096, 4096, 4096,
    4096, 4096, 4096, 4096, 4096, 4096, 4096, 4096, 4096, 4096, 4096, 4096, 4096, 4096, 4096, 4096,
    4096, 4096, 4096, 4096, 4096, 4096, 4096, 4096, 4096, 4096, 4096, 4096, 4096, 4096, 4096, 4096,
    4096, 4096, 4096, 4096, 4096, 4096, 4096, 4096, 4096, 4096, 4096, 4096, 4096, 4096, 4096, 4096,
    4096, 4096, 4096, 4096, 4096, 4096, 4096, 4096, 4096, 4096, 4096, 4096, 4096,
];

// The value of the digit that an octet is, or 256.
const LOW: [u16; 256] = [
    256, 256, 256, 256, 256, 256, 256, 256, 256, 256, 256, 256, 256, 256, 256, 256, 256, 256, 256,
    256, 256, 256, 256, 256, 256, 256, 256, 256, 256, 256, 256, 256, 256, 256, 256, 256, 256, 256,
    256, 256, 256, 256, 256, 256, 256, 256, 256, 256, 0, 1, 2, 3, 4, 5, 6, 7, 8, 9, 256, 256, 256,
    256, 256, 256, 256, 10, 11, 12, 13, 14, 15, 256, 256, 256, 256, 256, 256, 256, 256, 256, 256,
    256, 256, 256, 256, 256, 256, 256, 256, 256, 256, 256, 256, 256, 256, 256, 256, 10, 11, 12, 13,
    14, 15, 256, 256, 256, 256, 256, 256, 256, 256, 256, 256, 256, 256, 256, 256, 256, 256, 256,
    256, 256, 256, 256, 256, 256, 256, 256, 256, 256, 256, 256, 256, 256, 256, 256, 256, 256, 256,
    256, 256, 256, 256, 256, 256, 256, 256, 256, 256, 256, 256, 256, 256, 256, 256, 256, 256, 256,
    256, 256, 256, 256, 256, 256, 256, 256, 256, 256, 256, 256, 256, 256, 256, 256, 256, 256, 256,
    256, 256, 256, 256, 256, 256, 256, 256, 256, 256, 256, 256, 256, 256, 256, 256, 256, 256, 256,
    256, 256, 256, 256, 256, 256, 256, 256, 256, 256, 256, 256, 256, 256, 256, 256, 256, 256, 256,
    256, 256, 256, 256, 256, 256, 256, 256, 256, 256, 256, 256, 256, 256, 256, 256, 256, 256, 256,
    256, 256, 256, 256, 256, 256, 256, 256, 256, 256, 256, 256, 256, 256, 256, 256, 256, 256, 256,
    256, 256, 256,
];

// 16 times the value of a digit; above 255 for an octet that is none.
fn high_of(octet: u8) -> u16
    ensures value { result < 256 → option_map (λ value. value * 16) (hex_digit_value octet) ≡ Some result }
    ensures most { result ≤ 4096 }
{
    HIGH[usize::from(octet)]
}

// The value of a digit; above 255 for an octet that is none.
fn low_of(octet: u8) -> u16
    ensures value { result < 256 → hex_digit_value octet ≡ Some result }
    ensures most { result ≤ 256 }
{
    LOW[usize::from(octet)]
}

// Puts the octets that pairs of digits write, from a place on. Gives a number below 256 where all of these are digits.
fn put_rest(text: &[u8], out: &mut [u8], from: usize) -> u16
    requires { length text.now ≡ 2 * length out.old }
    ensures len { length out.new ≡ length out.old }
    ensures octets { result < 256 → AreHexPairs text.now out.old from → AreHexPairs text.now out.new (length out.old) }
{
    let mut all = 0;
    for i in from..out.len() {
        let pair = high_of(text[2 * i]) + low_of(text[2 * i + 1]);
        all |= pair;
        out[i] = (pair % 256) as u8;
    }
    all
}

// Puts the octets that pairs of digits write. Says yes only where all of them are digits.
fn put_pairs(text: &[u8], out: &mut [u8]) -> bool
    requires { length text.now ≡ 2 * length out.old }
    ensures len { length out.new ≡ length out.old }
    ensures octets { IsTrue result → decode_pairs 0 text.now ≡ Ok out.new }
{
    if put_wide(text, out) {
        let from = 16 * (out.len() / 16);
        put_rest(text, out, from) < 256
    } else {
        false
    }
}

// Room for so many octets at least.
fn make_room(alloc: Global, frame: &mut Vec<u8>, count: usize) -> Result<(), AllocError>
    ensures { OnOk result (count ≤ length frame.new.items) }
{
    if frame.len() < count {
        *frame = vec![in alloc; 0; count]?;
    }
    Ok(())
}

// Puts the octets that pairs of digits write over the first ones of `frame`. Says yes only where all of them are digits.
fn put_first(line: &[u8], frame: &mut [u8]) -> bool
    requires even { length line.now ≡ 2 * (length line.now / 2) }
    requires room { length line.now / 2 ≤ length frame.old }
    ensures len { length frame.new ≡ length frame.old }
    ensures octets { IsTrue result → AreFirst (length line.now / 2) line.now frame.new }
{
    put_pairs(line, &mut frame[..line.len() / 2])
}

/// Puts the octets that a line writes over the first ones of `frame`. Says yes only where it is of pairs of digits.
pub fn put_octets(alloc: Global, frame: &mut Vec<u8>, line: &[u8]) -> Result<bool, AllocError>
    ensures { IfOk result (λ yes. IsTrue yes → AreFirst (length line.now / 2) line.now frame.new.items) }
{
    let count = line.len() / 2;
    if line.len() != 2 * count {
        return Ok(false);
    }
    make_room(alloc, frame, count)?;
    Ok(put_first(line, frame.as_mut_slice()))
}
