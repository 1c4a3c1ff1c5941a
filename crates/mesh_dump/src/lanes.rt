//! 32 digits at once, in the lanes of a vector.
ghost use Rattle.std.specs.Prelude.{◌≡◌, ℕ, ◌+◌, ◌*◌, ◌-◌, ◌/◌, ◌%◌, ◌<◌, ◌≤◌, length, slice_index, nat_lt, if◌then◌else◌, bit_or, IsTrue};
ghost use Rattle.std.specs.Simd.Lanes.{put_chunk};
ghost use Rattle.mesh_dump.specs.Values.{less, digit_value};
ghost use Rattle.mesh_report.specs.Lanes.{HasLanes};
ghost use Rattle.mesh_dump.specs.Pairs.{AreHexPairs};

use std::simd::prelude::*;

// The 32 octets from a place on.
#[inline(always)]
fn load(text: &[u8], at: usize) -> u8x32
    requires { at + 32 ≤ length text.now }
    ensures { HasLanes 32 result (λ k. slice_index text.now (at + k)) }
{
    u8x32::from_slice(&text[at..])
}

// Each lane less a number, going round at 256.
#[inline(always)]
fn less(v: u8x32, number: u8) -> u8x32
    ensures { HasLanes 32 result (λ k. less (slice_index v k) number) }
{
    v - u8x32::splat(number)
}

// Each lane and a number, going round at 256.
#[inline(always)]
fn more(v: u8x32, number: u8) -> u8x32
    ensures { HasLanes 32 result (λ k. (slice_index v k + number) % 256) }
{
    v + u8x32::splat(number)
}

// Each lane with the bits of a number.
#[inline(always)]
fn with_bits(v: u8x32, bits: u8) -> u8x32
    ensures { HasLanes 32 result (λ k. bit_or (slice_index v k) bits) }
{
    v | u8x32::splat(bits)
}

// Of two vectors, the lanes of the first where a lane is below a bound, else those of the second.
#[inline(always)]
fn where_below(v: u8x32, bound: u8, low: u8x32, high: u8x32) -> u8x32
    ensures { HasLanes 32 result (λ k. if nat_lt (slice_index v k) bound then slice_index low k else slice_index high k) }
{
    v.simd_lt(u8x32::splat(bound)).select(low, high)
}

// The values of digits; 255 for an octet that is none.
#[inline(always)]
fn values(v: u8x32) -> u8x32
    ensures { HasLanes 32 result (λ k. digit_value (slice_index v k)) }
{
    let number = less(v, 48);
    let letter = less(with_bits(v, 32), 97);
    let ten_more = more(letter, 10);
    let value = where_below(letter, 6, ten_more, u8x32::splat(255));
    where_below(number, 10, number, value)
}

// The lanes at even places.
#[inline(always)]
fn firsts(v: u8x32) -> u8x16
    ensures { HasLanes 16 result (λ k. slice_index v (2 * k)) }
{
    v.swizzle([0, 2, 4, 6, 8, 10, 12, 14, 16, 18, 20, 22, 24, 26, 28, 30])
}

// The lanes at odd places.
#[inline(always)]
fn seconds(v: u8x32) -> u8x16
    ensures { HasLanes 16 result (λ k. slice_index v (2 * k + 1)) }
{
    v.swizzle([1, 3, 5, 7, 9, 11, 13, 15, 17, 19, 21, 23, 25, 27, 29, 31])
}

// 16 times each lane and the lane of another vector, going round at 256.
#[inline(always)]
fn joined(high: u8x16, low: u8x16) -> u8x16
    ensures { HasLanes 16 result (λ k. (slice_index high k * 16 % 256 + slice_index low k) % 256) }
{
    (high << u8x16::splat(4)) + low
}

// The octets of pairs of digits by their values.
#[inline(always)]
fn octets_of(digits: u8x32) -> u8x16
    ensures { HasLanes 16 result (λ k. (slice_index digits (2 * k) * 16 % 256 + slice_index digits (2 * k + 1)) % 256) }
{
    joined(firsts(digits), seconds(digits))
}

// Each lane with the bits of that of another vector.
#[inline(always)]
fn either(a: u8x32, b: u8x32) -> u8x32
    ensures { HasLanes 32 result (λ k. bit_or (slice_index a k) (slice_index b k)) }
{
    a | b
}

// Whether each lane is below 16.
#[inline(always)]
fn are_low(v: u8x32) -> bool
    ensures { IsTrue result → (k : ℕ) → k < 32 → slice_index v k < 16 }
{
    v.simd_ge(u8x32::splat(16)).to_bitmask() == 0
}

// Puts 16 octets at a place.
#[inline(always)]
fn store(v: u8x16, out: &mut [u8], at: usize)
    requires { at + 16 ≤ length out.old }
    ensures { out.new ≡ put_chunk at out.old v }
{
    v.copy_to_slice(&mut out[at..]);
}

/// Puts the octets that pairs of digits write, 16 at once, and leaves those of the last pairs, which are fewer. Says yes only
/// where all of those pairs are of digits.
pub(crate) fn put_wide(text: &[u8], out: &mut [u8]) -> bool
    requires { length text.now ≡ 2 * length out.old }
    ensures len { length out.new ≡ length out.old }
    ensures octets { IsTrue result → AreHexPairs text.now out.new (16 * (length out.old / 16)) }
{
    let mut all = u8x32::splat(0);
    for i in 0..out.len() / 16 {
        let digits = values(load(text, 32 * i));
        all = either(all, digits);
        store(octets_of(digits), out, 16 * i);
    }
    are_low(all)
}
