//! The digits of 16 octets at once, in the lanes of vectors.
ghost use Rattle.std.specs.Prelude.{◌≡◌, ℕ, ◌+◌, ◌*◌, ◌/◌, ◌%◌, ◌<◌, ◌≤◌, length, slice_index};
ghost use Rattle.std.specs.Simd.Lanes.{put_chunk};
ghost use Rattle.hex.specs.Hex.{lower_digits};
ghost use Rattle.mesh_report.specs.Digits.{HasDigits, AreDigits};
ghost use Rattle.mesh_report.specs.Lanes.{HasLanes};

use std::simd::prelude::*;

// The 16 digits.
const LOWER: [u8; 16] = [
    48, 49, 50, 51, 52, 53, 54, 55, 56, 57, 97, 98, 99, 100, 101, 102,
];

// The 16 octets from a place on.
#[inline(always)]
fn load(octets: &[u8], at: usize) -> u8x16
    requires { at + 16 ≤ length octets.now }
    ensures { HasLanes 16 result (λ k. slice_index octets.now (at + k)) }
{
    u8x16::from_slice(&octets[at..])
}

// The high 4 bits of each lane.
#[inline(always)]
fn highs(v: u8x16) -> u8x16
    ensures { HasLanes 16 result (λ k. slice_index v k / 16) }
{
    v >> u8x16::splat(4)
}

// The low 4 bits of each lane.
#[inline(always)]
fn lows(v: u8x16) -> u8x16
    ensures { HasLanes 16 result (λ k. slice_index v k % 16) }
{
    v & u8x16::splat(15)
}

// The digit of each lane.
#[inline(always)]
fn digits(v: u8x16) -> u8x16
    requires { (k : ℕ) → k < 16 → slice_index v k < 16 }
    ensures { HasLanes 16 result (λ k. slice_index lower_digits (slice_index v k)) }
{
    u8x16::from_array(LOWER).swizzle_dyn(v)
}

// The lanes of two vectors in turn.
#[inline(always)]
fn mixed(a: u8x16, b: u8x16) -> u8x32
    ensures len { length result ≡ 32 }
    ensures first { (k : ℕ) → k < 16 → slice_index result (2 * k) ≡ slice_index a k }
    ensures second { (k : ℕ) → k < 16 → slice_index result (2 * k + 1) ≡ slice_index b k }
{
    a.shuffle(
        b,
        [
            0, 16, 1, 17, 2, 18, 3, 19, 4, 20, 5, 21, 6, 22, 7, 23, 8, 24, 9, 25, 10, 26, 11, 27,
            12, 28, 13, 29, 14, 30, 15, 31,
        ],
    )
}

// The digits of each lane.
#[inline(always)]
fn digits_of(v: u8x16) -> u8x32
    ensures len { length result ≡ 32 }
    ensures each { (k : ℕ) → k < 16 → HasDigits (slice_index v k) (slice_index result (2 * k)) (slice_index result (2 * k + 1)) }
{
    mixed(digits(highs(v)), digits(lows(v)))
}

// Puts 32 octets at a place.
#[inline(always)]
fn store(v: u8x32, out: &mut [u8], at: usize)
    requires { at + 32 ≤ length out.old }
    ensures { out.new ≡ put_chunk at out.old v }
{
    v.copy_to_slice(&mut out[at..]);
}

/// Lays the digits of octets over a text of that length, 16 octets at once, and leaves those of the last octets, which are
/// fewer.
#[inline(always)]
pub(crate) fn lay_wide(octets: &[u8], out: &mut [u8])
    requires { length out.old ≡ 2 * length octets.now }
    ensures len { length out.new ≡ length out.old }
    ensures digits { AreDigits octets.now out.new (16 * (length octets.now / 16)) }
{
    for i in 0..octets.len() / 16 {
        store(digits_of(load(octets, 16 * i)), out, 32 * i);
    }
}
