//! Reading the fields of one TLV, each with the place after it (RFC 5444, section 5.4.1). A fault's place is that of the field's first
//! octet.
ghost use Rattle.std.specs.Prelude.{◌≡◌, ◌≤◌, ◌<◌, ◌-◌, ◌+◌, length, Ok, Err, IfOk};
ghost use Rattle.std.specs.Option.{option_copied};
ghost use Rattle.mesh_atoms.specs.Reading.{Reads};
ghost use Rattle.mesh_tlv.specs.Reading.{is_sound, flags_at, extension_at, index_octet_at, indexes_at, length_at, value_at, part_count};

use crate::bits::{EXTENSION, MULTI_INDEX, MULTI_VALUE, SINGLE_INDEX, VALUE, WIDE_LENGTH};
use mesh_atoms::reason::{BLOCK_LENGTH, TLV_FLAGS, TLV_INDEX, TLV_VALUE};
use mesh_atoms::{Refusal, read_octet, read_short, refuse};

/// Whether flags break no rule, where those of `barred` aren't taken.
pub fn are_flags_sound(barred: u8, flags: u8) -> bool
    ensures { result ≡ is_sound barred flags }
{
    (flags & barred == 0)
        && !(flags & SINGLE_INDEX != 0 && flags & MULTI_INDEX != 0)
        && (flags & VALUE != 0 || !(flags & WIDE_LENGTH != 0 || flags & MULTI_VALUE != 0))
}

/// The flags.
#[tactic(auto, unfolding(crate::specs::Reading::flags_at))]
pub fn flags(barred: u8, frame: &[u8], at: usize, end: usize) -> Result<(u8, usize), Refusal>
    requires { end ≤ length frame.now }
    ensures exact { result ≡ flags_at barred frame.now at end }
    ensures after { IfOk result (λ x. (x.1 ≤ end) × (at < x.1)) }
{
    let (flags, after) = read_octet(frame, at, end, BLOCK_LENGTH)?;
    if are_flags_sound(barred, flags) {
        Ok((flags, after))
    } else {
        Err(refuse(at, TLV_FLAGS))
    }
}

/// The type extension, 0 where it isn't flagged.
#[tactic(auto, unfolding(crate::specs::Reading::extension_at))]
pub fn extension(flags: u8, frame: &[u8], at: usize, end: usize) -> Result<(u8, usize), Refusal>
    requires at { at ≤ end }
    requires end { end ≤ length frame.now }
    ensures exact { result ≡ extension_at flags frame.now at end }
    ensures after { IfOk result (λ x. (x.1 ≤ end) × (at ≤ x.1)) }
{
    if flags & EXTENSION != 0 {
        read_octet(frame, at, end, BLOCK_LENGTH)
    } else {
        Ok((0, at))
    }
}

/// An index from `low` to below `count`.
#[tactic(auto, unfolding(crate::specs::Reading::index_octet_at))]
pub fn index_from(
    low: u8,
    count: u8,
    frame: &[u8],
    at: usize,
    end: usize,
) -> Result<(u8, usize), Refusal>
    requires { end ≤ length frame.now }
    ensures exact { result ≡ index_octet_at low count frame.now at end }
    ensures after { IfOk result (λ x. (x.1 ≤ end) × (at < x.1)) }
    ensures within { IfOk result (λ x. (low ≤ x.0) × (x.0 < count)) }
{
    let (index, after) = read_octet(frame, at, end, BLOCK_LENGTH)?;
    if index < low || count <= index {
        Err(refuse(at, TLV_INDEX))
    } else {
        Ok((index, after))
    }
}

/// The first and the last address that is covered.
#[tactic(auto, unfolding(crate::specs::Reading::indexes_at))]
pub fn indexes(
    flags: u8,
    count: u8,
    frame: &[u8],
    at: usize,
    end: usize,
) -> Result<((u8, u8), usize), Refusal>
    requires count { 0 < count }
    requires at { at ≤ end }
    requires end { end ≤ length frame.now }
    ensures exact { result ≡ indexes_at flags count frame.now at end }
    ensures after { IfOk result (λ x. (x.1 ≤ end) × (at ≤ x.1)) }
    ensures within { IfOk result (λ x. (x.0.0 ≤ x.0.1) × (x.0.1 < count)) }
{
    if flags & SINGLE_INDEX != 0 {
        let (start, after) = index_from(0, count, frame, at, end)?;
        Ok(((start, start), after))
    } else if flags & MULTI_INDEX != 0 {
        let (start, next) = index_from(0, count, frame, at, end)?;
        let (stop, after) = index_from(start, count, frame, next, end)?;
        Ok(((start, stop), after))
    } else {
        Ok(((0, count - 1), at))
    }
}

/// The length of a value.
pub fn value_len(flags: u8, frame: &[u8], at: usize, end: usize) -> Result<(usize, usize), Refusal>
    requires at { at ≤ end }
    requires end { end ≤ length frame.now }
    ensures exact { result ≡ length_at flags frame.now at end }
    ensures after { IfOk result (λ x. (x.1 ≤ end) × (at < x.1)) }
{
    if flags & WIDE_LENGTH != 0 {
        let (len, after) = read_short(frame, at, end, BLOCK_LENGTH)?;
        Ok((usize::from(len), after))
    } else {
        let (len, after) = read_octet(frame, at, end, BLOCK_LENGTH)?;
        Ok((usize::from(len), after))
    }
}

/// A value of so many equal parts, where it is flagged.
#[tactic(auto, unfolding(crate::specs::Reading::value_at))]
pub fn value<'a>(
    flags: u8,
    parts: usize,
    frame: &'a [u8],
    at: usize,
    end: usize,
) -> Result<(Option<&'a [u8]>, usize), Refusal>
    requires parts { 0 < parts }
    requires at { at ≤ end }
    requires end { end ≤ length frame.now }
    ensures exact { Reads (λ x. (option_copied x.0, x.1)) result (value_at flags parts frame.now at end) }
    ensures after { IfOk result (λ x. (x.1 ≤ end) × (at ≤ x.1)) }
{
    if flags & VALUE == 0 {
        return Ok((None, at));
    }
    let (len, start) = value_len(flags, frame, at, end)?;
    if len % parts != 0 {
        return Err(refuse(at, TLV_VALUE));
    }
    if end - start < len {
        return Err(refuse(start, BLOCK_LENGTH));
    }
    Ok((Some(&frame[start..start + len]), start + len))
}

/// How many equal parts a value has: with multivalue one for each covered address.
pub fn parts(multi: bool, first: u8, last: u8) -> usize
    requires { first ≤ last }
    ensures exact { result ≡ part_count multi first last }
    ensures some { 0 < result }
{
    if multi {
        usize::from(last) + 1 - usize::from(first)
    } else {
        1
    }
}
