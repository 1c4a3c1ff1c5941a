//! The fields of an address block, in the order in which they stand.
ghost use Rattle.std.specs.Prelude.{◌≡◌, ◌≤◌, ◌<◌, ◌+◌, ◌*◌, length, replicate, IfOk};
ghost use Rattle.mesh_atoms.specs.Reading.{Reads};
ghost use Rattle.mesh_addr.specs.Reading.{clashes, count_at, flags_at, number_at, counted_at, head_at, tail_at, parts_end, prefix_at, common_at, own_at};

use crate::flags::{EACH_PREFIX, FULL_TAIL, HEAD, ONE_PREFIX, ZERO_TAIL};
use mesh_atoms::reason::{ADDR_CUT, ADDR_FLAGS, NO_ADDRESSES, PREFIX_LENGTH, SHORT};
use mesh_atoms::{Refusal, read_octet};

/// The number of addresses.
#[tactic(auto, unfolding(crate::specs::Reading::count_at))]
pub fn count(frame: &[u8], at: usize, end: usize) -> Result<(u8, usize), Refusal>
    requires { end ≤ length frame.now }
    ensures exact { result ≡ count_at frame.now at end }
    ensures after { IfOk result (λ x. (x.1 ≤ end) × (at < x.1)) }
{
    let (count, after) = read_octet(frame, at, end, SHORT)?;
    if count == 0 {
        Err(Refusal {
            place: at,
            reason: NO_ADDRESSES,
        })
    } else {
        Ok((count, after))
    }
}

/// Both tail flags, or both prefix flags?
fn has_clash(flags: u8) -> bool
    ensures { result ≡ clashes flags }
{
    flags & FULL_TAIL != 0 && flags & ZERO_TAIL != 0
        || flags & ONE_PREFIX != 0 && flags & EACH_PREFIX != 0
}

/// The flags. Reserved ones are ignored.
#[tactic(auto, unfolding(crate::specs::Reading::flags_at))]
pub fn flags(frame: &[u8], at: usize, end: usize) -> Result<(u8, usize), Refusal>
    requires { end ≤ length frame.now }
    ensures exact { result ≡ flags_at frame.now at end }
    ensures after { IfOk result (λ x. (x.1 ≤ end) × (at < x.1)) }
{
    let (flags, after) = read_octet(frame, at, end, SHORT)?;
    if has_clash(flags) {
        Err(Refusal {
            place: at,
            reason: ADDR_FLAGS,
        })
    } else {
        Ok((flags, after))
    }
}

/// A number up to `room`.
#[tactic(auto, unfolding(crate::specs::Reading::number_at))]
fn number(frame: &[u8], at: usize, end: usize, room: usize) -> Result<(usize, usize), Refusal>
    requires { end ≤ length frame.now }
    ensures exact { result ≡ number_at frame.now at end room }
    ensures after { IfOk result (λ x. (x.1 ≤ end) × (x.0 ≤ room) × (at < x.1)) }
{
    let (len, after) = read_octet(frame, at, end, SHORT)?;
    let len = len as usize;
    if room < len {
        Err(Refusal {
            place: at,
            reason: ADDR_CUT,
        })
    } else {
        Ok((len, after))
    }
}

/// As many octets as the number before them tells, up to `room`.
#[tactic(auto, unfolding(crate::specs::Reading::counted_at))]
fn counted_octets<'a>(
    frame: &'a [u8],
    at: usize,
    end: usize,
    room: usize,
) -> Result<(&'a [u8], usize), Refusal>
    requires { end ≤ length frame.now }
    ensures exact { Reads (λ x. (x.0.now, x.1)) result (counted_at frame.now at end room) }
    ensures after { IfOk result (λ x. (x.1 ≤ end) × (length x.0.now ≤ room)) }
{
    let (len, after) = number(frame, at, end, room)?;
    if end - after < len {
        return Err(Refusal {
            place: after,
            reason: SHORT,
        });
    }
    let piece = &frame[after..after + len];
    Ok((piece, after + len))
}

/// The head, empty where there is none.
#[tactic(auto, unfolding(crate::specs::Reading::head_at))]
pub fn head<'a>(
    frame: &'a [u8],
    flags: u8,
    at: usize,
    end: usize,
    width: usize,
) -> Result<(&'a [u8], usize), Refusal>
    requires end { end ≤ length frame.now }
    requires at { at ≤ end }
    ensures exact { Reads (λ x. (x.0.now, x.1)) result (head_at frame.now flags at end width) }
    ensures after { IfOk result (λ x. (x.1 ≤ end) × (length x.0.now ≤ width)) }
{
    if flags & HEAD != 0 {
        let (head, after) = counted_octets(frame, at, end, width)?;
        Ok((head, after))
    } else {
        Ok((&frame[..0], at))
    }
}

/// The tail, empty where there is none. A tail of zeros is taken from `zeros`.
#[tactic(auto, unfolding(crate::specs::Reading::tail_at))]
pub fn tail<'a>(
    frame: &'a [u8],
    zeros: &'a [u8],
    flags: u8,
    at: usize,
    end: usize,
    room: usize,
) -> Result<(&'a [u8], usize), Refusal>
    requires end { end ≤ length frame.now }
    requires at { at ≤ end }
    requires zeros { zeros.now ≡ replicate 16 0 }
    requires room { room ≤ 16 }
    ensures exact { Reads (λ x. (x.0.now, x.1)) result (tail_at frame.now flags at end room) }
    ensures after { IfOk result (λ x. (x.1 ≤ end) × (length x.0.now ≤ room)) }
{
    if flags & FULL_TAIL != 0 {
        let (tail, after) = counted_octets(frame, at, end, room)?;
        return Ok((tail, after));
    }
    if flags & ZERO_TAIL != 0 {
        let (len, after) = number(frame, at, end, room)?;
        return Ok((&zeros[..len], after));
    }
    Ok((&zeros[..0], at))
}

/// The place after so many middle parts of that size.
pub fn after_parts(count: u8, at: usize, end: usize, size: usize) -> Result<usize, Refusal>
    requires { at ≤ end }
    ensures exact { result ≡ parts_end count at end size }
    ensures after { IfOk result (λ after. (after ≡ at + count * size) × (after ≤ end)) }
{
    let mut place = at;
    for _ in 0..count {
        if end - place < size {
            return Err(Refusal {
                place,
                reason: SHORT,
            });
        }
        place += size;
    }
    Ok(place)
}

/// A prefix length, up to 8 times the width.
#[tactic(auto, unfolding(crate::specs::Reading::prefix_at))]
fn prefix_length(frame: &[u8], at: usize, end: usize, width: u8) -> Result<(u8, usize), Refusal>
    requires end { end ≤ length frame.now }
    requires width { width ≤ 16 }
    ensures exact { result ≡ prefix_at frame.now at end width }
    ensures after { IfOk result (λ x. (x.1 ≤ end) × (at < x.1)) }
{
    let (prefix, after) = read_octet(frame, at, end, SHORT)?;
    if 8 * width < prefix {
        Err(Refusal {
            place: at,
            reason: PREFIX_LENGTH,
        })
    } else {
        Ok((prefix, after))
    }
}

/// The prefix length of all addresses; `None` where each has its own.
#[tactic(auto, unfolding(crate::specs::Reading::common_at))]
pub fn common_prefix(
    frame: &[u8],
    flags: u8,
    at: usize,
    end: usize,
    width: u8,
) -> Result<(Option<u8>, usize), Refusal>
    requires end { end ≤ length frame.now }
    requires at { at ≤ end }
    requires width { width ≤ 16 }
    ensures exact { result ≡ common_at frame.now flags at end width }
    ensures after { IfOk result (λ x. x.1 ≤ end) }
{
    if flags & ONE_PREFIX != 0 {
        let (prefix, after) = prefix_length(frame, at, end, width)?;
        return Ok((Some(prefix), after));
    }
    if flags & EACH_PREFIX != 0 {
        return Ok((None, at));
    }
    Ok((Some(8 * width), at))
}

/// The prefix length of the next address: that of all, or its own.
pub fn own_prefix(
    frame: &[u8],
    prefix: Option<u8>,
    at: usize,
    end: usize,
    width: u8,
) -> Result<(u8, usize), Refusal>
    requires end { end ≤ length frame.now }
    requires at { at ≤ end }
    requires width { width ≤ 16 }
    ensures exact { result ≡ own_at frame.now prefix at end width }
    ensures after { IfOk result (λ x. x.1 ≤ end) }
{
    match prefix {
        Some(prefix) => Ok((prefix, at)),
        None => prefix_length(frame, at, end, width),
    }
}
