//! Reading an address block.
ghost use Rattle.std.specs.Prelude.{◌≡◌, slice_range, ◌≤◌, ◌<◌, ◌+◌, ◌-◌, ◌*◌, ◌++◌, length, IfOk, IfErr, Ok, List, ℕ};
ghost use Rattle.mesh_atoms.specs.Reading.{Gives, IfRefused, refuse};
ghost use Rattle.mesh_addr.specs.Grammar.{padded, IsWritable, SpellsBlock, BlockFault};
ghost use Rattle.mesh_addr.specs.Reading.{addrs_at, block_at, mid_of};
ghost use Rattle.mesh_addr.specs.Shown.{shape_of};
ghost use Rattle.mesh_addr.specs.declared.records.RawAddr.{RawAddr};

use crate::fields;
use crate::records::{AddrBlock, RawAddr};
use mesh_atoms::{DecodeFault, Seq};
use std::alloc::Global;

/// What is known of a block before its middle parts are read.
#[derive(Clone, Copy)]
struct Shape<'a> {
    width: u8,
    head: &'a [u8],
    tail: &'a [u8],
    prefix: Option<u8>,
}

/// Puts a piece where the zeros begin.
fn put_octets(octets: &mut [u8; 16], at: usize, piece: &[u8])
    requires { at + length piece.now ≤ 16 }
    ensures { (front : List ℕ) → at ≡ length front → octets.old ≡ padded front
        → octets.new ≡ padded (front ++ piece.now) }
{
    octets[at..at + piece.len()].copy_from_slice(piece);
}

/// Head, middle part and tail of an address, with zeros after them.
fn joined_octets(head: &[u8], mid: &[u8], tail: &[u8]) -> [u8; 16]
    requires { length head.now + (length mid.now + length tail.now) ≤ 16 }
    ensures { result ≡ padded (head.now ++ (mid.now ++ tail.now)) }
{
    let mut octets = [0; 16];
    put_octets(&mut octets, 0, head);
    put_octets(&mut octets, head.len(), mid);
    put_octets(&mut octets, head.len() + mid.len(), tail);
    octets
}

/// Head and tail of an address, with some octets for a middle part of that size.
fn outline(shape: &Shape, size: usize) -> [u8; 16]
    requires { length shape.now.head.now + (size + length shape.now.tail.now) ≤ 16 }
    ensures { (gap : List ℕ) × (length gap ≡ size) × (result ≡ padded (shape.now.head.now ++ (gap ++ shape.now.tail.now))) }
{
    let zeros = [0; 16];
    joined_octets(shape.head, &zeros[..size], shape.tail)
}

/// The octets of an address whose middle part is this one, by those of one with another of that length.
fn with_middle(blank: [u8; 16], at: usize, mid: &[u8]) -> [u8; 16]
    requires { at + length mid.now ≤ 16 }
    ensures { (head gap tail : List ℕ) → at ≡ length head → length gap ≡ length mid.now → blank ≡ padded (head ++ (gap ++ tail))
        → result ≡ padded (head ++ (mid.now ++ tail)) }
{
    let mut octets = blank;
    octets[at..at + mid.len()].copy_from_slice(mid);
    octets
}

/// So many addresses: middle parts from `mids` on, and prefix lengths from `at` on.
fn addresses(
    alloc: Global,
    frame: &[u8],
    shape: &Shape,
    count: u8,
    mids: usize,
    at: usize,
    end: usize,
) -> Result<(Seq<RawAddr>, usize), DecodeFault>
    requires end { end ≤ length frame.now }
    requires at { at ≤ end }
    requires width { shape.now.width ≤ 16 }
    requires fits { length shape.now.head.now + length shape.now.tail.now ≤ shape.now.width }
    requires mids { mids + count * mid_of (shape_of shape.now) ≤ end }
    ensures { Gives (λ x. (x.0, x.1)) result (addrs_at count frame.now (shape_of shape.now) mids at end) }
{
    let mut addrs = Seq::from_vec(Vec::with_capacity(alloc, usize::from(count))?);
    let size = shape.width as usize - (shape.head.len() + shape.tail.len());
    let blank = outline(shape, size);
    let mut mid = mids;
    let mut place = at;
    for _ in 0..count {
        let (prefix, after) = fields::own_prefix(frame, shape.prefix, place, end, shape.width)?;
        let octets = with_middle(blank, shape.head.len(), &frame[mid..mid + size]);
        addrs.push(RawAddr { octets, prefix })?;
        mid += size;
        place = after;
    }
    Ok((addrs, place))
}

/// Field after field.
#[tactic(auto, unfolding(crate::specs::Reading::block_at))]
fn addresses_of_block(
    alloc: Global,
    frame: &[u8],
    at: usize,
    end: usize,
    width: u8,
) -> Result<(Seq<RawAddr>, usize), DecodeFault>
    requires end { end ≤ length frame.now }
    requires width { width ≤ 16 }
    ensures { Gives (λ x. (x.0, x.1)) result (block_at frame.now at end width) }
{
    let zeros = [0; 16];
    let (count, after) = fields::count(frame, at, end)?;
    let (flags, after) = fields::flags(frame, after, end)?;
    let (head, after) = fields::head(frame, flags, after, end, width as usize)?;
    let (tail, mids) = fields::tail(
        frame,
        &zeros,
        flags,
        after,
        end,
        width as usize - head.len(),
    )?;
    let size = width as usize - (head.len() + tail.len());
    let after = fields::after_parts(count, mids, end, size)?;
    let (prefix, after) = fields::common_prefix(frame, flags, after, end, width)?;
    let shape = Shape {
        width,
        head,
        tail,
        prefix,
    };
    addresses(alloc, frame, &shape, count, mids, after, end)
}

/// The addresses of the block from `at` on, and the place after it.
fn read_addresses(
    alloc: Global,
    frame: &[u8],
    at: usize,
    end: usize,
    width: u8,
) -> Result<(Seq<RawAddr>, usize), DecodeFault>
    requires at { at ≤ end }
    requires end { end ≤ length frame.now }
    requires some { 0 < width }
    requires width { width ≤ 16 }
    ensures after { IfOk result (λ x. (at < x.1) × (x.1 ≤ end)) }
    ensures value { IfOk result (λ x. SpellsBlock width x.0 (slice_range frame.now at x.1)) }
    ensures writable { IfOk result (λ x. IsWritable width x.0) }
    ensures only { (addrs : List RawAddr) (text rest : List ℕ) → SpellsBlock width addrs text
        → slice_range frame.now at end ≡ text ++ rest
        → Gives {Y = List RawAddr × ℕ} (λ x. (x.0, x.1)) result (Ok (addrs, at + length text)) }
    ensures refused { IfErr result (IfRefused (λ e. (at ≤ e.place)
        × BlockFault width (slice_range frame.now at end) (e.place - at) e.reason)) }
    ensures first { (place reason : ℕ) → BlockFault width (slice_range frame.now at end) place reason
        → Gives {Y = List RawAddr × ℕ} (λ x. (x.0, x.1)) result (refuse (at + place) reason) }
    ensures exact { Gives (λ x. (x.0, x.1)) result (block_at frame.now at end width) }
{
    addresses_of_block(alloc, frame, at, end, width)
}

/// Reads the address block that begins at `at` and ends at `end` at the latest, with addresses of `width` octets, from 1
/// to 16, and gives the place after it (RFC 5444, section 5.3). A tail of zeros stands for zeros, middle parts of no
/// octets are left out, each prefix is 8 times the width where no prefix flag is set, and reserved flags are ignored.
///
/// A block is refused exactly at its first fault, each middle part and each prefix length being a field: a field that
/// passes `end` (1), no addresses (8), both tail flags or both prefix flags (9), a head length above the width or a tail
/// length above what the head leaves of it (10), a prefix length above 8 times the width (11).
pub fn read_block(
    alloc: Global,
    frame: &[u8],
    at: usize,
    end: usize,
    width: u8,
) -> Result<(AddrBlock, usize), DecodeFault>
    requires at { at < end }
    requires end { end ≤ length frame.now }
    requires some { 0 < width }
    requires width { width ≤ 16 }
    ensures width { IfOk result (λ x. x.0.width ≡ width) }
    ensures after { IfOk result (λ x. (at < x.1) × (x.1 ≤ end)) }
    // What is read is spelled by the octets up to the place after it.
    ensures value { IfOk result (λ x. SpellsBlock width x.0.addrs (slice_range frame.now at x.1)) }
    // It can be written.
    ensures writable { IfOk result (λ x. IsWritable x.0.width x.0.addrs) }
    // What is spelled at the beginning is read.
    ensures only { (addrs : List RawAddr) (text rest : List ℕ) → SpellsBlock width addrs text
        → slice_range frame.now at end ≡ text ++ rest
        → Gives {Y = List RawAddr × ℕ} (λ x. (x.0.addrs, x.1)) result (Ok (addrs, at + length text)) }

    // What is refused has its first fault at that place, for that reason.
    ensures refused { IfErr result (IfRefused (λ e. (at ≤ e.place)
        × BlockFault width (slice_range frame.now at end) (e.place - at) e.reason)) }
    // What has a first fault is refused so.
    ensures first { (place reason : ℕ) → BlockFault width (slice_range frame.now at end) place reason
        → Gives {Y = List RawAddr × ℕ} (λ x. (x.0.addrs, x.1)) result (refuse (at + place) reason) }
    // Which of them it is, as a function of the octets.
    ensures exact { Gives (λ x. (x.0.addrs, x.1)) result (block_at frame.now at end width) }
{
    let (addrs, after) = read_addresses(alloc, frame, at, end, width)?;
    Ok((AddrBlock { width, addrs }, after))
}
