//! The choices of a spelling: head, tail and the form of the prefix lengths (RFC 5444, section 5.3). The limits of head
//! and tail are found first. Then each head within them is tried with three tails, since longer tails of one form are
//! cheaper.
ghost use Rattle.std.specs.Prelude.{◌≡◌, ◌≤◌, ◌<◌, ◌+◌, length, take};
ghost use Rattle.mesh_addr.specs.Spelling as spelling;
ghost use Rattle.mesh_addr.specs.Spelling.{tail_len, last_octets, ShareHead, ShareTail, EndsInZeros, IsLimit, AreLimits, IsWithinLimits, IsBestOf, HasHead};

use crate::records::RawAddr;

/// How a tail is written, and its length in octets.
#[derive(Clone, Copy)]
pub enum TailForm {
    Absent,
    Zeros(usize),
    Full(usize),
}

/// How prefix lengths are written: not at all where each is 8 times the width, one for all, or one for each.
#[derive(Clone, Copy)]
pub enum PrefixForm {
    Absent,
    One,
    Each,
}

/// The length of a head, and the tail.
#[derive(Clone, Copy)]
pub struct Choice {
    pub head: usize,
    pub tail: TailForm,
}

/// How many octets all addresses begin with and end in, and how many of the last are zeros.
#[derive(Clone, Copy)]
pub struct Limits {
    pub head: usize,
    pub tail: usize,
    pub zeros: usize,
}

impl TailForm {
    /// How many octets of an address are in the tail.
    pub fn len(self) -> usize
        ensures { result ≡ tail_len self }
    {
        match self {
            TailForm::Absent => 0,
            TailForm::Zeros(len) => len,
            TailForm::Full(len) => len,
        }
    }
}

/// How many octets, up to `most`, both begin with.
fn shared_head(a: &RawAddr, b: &RawAddr, most: usize) -> usize
    requires { most ≤ 16 }
    ensures { IsLimit most (λ n. take n a.now.octets ≡ take n b.now.octets) result }
{
    let mut len = most;
    while len > 0 && a.octets[..len] != b.octets[..len] {
        len -= 1;
    }
    len
}

/// How many octets, up to `most`, both end in.
fn shared_tail(a: &RawAddr, b: &RawAddr, width: usize, most: usize) -> usize
    requires most { most ≤ width }
    requires width { width ≤ 16 }
    ensures { IsLimit most (λ n. last_octets width n a.now ≡ last_octets width n b.now) result }
{
    let mut len = most;
    while len > 0 && a.octets[width - len..width] != b.octets[width - len..width] {
        len -= 1;
    }
    len
}

/// How many of the last octets, up to `most`, are zeros.
fn zero_tail(first: &RawAddr, width: usize, most: usize) -> usize
    requires most { most ≤ width }
    requires width { width ≤ 16 }
    ensures { IsLimit most (EndsInZeros width first.now) result }
{
    let zeros = [0; 16];
    let mut len = most;
    while len > 0 && first.octets[width - len..width] != zeros[..len] {
        len -= 1;
    }
    len
}

/// How many octets all addresses begin with.
fn common_head(first: &RawAddr, addrs: &[RawAddr], width: usize) -> usize
    requires { width ≤ 16 }
    ensures { IsLimit width (ShareHead first.now addrs.now) result }
{
    match addrs {
        [] => width,
        [a, rest @ ..] => shared_head(first, a, common_head(first, rest, width)),
    }
}

/// How many octets all addresses end in.
fn common_tail(first: &RawAddr, addrs: &[RawAddr], width: usize) -> usize
    requires { width ≤ 16 }
    ensures { IsLimit width (ShareTail width first.now addrs.now) result }
{
    match addrs {
        [] => width,
        [a, rest @ ..] => shared_tail(first, a, width, common_tail(first, rest, width)),
    }
}

/// How far head, tail and zeros of the addresses can reach.
pub fn limits_of(width: usize, first: &RawAddr, addrs: &[RawAddr]) -> Limits
    requires { width ≤ 16 }
    ensures { AreLimits width first.now addrs.now result }
{
    let tail = common_tail(first, addrs, width);
    Limits {
        head: common_head(first, addrs, width),
        tail,
        zeros: zero_tail(first, width, tail),
    }
}

/// How many octets head, tail and middle parts take.
#[tactic(auto, unfolding(crate::specs::Spelling::cost))]
fn cost(width: usize, count: usize, choice: Choice) -> usize
    requires width { width ≤ 16 }
    requires count { count ≤ 255 }
    requires fits { choice.head + tail_len choice.tail ≤ width }
    ensures { result ≡ spelling.cost width count choice }
{
    let head = if choice.head == 0 { 0 } else { 1 + choice.head };
    let tail = match choice.tail {
        TailForm::Absent => 0,
        TailForm::Zeros(_) => 1,
        TailForm::Full(len) => 1 + len,
    };
    head + tail + count * (width - (choice.head + choice.tail.len()))
}

/// The cheaper one, or the first of two that cost the same.
fn cheaper(width: usize, count: usize, a: Choice, b: Choice) -> Choice
    requires width { width ≤ 16 }
    requires count { count ≤ 255 }
    requires fits_a { a.head + tail_len a.tail ≤ width }
    requires fits_b { b.head + tail_len b.tail ≤ width }
    ensures { result ≡ spelling.cheaper width count a b }
{
    if cost(width, count, b) < cost(width, count, a) {
        b
    } else {
        a
    }
}

/// The best choice that has this head.
fn best_with_head(width: usize, count: usize, limits: Limits, head: usize) -> Choice
    requires width { width ≤ 16 }
    requires some { 0 < count }
    requires count { count ≤ 255 }
    requires head { head ≤ limits.head }
    requires within { head ≤ width }
    ensures { IsBestOf width count (HasHead width limits head) result }
{
    let room = width - head;
    let plain = Choice {
        head,
        tail: TailForm::Absent,
    };
    let zeros = Choice {
        head,
        tail: TailForm::Zeros(usize::min(limits.zeros, room)),
    };
    let full = Choice {
        head,
        tail: TailForm::Full(usize::min(limits.tail, room)),
    };
    cheaper(width, count, cheaper(width, count, plain, zeros), full)
}

/// The best choice within the limits: of the cheapest ones the first in the order of preference.
pub fn best(width: usize, count: usize, limits: Limits) -> Choice
    requires width { width ≤ 16 }
    requires some { 0 < count }
    requires count { count ≤ 255 }
    requires head { limits.head ≤ width }
    ensures { IsBestOf width count (IsWithinLimits width limits) result }
{
    let mut best = best_with_head(width, count, limits, 0);
    for head in 1..limits.head + 1 {
        best = cheaper(
            width,
            count,
            best,
            best_with_head(width, count, limits, head),
        );
    }
    best
}

/// Have all that prefix length?
fn have_prefix(prefix: u8, addrs: &[RawAddr]) -> bool
    ensures { result ≡ spelling.have_prefix prefix addrs.now }
{
    match addrs {
        [] => true,
        [a, rest @ ..] => a.prefix == prefix && have_prefix(prefix, rest),
    }
}

/// The shortest form of the prefix lengths.
#[tactic(auto, unfolding(crate::specs::Spelling::form_of))]
pub fn form_of(width: u8, first: &RawAddr, addrs: &[RawAddr]) -> PrefixForm
    requires { width ≤ 16 }
    ensures { result ≡ spelling.form_of width first.now addrs.now }
{
    if have_prefix(8 * width, addrs) {
        PrefixForm::Absent
    } else if have_prefix(first.prefix, addrs) {
        PrefixForm::One
    } else {
        PrefixForm::Each
    }
}
