//! The pairs of routers that are joined in a made scenario.
ghost use Rattle.std.specs.Prelude.{◌≡◌, ◌++◌, ◌≤◌, ◌<◌, IfOk, OnOk};
ghost use Rattle.std.specs.List.{list_any};
ghost use Rattle.mesh_atoms.specs.Settings.{IsCount};
ghost use Rattle.mesh_emulate.specs.Making.Pairs.{pair, pair_if, grid_pairs_of, grid_pairs, IsGridWidth, ring_pairs, tree_pairs, same_pair, joined_with, random_pairs, ArePairs};

use crate::making::kind::Kind;
use crate::making::words::word_below;
use mesh_atoms::Seq;
use std::alloc::{AllocError, Global};

/// Two routers by their numbers, the lower one first.
#[derive(Clone, Copy)]
pub struct RouterPair {
    pub low: usize,
    pub high: usize,
}

// Puts a pair where the test holds.
fn put_if(
    pairs: &mut Seq<RouterPair>,
    test: bool,
    low: usize,
    high: usize,
) -> Result<(), AllocError>
    ensures { OnOk result (pairs.new ≡ pairs.old ++ pair_if test (pair low high)) }
{
    if test {
        pairs.push(RouterPair { low, high })?;
    }
    Ok(())
}

// How long the rows of so many routers are.
fn row_of(routers: usize) -> usize
    requires { routers ≤ 64 }
    ensures is { IsGridWidth routers result }
    ensures few { result ≤ 8 }
{
    for row in 0..8 {
        if routers <= row * row {
            return row;
        }
    }
    8
}

// Puts the pairs of one router of a grid with the next one and with the one below it.
fn put_grid(
    pairs: &mut Seq<RouterPair>,
    row: usize,
    routers: usize,
    i: usize,
) -> Result<(), AllocError>
    requires row { 0 < row }
    requires row_fits { row ≤ 64 }
    requires few { routers ≤ 64 }
    requires within { i < routers }
    ensures { OnOk result (pairs.new ≡ pairs.old ++ grid_pairs_of row routers i) }
{
    put_if(pairs, i + 1 < routers && (i + 1) % row != 0, i, i + 1)?;
    put_if(pairs, i + row < routers, i, i + row)
}

fn grid_pairs(alloc: Global, row: usize, routers: usize) -> Result<Seq<RouterPair>, AllocError>
    requires row { 0 < row }
    requires row_fits { row ≤ 64 }
    requires few { routers ≤ 64 }
    ensures { IfOk result (λ pairs. pairs ≡ grid_pairs row routers) }
{
    let mut pairs = Seq::new(alloc);
    for i in 0..routers {
        put_grid(&mut pairs, row, routers, i)?;
    }
    Ok(pairs)
}

fn ring_pairs(alloc: Global, routers: usize) -> Result<Seq<RouterPair>, AllocError>
    requires { IsCount 2 64 routers }
    ensures { IfOk result (λ pairs. pairs ≡ ring_pairs routers) }
{
    let mut pairs = Seq::new(alloc);
    for i in 0..routers - 1 {
        pairs.push(RouterPair {
            low: i,
            high: i + 1,
        })?;
    }
    put_if(&mut pairs, 2 < routers, 0, routers - 1)?;
    Ok(pairs)
}

fn tree_pairs(alloc: Global, routers: usize, seed: u64) -> Result<Seq<RouterPair>, AllocError>
    requires { IsCount 2 64 routers }
    ensures { IfOk result (λ pairs. pairs ≡ tree_pairs seed routers) }
{
    let mut pairs = Seq::new(alloc);
    for i in 0..routers - 1 {
        pairs.push(RouterPair {
            low: word_below(seed, i, i + 1),
            high: i + 1,
        })?;
    }
    Ok(pairs)
}

// Whether two routers are joined.
fn are_joined(pairs: &[RouterPair], pair: RouterPair) -> bool
    ensures { result ≡ list_any (same_pair pair) pairs.now }
{
    pairs
        .iter()
        .any(|other| pair.low == other.low && pair.high == other.high)
}

// Joins two routers, where they differ and aren't joined yet.
fn join(pairs: &mut Seq<RouterPair>, a: usize, b: usize) -> Result<(), AllocError>
    ensures { OnOk result (pairs.new ≡ joined_with pairs.old a b) }
{
    let (low, high) = if a < b { (a, b) } else { (b, a) };
    let free = a != b && !are_joined(pairs.as_slice(), RouterPair { low, high });
    put_if(pairs, free, low, high)
}

fn random_pairs(alloc: Global, routers: usize, seed: u64) -> Result<Seq<RouterPair>, AllocError>
    requires { IsCount 2 64 routers }
    ensures { IfOk result (λ pairs. pairs ≡ random_pairs seed routers) }
{
    let mut pairs = tree_pairs(alloc, routers, seed)?;
    for times in 0..routers {
        let place = routers - 1 + 2 * times;
        let a = word_below(seed, place, routers);
        let b = word_below(seed, place + 1, routers);
        join(&mut pairs, a, b)?;
    }
    Ok(pairs)
}

/// The pairs of a made scenario.
pub fn pairs_of(
    alloc: Global,
    kind: Kind,
    routers: usize,
    seed: u64,
) -> Result<Seq<RouterPair>, AllocError>
    requires { IsCount 2 64 routers }
    ensures { IfOk result (ArePairs kind routers seed) }
{
    match kind {
        Kind::Grid => grid_pairs(alloc, row_of(routers), routers),
        Kind::Ring => ring_pairs(alloc, routers),
        Kind::Random => random_pairs(alloc, routers, seed),
    }
}
