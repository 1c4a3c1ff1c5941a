//! Whether neighbours that are taken cover, and each of them is needed, in one pass over the ways (RFC 7181, section 18.3).
ghost use Rattle.std.specs.Prelude.{◌≡◌, ◌<◌, ◌↔◌, ℕ, IfOk, IsTrue, MatchBool, All, not, ◌&&◌, List, ◌∷◌, length, replicate, slice_set, slice_index_or, false};
ghost use Rattle.mesh_atoms.specs.Relays.{Covers, Needed, HasDistinctIds};
ghost use Rattle.mesh_relay.specs.Ways.{AreWilling, AreWays};
ghost use Rattle.mesh_relay.specs.Taken.{ids_of, reaches};
ghost use Rattle.mesh_relay.specs.declared.ways.Way.{Way};
ghost use Rattle.mesh_relay.specs.Soles.{with_taker, counted, is_within, others_reach, tells, is_fit, AreFit};

use crate::ways::Way;
use mesh_atoms::{Addr4, Near, NeighbourGraph};
use std::alloc::{AllocError, Global};

/// The neighbours that are taken and have a way to an address: nobody, one at a place, or several.
#[derive(Clone, Copy)]
pub enum Takers {
    Nobody,
    One(usize),
    Several,
}

/// The takers of an address and the one at that place.
fn with_taker(takers: Takers, place: usize) -> Takers
    ensures { result ≡ with_taker takers place }
{
    match takers {
        Takers::Nobody => Takers::One(place),
        Takers::One(first) => {
            if first == place {
                takers
            } else {
                Takers::Several
            }
        }
        Takers::Several => takers,
    }
}

/// The takers of an address and the way's neighbour, where that one is taken.
fn counted(takers: Takers, place: usize, taken: &[bool]) -> Takers
    requires { place < length taken.now }
    ensures { result ≡ counted takers place taken.now }
{
    if taken[place] {
        with_taker(takers, place)
    } else {
        takers
    }
}

/// What a pass over the ways has come to: the address it is at, the takers of that one so far, and whether each address before is
/// reached.
#[derive(Clone, Copy)]
pub struct Pass {
    pub addr: Addr4,
    pub takers: Takers,
    pub reached: bool,
}

/// Ends an address: whether it and those before are reached. Notes the neighbour that alone reaches it.
fn note_sole(takers: Takers, reached: bool, soles: &mut [bool]) -> bool
    requires { is_within takers (length soles.old) }
    ensures length { length soles.new ≡ length soles.old }
    ensures each { (k : ℕ) → (result && not (slice_index_or soles.new k false)) ≡ ((reached && not (slice_index_or soles.old k false)) && others_reach takers k) }
{
    match takers {
        Takers::Nobody => false,
        Takers::One(place) => {
            soles[place] = true;
            reached
        }
        Takers::Several => reached,
    }
}

/// The pass after one more way.
fn go_on(pass: Pass, way: Way, taken: &[bool], soles: &mut [bool]) -> Pass
    requires place { way.place < length taken.now }
    requires length { length soles.old ≡ length taken.now }
    requires takers { is_within pass.takers (length taken.now) }
    ensures length { length soles.new ≡ length taken.now }
    ensures takers { is_within result.takers (length taken.now) }
    ensures each { (k : ℕ) (rest : List Way) → tells taken.now soles.new result k rest ≡ tells taken.now soles.old pass k (way ∷ rest) }
{
    if way.addr.0 == pass.addr.0 {
        Pass {
            addr: pass.addr,
            takers: counted(pass.takers, way.place, taken),
            reached: pass.reached,
        }
    } else {
        let reached = note_sole(pass.takers, pass.reached, soles);
        Pass {
            addr: way.addr,
            takers: counted(Takers::Nobody, way.place, taken),
            reached,
        }
    }
}

/// Goes on to the end of the ways. Whether each address is reached. Notes each neighbour that alone reaches an address.
fn note_soles_on(begun: Pass, ways: &[Way], taken: &[bool], soles: &mut [bool]) -> bool
    requires places { All (λ w. w.place < length taken.now) ways.now }
    requires length { length soles.old ≡ length taken.now }
    requires takers { is_within begun.takers (length taken.now) }
    ensures length { length soles.new ≡ length taken.now }
    ensures each { (k : ℕ) → (result && not (slice_index_or soles.new k false)) ≡ tells taken.now soles.old begun k ways.now }
{
    let mut pass = begun;
    for way in ways {
        pass = go_on(pass, *way, taken, soles);
    }
    note_sole(pass.takers, pass.reached, soles)
}

/// Whether each address is reached. Notes each neighbour that alone reaches an address.
fn note_soles(ways: &[Way], taken: &[bool], soles: &mut [bool]) -> bool
    requires places { All (λ w. w.place < length taken.now) ways.now }
    requires length { length soles.old ≡ length taken.now }
    ensures length { length soles.new ≡ length taken.now }
    ensures each { (k : ℕ) → (result && not (slice_index_or soles.new k false)) ≡ (not (slice_index_or soles.old k false) && reaches ways.now (slice_set taken.now k false)) }
{
    match ways {
        [] => true,
        [way, rest @ ..] => {
            let begun = Pass {
                addr: way.addr,
                takers: counted(Takers::Nobody, way.place, taken),
                reached: true,
            };
            note_soles_on(begun, rest, taken, soles)
        }
    }
}

/// Whether the neighbour is rightly taken or rightly left out, as far as it alone tells.
fn is_fit(near: Near, taken: bool, sole: bool) -> bool
    ensures { result ≡ is_fit near taken sole }
{
    if taken {
        near.will >= 15 || sole
    } else {
        near.will != 15
    }
}

/// Whether each neighbour is rightly taken or rightly left out.
fn are_fit(willing: &[Near], taken: &[bool], soles: &[bool]) -> bool
    requires taken { length taken.now ≡ length willing.now }
    requires soles { length soles.now ≡ length willing.now }
    ensures { MatchBool result (AreFit willing.now taken.now soles.now) (AreFit willing.now taken.now soles.now → ⊥) }
{
    for (place, near) in willing.iter().enumerate() {
        if !is_fit(*near, taken[place], soles[place]) {
            return false;
        }
    }
    true
}

/// Whether, by the notes of a pass, the neighbours that are taken cover, and each of them is needed.
fn are_chosen(
    graph: &NeighbourGraph,
    willing: &[Near],
    ways: &[Way],
    taken: &[bool],
    soles: &[bool],
    reached: bool,
) -> bool
    requires distinct { HasDistinctIds graph.now }
    requires willing { AreWilling graph.now willing.now }
    requires ways { AreWays graph.now willing.now ways.now }
    requires taken { length taken.now ≡ length willing.now }
    requires soles { length soles.now ≡ length willing.now }
    requires noted { (k : ℕ) → (reached && not (slice_index_or soles.now k false)) ≡ reaches ways.now (slice_set taken.now k false) }
    ensures { IsTrue result ↔ (Covers graph.now (ids_of willing.now taken.now) × Needed graph.now (ids_of willing.now taken.now)) }
{
    if reached {
        are_fit(willing, taken, soles)
    } else {
        false
    }
}

/// The same, by a pass whose notes are made in flags that are all false.
fn are_chosen_by_pass(
    graph: &NeighbourGraph,
    willing: &[Near],
    ways: &[Way],
    taken: &[bool],
    soles: &mut [bool],
) -> bool
    requires distinct { HasDistinctIds graph.now }
    requires willing { AreWilling graph.now willing.now }
    requires ways { AreWays graph.now willing.now ways.now }
    requires taken { length taken.now ≡ length willing.now }
    requires soles { soles.old ≡ replicate (length taken.now) false }
    ensures { IsTrue result ↔ (Covers graph.now (ids_of willing.now taken.now) × Needed graph.now (ids_of willing.now taken.now)) }
{
    let reached = note_soles(ways, taken, soles);
    are_chosen(graph, willing, ways, taken, soles, reached)
}

fn no_soles(alloc: Global, taken: &[bool]) -> Result<Vec<bool>, AllocError>
    ensures { IfOk result (λ soles. soles.items ≡ replicate (length taken.now) false) }
{
    vec![in alloc; false; taken.len()]
}

/// Whether the neighbours that are taken cover, and each of them is needed.
pub fn is_choice(
    alloc: Global,
    graph: &NeighbourGraph,
    willing: &[Near],
    ways: &[Way],
    taken: &[bool],
) -> Result<bool, AllocError>
    requires distinct { HasDistinctIds graph.now }
    requires willing { AreWilling graph.now willing.now }
    requires ways { AreWays graph.now willing.now ways.now }
    requires length { length taken.now ≡ length willing.now }
    ensures { IfOk result (λ b. IsTrue b ↔ (Covers graph.now (ids_of willing.now taken.now) × Needed graph.now (ids_of willing.now taken.now))) }
{
    let mut soles = no_soles(alloc, taken)?;
    Ok(are_chosen_by_pass(graph, willing, ways, taken, &mut soles))
}
