//! The radio graph of a scenario: which interfaces hear and admit each other, and which routers are joined (RFC 6130, section 14).
ghost use Rattle.std.specs.Prelude.{IfOk, Contains, ◌≡◌, ◌<◌, length, map, filter};
ghost use Rattle.std.specs.Option.{option_copied};
ghost use Rattle.std.specs.List.{range_with_len};
ghost use Rattle.mesh_atoms.specs.declared.graphs.Pair.{Pair};
ghost use Rattle.mesh_atoms.specs.Radio.{IsRadioGraph};
ghost use Rattle.mesh_paths.specs.Parts.{pair_of, face_of, can_accept, is_admitted, is_arc_back, is_admitted_back, is_met, is_joined, IsInside, IsLevel, IsParts, Lowers, Goes};

use mesh_atoms::{
    Interface, Pair, RadioArc, RadioGraph, RouterSettings, Scenario, Seq, quality_at,
};
use std::alloc::{AllocError, Global};

/// The radio graph of a scenario: one pair for each direction of two joined interfaces, and for each router the least
/// number among its own and those of the routers that chains of joined interfaces join it with. Interfaces are joined by
/// arcs both ways whose quality at the scenario's end is accepted where they lead to (RFC 6130, section 14). Takes time in
/// proportion to arcs times arcs and routers together. Refuses only where an allocation fails.
pub fn radio_graph(alloc: Global, scenario: &Scenario) -> Result<RadioGraph, AllocError>
    ensures graph { IfOk result (λ graph. IsRadioGraph scenario.now graph) }
{
    let routers = scenario.routers.as_slice();
    let pairs = pairs_of(alloc, routers, scenario.end, scenario.arcs.as_slice())?;
    let parts = parts_of(alloc, routers.len(), pairs.as_slice())?;
    Ok(RadioGraph {
        pairs: Seq::from_vec(pairs),
        parts: Seq::from_vec(parts),
    })
}

// One pair for each admitted arc between whose interfaces another leads back.
fn pairs_of(
    alloc: Global,
    routers: &[RouterSettings],
    end: u64,
    arcs: &[RadioArc],
) -> Result<Vec<Pair>, AllocError>
    ensures { IfOk result (λ pairs. pairs.items ≡ map pair_of (filter (is_joined routers.now end arcs.now) arcs.now)) }
{
    let mut pairs = Vec::new(alloc);
    for arc in arcs {
        if is_joined(routers, end, arcs, arc) {
            pairs.push(pair_of(arc))?;
        }
    }
    Ok(pairs)
}

// The interfaces that the arc joins, and its metric.
fn pair_of(arc: &RadioArc) -> Pair
    ensures { result ≡ pair_of arc.now }
{
    Pair {
        from: arc.from,
        from_iface: arc.from_iface,
        to: arc.to,
        to_iface: arc.to_iface,
        metric: arc.metric,
    }
}

// Whether the arc joins its interfaces: it and one that leads back are admitted.
fn is_joined(routers: &[RouterSettings], end: u64, arcs: &[RadioArc], arc: &RadioArc) -> bool
    ensures { result ≡ is_joined routers.now end arcs.now arc.now }
{
    is_admitted(routers, end, arc) && is_met(routers, end, arcs, arc)
}

// Whether what the arc brings is admitted where it leads to.
fn is_admitted(routers: &[RouterSettings], end: u64, arc: &RadioArc) -> bool
    ensures { result ≡ is_admitted routers.now end arc.now }
{
    can_accept(
        end,
        face_of(routers, arc.to, arc.to_iface),
        face_of(routers, arc.from, arc.from_iface),
    )
}

// The interface of a router, both numbered from 0, where there is one.
fn face_of(routers: &[RouterSettings], router: usize, iface: usize) -> Option<&Interface>
    ensures { option_copied result ≡ face_of routers.now router iface }
{
    match routers.get(router) {
        Some(settings) => settings.interfaces.get(iface),
        None => None,
    }
}

// Whether the first interface accepts the quality of what the second sends, at that moment.
fn can_accept(end: u64, to: Option<&Interface>, from: Option<&Interface>) -> bool
    ensures { result ≡ can_accept end (option_copied to.entry) (option_copied from.entry) }
{
    match (to, from) {
        (Some(to), Some(from)) => {
            to.admit.accept <= quality_at(&to.admit, from.addrs.as_slice(), end)
        }
        _ => false,
    }
}

// Whether some admitted arc leads back between the interfaces of this.
fn is_met(routers: &[RouterSettings], end: u64, arcs: &[RadioArc], arc: &RadioArc) -> bool
    ensures { result ≡ is_met routers.now end arcs.now arc.now }
{
    for back in arcs {
        if is_admitted_back(routers, end, arc, back) {
            return true;
        }
    }
    false
}

// Whether the second arc leads back between the interfaces of the first, and is admitted.
fn is_admitted_back(routers: &[RouterSettings], end: u64, arc: &RadioArc, back: &RadioArc) -> bool
    ensures { result ≡ is_admitted_back routers.now end arc.now back.now }
{
    is_arc_back(arc, back) && is_admitted(routers, end, back)
}

// Whether the second arc leads back between the interfaces of the first.
fn is_arc_back(arc: &RadioArc, back: &RadioArc) -> bool
    ensures { result ≡ is_arc_back arc.now back.now }
{
    back.from == arc.to
        && back.from_iface == arc.to_iface
        && back.to == arc.from
        && back.to_iface == arc.from_iface
}

// For each of so many routers a number that a chain of pairs leads from, none of them lesser than another along a pair.
fn parts_of(alloc: Global, count: usize, pairs: &[Pair]) -> Result<Vec<usize>, AllocError>
    requires inside { (pair : Pair) → Contains pairs.now pair → IsInside count pair }
    ensures count { IfOk result (λ parts. length parts.items ≡ count) }
    ensures parts { IfOk result (λ parts. IsParts pairs.now parts.items) }
    ensures level { IfOk result (λ parts. (pair : Pair) → Contains pairs.now pair → IsLevel parts.items pair) }
{
    let mut parts = numbers(alloc, count)?;
    level_all(&mut parts, pairs);
    Ok(parts)
}

// The numbers below this, in order.
fn numbers(alloc: Global, count: usize) -> Result<Vec<usize>, AllocError>
    ensures { IfOk result (λ numbers. numbers.items ≡ range_with_len 0 count) }
{
    (0..count).collect(alloc)
}

// Goes round over the pairs until no part gets lower.
fn level_all(parts: &mut [usize], pairs: &[Pair])
    requires inside { (pair : Pair) → Contains pairs.now pair → IsInside (length parts.old) pair }
    requires parts { IsParts pairs.now parts.old }
    ensures parts { IsParts pairs.now parts.new }
    ensures level { (pair : Pair) → Contains pairs.now pair → IsLevel parts.new pair }
{
    'rounds: loop {
        if !go_round(parts, pairs) {
            return;
        }
    }
}

// Tries each pair once, and says whether some part got lower.
fn go_round(parts: &mut [usize], pairs: &[Pair]) -> bool
    requires inside { (pair : Pair) → Contains pairs.now pair → IsInside (length parts.old) pair }
    requires parts { IsParts pairs.now parts.old }
    ensures parts { IsParts pairs.now parts.new }
    ensures gone { Goes result parts.old pairs.now (length pairs.now) parts.new }
{
    let mut changed = false;
    for pair in pairs {
        if lower(parts, pair) {
            changed = true;
        }
    }
    changed
}

// Gives the second router of the pair the part of the first, if that is lesser, and says whether it did.
fn lower(parts: &mut [usize], pair: &Pair) -> bool
    requires inside { IsInside (length parts.old) pair.now }
    ensures { Lowers result parts.old pair.now parts.new }
{
    let part = parts[pair.from];
    if parts[pair.to] <= part {
        return false;
    }
    parts[pair.to] = part;
    true
}
