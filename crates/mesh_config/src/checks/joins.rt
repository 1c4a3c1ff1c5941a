//! The arcs, whose ends are looked up by name.
ghost use Rattle.std.specs.Prelude.{◌≡◌, [], length, map, position, IfOk};
ghost use Rattle.std.specs.List.{list_any};
ghost use Rattle.mesh_atoms.specs.Settings.{name_eq, ends_eq};
ghost use Rattle.mesh_config.specs.Keys.Faults.{GivesSetting};
ghost use Rattle.mesh_config.specs.Checks.Checks.{find_place, known_place, ends, joined, joins};
ghost use Rattle.mesh_config.specs.Checks.Compared.{stated_identifiers, arc_places, ends_of, stated_place};
ghost use Rattle.mesh_config.specs.Stated.Scenario.{stated_arc_fields};
ghost use Rattle.mesh_config.specs.Checks.Compared.{arc_fields};

use crate::keys::refusal::{BAD_VALUE, DUPLICATE, UNKNOWN_NAME};
use crate::keys::{ConfigFault, refused};
use crate::stated::{Place, StatedArc, StatedInterface, StatedRouter};
use mesh_atoms::{RadioArc, Seq};
use std::alloc::Global;

fn router_named(routers: &[StatedRouter], name: &[u8]) -> Option<usize>
    ensures { result ≡ position (λ r. name_eq name.now r.head.name) routers.now }
{
    for (at, router) in routers.iter().enumerate() {
        if name == router.head.name.as_slice() {
            return Some(at);
        }
    }
    None
}

fn iface_named(interfaces: &[StatedInterface], name: &[u8]) -> Option<usize>
    ensures { result ≡ position (λ i. name_eq name.now i.name) interfaces.now }
{
    for (at, iface) in interfaces.iter().enumerate() {
        if name == iface.name.as_slice() {
            return Some(at);
        }
    }
    None
}

fn stated_place(routers: &[StatedRouter], place: &Place) -> Option<(usize, usize)>
    ensures { result ≡ stated_place routers.now (place.now.router, place.now.iface) }
{
    let at = router_named(routers, place.router.as_slice())?;
    let router = routers.get(at)?;
    let iface = iface_named(router.interfaces.as_slice(), place.iface.as_slice())?;
    Some((at, iface))
}

// The numbers of a router and of one of its interfaces.
fn find_place(routers: &[StatedRouter], place: &Place) -> Option<(usize, usize)>
    ensures { result ≡ find_place (map stated_identifiers routers.now) (place.now.router, place.now.iface) }
{
    stated_place(routers, place)
}

fn known_place(
    alloc: Global,
    routers: &[StatedRouter],
    place: &Place,
    key: &str,
) -> Result<(usize, usize), ConfigFault>
    ensures { GivesSetting (λ p. p) result (known_place key.now (find_place (map stated_identifiers routers.now) (place.now.router, place.now.iface))) }
{
    match find_place(routers, place) {
        Some(found) => Ok(found),
        None => Err(refused(alloc, UNKNOWN_NAME, key)),
    }
}

fn is_joined(arcs: &[RadioArc], from: (usize, usize), to: (usize, usize)) -> bool
    ensures { result ≡ list_any (ends_eq (ends from to)) (map ends_of arcs.now) }
{
    for arc in arcs {
        if from.0 == arc.from
            && from.1 == arc.from_iface
            && to.0 == arc.to
            && to.1 == arc.to_iface
        {
            return true;
        }
    }
    false
}

fn joined(
    alloc: Global,
    routers: &[StatedRouter],
    earlier: &[RadioArc],
    arc: &StatedArc,
) -> Result<RadioArc, ConfigFault>
    ensures read { GivesSetting ends_of result (joined (map stated_identifiers routers.now) (map ends_of earlier.now) (arc_places arc.now)) }
    ensures says { IfOk result (λ a. arc_fields a ≡ stated_arc_fields arc.now) }
{
    let from = known_place(alloc, routers, &arc.ends.from, "from")?;
    let to = known_place(alloc, routers, &arc.ends.to, "to")?;
    if from.0 == to.0 {
        return Err(refused(alloc, BAD_VALUE, "to"));
    }
    if is_joined(earlier, from, to) {
        return Err(refused(alloc, DUPLICATE, "arc"));
    }
    Ok(RadioArc {
        from: from.0,
        from_iface: from.1,
        to: to.0,
        to_iface: to.1,
        metric: arc.numbers.metric,
        loss: arc.numbers.loss,
        delay: arc.numbers.delay,
    })
}

/// The arcs, by the numbers of routers and interfaces. Of the first arc that is at fault, `from` or `to` is refused with
/// UNKNOWN_NAME where nothing has that name, `to` with BAD_VALUE where both ends are of one router, or `arc` with DUPLICATE where an
/// earlier arc joins the same interfaces.
pub fn all_joined(
    alloc: Global,
    routers: &[StatedRouter],
    arcs: &[StatedArc],
) -> Result<Seq<RadioArc>, ConfigFault>
    ensures read { GivesSetting (map ends_of) result (joins (map stated_identifiers routers.now) [] (map arc_places arcs.now)) }
    ensures says { IfOk result (λ all. map arc_fields all ≡ map stated_arc_fields arcs.now) }
    ensures size { IfOk result (λ all. length all ≡ length arcs.now) }
{
    let mut all = Seq::new(alloc);
    for arc in arcs {
        match joined(alloc, routers, all.as_slice(), arc) {
            Ok(one) => all.push(one)?,
            Err(e) => return Err(e),
        }
    }
    Ok(all)
}
