//! The text of a trip.
ghost use Rattle.std.specs.Prelude.{◌≡◌, ◌++◌, slice_get, IfOk, OnOk};
ghost use Rattle.std.specs.List.{flat_map};
ghost use Rattle.mesh_machine.specs.Names.{router_name};
ghost use Rattle.mesh_data.specs.Text.{interface_name, interface_in, end_name, hop_start, hop_end, hop_line};
ghost use Rattle.mesh_data.specs.Text.{trip_start, trip_end, text_of};

use crate::dotted::put_address;
use crate::{End, Hop, Trip};
use mesh_atoms::{Addr4, Bytes, RouterSettings, Scenario, put_decimal};
use mesh_machine::router_name;
use std::alloc::{AllocError, Global};

// Puts the name of router x; nothing where there is none.
fn put_router(out: &mut Bytes, scenario: &Scenario, x: usize) -> Result<(), AllocError>
    ensures { OnOk result (out.new ≡ out.old ++ router_name scenario.now.routers x) }
{
    out.append(router_name(scenario.routers.as_slice(), x))
}

// Puts the name of interface i; nothing where there is none.
fn put_interface_of(out: &mut Bytes, settings: &RouterSettings, i: usize) -> Result<(), AllocError>
    ensures { OnOk result (out.new ≡ out.old ++ interface_name (slice_get settings.now.interfaces i)) }
{
    match settings.interfaces.get(i) {
        Some(interface) => out.append(interface.name.as_slice()),
        None => Ok(()),
    }
}

// Puts the name of interface i of router x; nothing where there is none.
fn put_interface(out: &mut Bytes, scenario: &Scenario, x: usize, i: usize) -> Result<(), AllocError>
    ensures { OnOk result (out.new ≡ out.old ++ interface_in (slice_get scenario.now.routers x) i) }
{
    match scenario.routers.get(x) {
        Some(settings) => put_interface_of(out, settings, i),
        None => Ok(()),
    }
}

// Puts how a trip ends.
fn put_end(out: &mut Bytes, end: End) -> Result<(), AllocError>
    ensures { OnOk result (out.new ≡ out.old ++ end_name end) }
{
    match end {
        End::Arrived => out.append(b"arrived"),
        End::NoRoute => out.append(b"noroute"),
        End::NoArc => out.append(b"noarc"),
        End::TooFar => out.append(b"toofar"),
    }
}

// Puts where a hop begins.
fn put_hop_start(out: &mut Bytes, scenario: &Scenario, hop: &Hop) -> Result<(), AllocError>
    ensures { OnOk result (out.new ≡ out.old ++ hop_start scenario.now hop.now) }
{
    out.append(b" hop ")?;
    put_router(out, scenario, hop.from)?;
    out.append(b" ")?;
    put_interface(out, scenario, hop.from, hop.iface)
}

// Puts where a hop leads, and at which metric.
fn put_hop_end(out: &mut Bytes, scenario: &Scenario, hop: &Hop) -> Result<(), AllocError>
    ensures { OnOk result (out.new ≡ out.old ++ hop_end scenario.now hop.now) }
{
    out.append(b" to ")?;
    put_router(out, scenario, hop.to)?;
    out.append(b" metric ")?;
    put_decimal(out, u64::from(hop.metric))?;
    out.append(b"\n")
}

// Puts the line of a hop.
fn put_hop(out: &mut Bytes, scenario: &Scenario, hop: &Hop) -> Result<(), AllocError>
    ensures { OnOk result (out.new ≡ out.old ++ hop_line scenario.now hop.now) }
{
    put_hop_start(out, scenario, hop)?;
    put_hop_end(out, scenario, hop)
}

// Puts the lines of the hops.
fn put_hops(out: &mut Bytes, scenario: &Scenario, hops: &[Hop]) -> Result<(), AllocError>
    ensures { OnOk result (out.new ≡ out.old ++ flat_map (hop_line scenario.now) hops.now) }
{
    for hop in hops {
        put_hop(out, scenario, hop)?;
    }
    Ok(())
}

// Puts where a trip begins, and whereto.
fn put_trip_start(
    out: &mut Bytes,
    scenario: &Scenario,
    from: usize,
    dest: Addr4,
) -> Result<(), AllocError>
    ensures { OnOk result (out.new ≡ out.old ++ trip_start scenario.now from dest) }
{
    out.append(b"send ")?;
    put_router(out, scenario, from)?;
    out.append(b" ")?;
    put_address(out, dest)
}

// Puts how a trip ends, what it cost, and how many hops it took.
fn put_trip_end(out: &mut Bytes, scenario: &Scenario, trip: &Trip) -> Result<(), AllocError>
    ensures { OnOk result (out.new ≡ out.old ++ trip_end scenario.now trip.now) }
{
    out.append(b" end ")?;
    put_end(out, trip.end)?;
    out.append(b" at ")?;
    put_router(out, scenario, trip.last)?;
    out.append(b" metric ")?;
    put_decimal(out, trip.metric)?;
    out.append(b" hops ")?;
    put_decimal(out, trip.hops.len() as u64)?;
    out.append(b"\n")
}

/// The text of a trip: a line that says how it ends, and one for each hop. A router or an interface that the scenario doesn't
/// have is written as nothing. Only an allocation failure is an error.
pub fn trip_text(
    alloc: Global,
    scenario: &Scenario,
    from: usize,
    dest: Addr4,
    trip: &Trip,
) -> Result<Bytes, AllocError>
    ensures { IfOk result (λ text. text ≡ text_of scenario.now from dest trip.now) }
{
    let mut out = Bytes::new(alloc);
    put_trip_start(&mut out, scenario, from, dest)?;
    put_trip_end(&mut out, scenario, trip)?;
    put_hops(&mut out, scenario, trip.hops.as_slice())?;
    Ok(out)
}
