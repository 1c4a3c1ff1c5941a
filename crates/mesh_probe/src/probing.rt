//! The probe of a network.
ghost use Rattle.std.specs.Prelude.{◌≡◌, ◌≤◌, ◌<◌, map, length, Ok, IfOk};
ghost use Rattle.mesh_atoms.specs.Settings.{one_hour};
ghost use Rattle.mesh_atoms.specs.Sound.{Sound};
ghost use Rattle.mesh_atoms.specs.Validity.{IsLeastCode};
ghost use Rattle.mesh_probe.specs.Hearing.{IsProbeFrame, TellsFrames};
ghost use Rattle.mesh_probe.specs.Probes.{AreRoutersAt, HasLeastNumber, TellsFlood, AreReached, IfDone, ReachesAll, SendsOnce, IsProbeFlood, IsProbeTc, sending_of};

use crate::coverage::{Coverage, Probe, Sending};
use crate::flooding::flood;
use crate::frames::first_frames;
use crate::laws::floods_reach;
use crate::numbers::free_number;
use crate::reached::reached_of;
use crate::transmission::Transmission;
use mesh_atoms::{Bytes, Scenario, Seq, Tc, time_at_least, time_code_at_least};
use mesh_core::RouterCore;
use mesh_machine::RouterView;
use mesh_wire::write_tc;
use std::alloc::{AllocError, Global};

// The TC with which a router probes.
fn probe_tc<R: RouterView>(alloc: Global, router: &R, number: u16) -> Result<Tc, AllocError>
    requires { Sound (R.state router.now) }
    ensures { IfOk result (IsProbeTc (R.state router.now) number) }
{
    let settings = router.settings();
    let rows = Vec::from_slice(alloc, router.rows())?;
    Ok(Tc {
        originator: settings.originator(),
        sequence: number,
        ansn: router.ansn(),
        complete: true,
        validity: time_at_least(settings.times.topology_hold),
        interval: Some(time_at_least(settings.times.tc)),
        rows: Seq::from_vec(rows),
    })
}

// The least time code, of those that are sent, that is no shorter than a hold time.
fn hold_code(ticks: u64) -> u8
    requires { ticks ≤ one_hour }
    ensures { IsLeastCode ticks result }
{
    match time_code_at_least(ticks) {
        Some(code) => code,
        None => 0,
    }
}

// The hop limit with which a router probes.
fn hop_limit_of<R: RouterView>(router: &R) -> u8
    ensures value { result ≡ (R.state router.now).settings.times.tc_hop_limit }
    ensures octet { result < 256 }
{
    router.settings().times.tc_hop_limit
}

// The octets with which a router probes: the same validity at every distance.
fn probe_frame<R: RouterView>(alloc: Global, router: &R, number: u16) -> Result<Bytes, AllocError>
    requires { Sound (R.state router.now) }
    ensures { IfOk result (IsProbeFrame (R.state router.now) number) }
{
    let tc = probe_tc(alloc, router, number)?;
    let times = router.settings().times;
    let validity = [hold_code(times.topology_hold)];
    let bytes = write_tc(alloc, &tc, hop_limit_of(router), &validity)?;
    Ok(bytes)
}

// The flood of a router's TC with that number: the frames that are heard.
fn flood_of<R: RouterCore>(
    alloc: Global,
    routers: &mut [R],
    scenario: &Scenario,
    origin: usize,
    number: u16,
) -> Result<Vec<Transmission>, AllocError>
    requires routers { AreRoutersAt scenario.now (map R.state routers.old) scenario.now.end }
    requires origin { origin < length scenario.now.routers }
    ensures { IfOk result (λ heard. IsProbeFlood scenario.now (map R.state routers.old) scenario.now.end origin number heard.items (map R.state routers.new)) }
{
    let router = &routers[origin];
    let octets = probe_frame(alloc, router, number)?;
    let count = router.settings().interfaces.len();
    let mut frames = first_frames(alloc, origin, count, octets.as_slice())?;
    flood(alloc, routers, scenario, scenario.end, &mut frames)?;
    Ok(frames)
}

// The router and the interface that send a frame.
fn sending_of(frame: &Transmission) -> Sending
    ensures { result ≡ sending_of frame.now }
{
    Sending {
        router: frame.router,
        iface: frame.frame.iface,
    }
}

// The routers and interfaces that send the frames, in order.
fn sends_of(alloc: Global, frames: &[Transmission]) -> Result<Seq<Sending>, AllocError>
    ensures { IfOk result (λ sends. sends ≡ map sending_of frames.now) }
{
    let mut sends = Seq::new(alloc);
    for frame in frames {
        sends.push(sending_of(frame))?;
    }
    Ok(sends)
}

// The flood of a router's TC with that number, and whom it reaches.
fn coverage_of<R: RouterCore>(
    alloc: Global,
    routers: &mut [R],
    scenario: &Scenario,
    origin: usize,
    number: u16,
) -> Result<Coverage, AllocError>
    requires routers { AreRoutersAt scenario.now (map R.state routers.old) scenario.now.end }
    requires origin { origin < length scenario.now.routers }
    ensures number { IfOk result (λ c. c.number ≡ number) }
    ensures flood { IfOk result (TellsFrames scenario.now (map R.state routers.old) scenario.now.end origin (map R.state routers.new)) }
    ensures reached { IfOk result (AreReached scenario.now origin) }
{
    let heard = flood_of(alloc, routers, scenario, origin, number)?;
    let sends = sends_of(alloc, heard.as_slice())?;
    let reached = reached_of(alloc, scenario, origin, sends.as_slice())?;
    Ok(Coverage {
        number,
        reached,
        sends,
    })
}

// The probe of a network, whatever its laws.
fn probe_from<R: RouterCore>(
    alloc: Global,
    routers: &mut [R],
    scenario: &Scenario,
    origin: usize,
) -> Result<Probe, AllocError>
    requires routers { AreRoutersAt scenario.now (map R.state routers.old) scenario.now.end }
    requires origin { origin < length scenario.now.routers }
    ensures number { IfOk result (HasLeastNumber scenario.now (map R.state routers.old) origin) }
    ensures unchanged { result ≡ Ok Probe.NoNumber → routers.new ≡ routers.old }
    ensures flood { IfOk result (TellsFlood scenario.now (map R.state routers.old) scenario.now.end origin (map R.state routers.new)) }
    ensures reached { IfOk result (IfDone (AreReached scenario.now origin)) }
{
    let originator = scenario.routers.as_slice()[origin].originator();
    match free_number(routers, originator) {
        Some(number) => Ok(Probe::Done(coverage_of(alloc, routers, scenario, origin, number)?)),
        None => Ok(Probe::NoNumber),
    }
}

/// Probes a network at the end of its scenario: the router `origin` sends a complete TC of its advertised rows, with the hop limit
/// and the validity of its settings, on each of its interfaces in order. At that one moment each frame is heard by the routers at
/// the ends of its interface's arcs, in the order of the arcs, and what they forward waits behind the frames that wait already, first
/// sent first, until none is left. Losses, delays and qualities play no part.
///
/// The TC's sequence number is the least that no router has noted of the origin's TCs; `NoNumber` exactly where there is none, and then
/// nothing changes. After an allocation failure the routers may only be dropped.
pub fn probe<R: RouterCore>(
    alloc: Global,
    routers: &mut [R],
    scenario: &Scenario,
    origin: usize,
) -> Result<Probe, AllocError>
    requires routers { AreRoutersAt scenario.now (map R.state routers.old) scenario.now.end }
    requires origin { origin < length scenario.now.routers }
    ensures number { IfOk result (HasLeastNumber scenario.now (map R.state routers.old) origin) }
    ensures unchanged { result ≡ Ok Probe.NoNumber → routers.new ≡ routers.old }
    // The sends are the frames of a flood, each heard by a step of each router's machine.
    ensures flood { IfOk result (TellsFlood scenario.now (map R.state routers.old) scenario.now.end origin (map R.state routers.new)) }
    ensures reached { IfOk result (IfDone (AreReached scenario.now origin)) }
    // In a settled network all are reached that are joined with the origin, and in no network does one send twice on an interface.
    ensures reaches { IfOk result (IfDone (ReachesAll scenario.now (map R.state routers.old) scenario.now.end origin)) }
    ensures once { IfOk result (IfDone SendsOnce) }
{
    floods_reach();
    probe_from(alloc, routers, scenario, origin)
}
