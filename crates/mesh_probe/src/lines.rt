//! The text of a probe.
ghost use Rattle.std.specs.Prelude.{◌≡◌, ◌≢◌, ◌<◌, ◌++◌, ◌↔◌, length, filter, not, nat_eq, IsTrue, IfOk, OnOk};
ghost use Rattle.std.specs.List.{flat_map, list_any};
ghost use Rattle.mesh_atoms.specs.Radio.{IsRadioGraph, Joined};
ghost use Rattle.mesh_probe.specs.Probes.{ListsNumbers};
ghost use Rattle.mesh_probe.specs.Text.{ArePeers, is_reached, probe_start, probe_counts, probe_end, unreached_line, IsProbeText};

use crate::coverage::{Coverage, Probe};
use mesh_atoms::{Bytes, RadioGraph, Scenario, put_decimal};
use mesh_machine::router_name;
use mesh_paths::is_joined;
use std::alloc::{AllocError, Global};

// The other routers that are joined with the origin.
fn peers_of(
    alloc: Global,
    scenario: &Scenario,
    graph: &RadioGraph,
    origin: usize,
) -> Result<Vec<usize>, AllocError>
    requires { IsRadioGraph scenario.now graph.now }
    ensures { IfOk result (λ peers. ArePeers scenario.now origin peers.items) }
{
    let mut peers = Vec::new(alloc);
    for router in 0..scenario.routers.len() {
        if is_joined(graph, origin, router) {
            peers.push(router)?;
        }
    }
    Ok(peers)
}

// Whether the router is reached.
fn is_reached(coverage: &Coverage, router: usize) -> bool
    ensures { result ≡ is_reached coverage.now router }
{
    coverage
        .reached
        .as_slice()
        .iter()
        .any(|other| router == *other)
}

// How many of these are reached.
fn count_reached(coverage: &Coverage, peers: &[usize]) -> usize
    ensures { result ≡ length (filter (is_reached coverage.now) peers.now) }
{
    peers
        .iter()
        .filter(|router| is_reached(coverage, **router))
        .count()
}

// Puts which router probes.
fn put_start(out: &mut Bytes, scenario: &Scenario, origin: usize) -> Result<(), AllocError>
    ensures { OnOk result (out.new ≡ out.old ++ probe_start scenario.now origin) }
{
    out.append(b"probe ")?;
    out.append(router_name(scenario.routers.as_slice(), origin))
}

// Puts the number, how many of the peers are reached, and how many frames were sent.
fn put_counts(out: &mut Bytes, peers: &[usize], coverage: &Coverage) -> Result<(), AllocError>
    ensures { OnOk result (out.new ≡ out.old ++ probe_counts peers.now coverage.now) }
{
    let reached = count_reached(coverage, peers);
    out.append(b" number ")?;
    put_decimal(out, u64::from(coverage.number))?;
    out.append(b" reached ")?;
    put_decimal(out, reached as u64)?;
    out.append(b" of ")?;
    put_decimal(out, peers.len() as u64)?;
    out.append(b" sent ")?;
    put_decimal(out, coverage.sends.len() as u64)?;
    out.append(b"\n")
}

// Puts the line of a peer that isn't reached.
fn put_unreached(out: &mut Bytes, scenario: &Scenario, router: usize) -> Result<(), AllocError>
    ensures { OnOk result (out.new ≡ out.old ++ unreached_line scenario.now router) }
{
    out.append(b"unreached ")?;
    out.append(router_name(scenario.routers.as_slice(), router))?;
    out.append(b"\n")
}

// Puts the lines of the peers that aren't reached.
fn put_all_unreached(
    out: &mut Bytes,
    scenario: &Scenario,
    peers: &[usize],
    coverage: &Coverage,
) -> Result<(), AllocError>
    ensures { OnOk result (out.new ≡ out.old ++ flat_map (unreached_line scenario.now) (filter (λ z. not (is_reached coverage.now z)) peers.now)) }
{
    for router in peers {
        if !is_reached(coverage, *router) {
            put_unreached(out, scenario, *router)?;
        }
    }
    Ok(())
}

// Puts how far a probe came.
fn put_end(
    out: &mut Bytes,
    scenario: &Scenario,
    peers: &[usize],
    probe: &Probe,
) -> Result<(), AllocError>
    ensures { OnOk result (out.new ≡ out.old ++ probe_end scenario.now peers.now probe.now) }
{
    match probe {
        Probe::NoNumber => out.append(b" none\n"),
        Probe::Done(coverage) => {
            put_counts(out, peers, coverage)?;
            put_all_unreached(out, scenario, peers, coverage)
        }
    }
}

/// The text of a probe of router `origin`: a line that says with which number how many of the routers that are joined with it were reached, and with
/// how many frames, and a line for each that wasn't, in ascending order; or that there was no number. Only an allocation failure is an error.
pub fn probe_text(
    alloc: Global,
    scenario: &Scenario,
    graph: &RadioGraph,
    origin: usize,
    probe: &Probe,
) -> Result<Bytes, AllocError>
    requires { IsRadioGraph scenario.now graph.now }
    ensures { IfOk result (IsProbeText scenario.now origin probe.now) }
{
    let peers = peers_of(alloc, scenario, graph, origin)?;
    let mut out = Bytes::new(alloc);
    put_start(&mut out, scenario, origin)?;
    put_end(&mut out, scenario, peers.as_slice(), probe)?;
    Ok(out)
}
