//! The relays that a router chooses (RFC 7181, section 18).
ghost use Rattle.std.specs.Prelude.{◌≡◌, ℕ, Some, None, IfOk};
ghost use Rattle.mesh_atoms.specs.declared.graphs.NeighbourGraph.{NeighbourGraph as Graph};
ghost use Rattle.mesh_atoms.specs.RelayGraphs.{AreRelays, AreRelaysOf, IsFloodingGraph, IsRoutingGraph};
ghost use Rattle.mesh_atoms.specs.Sound.{SoundNeighbourhood};
ghost use Rattle.mesh_atoms.specs.State.{State};
ghost use Rattle.mesh_machine.specs.Machine.{no_relays};

use mesh_atoms::{Addr4, Relays, RouterSettings, Seq};
use mesh_nbrs::Near4;
use mesh_relay::choose;
use mesh_routes::graph_of;
use std::alloc::{AllocError, Global};

// The flooding relays on an interface of a router with this neighbourhood, or where there is none its routing relays.
fn relays_on<N: Near4>(
    alloc: Global,
    near: &N,
    settings: &RouterSettings,
    iface: Option<usize>,
) -> Result<Seq<Addr4>, AllocError>
    requires sound { (now : ℕ) × SoundNeighbourhood settings.now now (N.near near.now) }
    ensures routing { iface ≡ None → IfOk result (λ relays. (s : State) → s.bases.neighbourhood ≡ N.near near.now
        → (graph : Graph) × IsRoutingGraph s graph × AreRelaysOf graph relays) }
    ensures flooding { (i : ℕ) → iface ≡ Some i → IfOk result (λ relays. (s : State) (now : ℕ) → s.bases.neighbourhood ≡ N.near near.now
        → SoundNeighbourhood settings.now now (N.near near.now) → (graph : Graph) × IsFloodingGraph s now i graph × AreRelaysOf graph relays) }
{
    let graph = graph_of(alloc, near, settings, iface)?;
    choose(alloc, &graph)
}

/// The relays of a router with this neighbourhood (RFC 7181, section 18), at each moment at which it is sound. Only an allocation
/// failure refuses.
pub fn relays_of<N: Near4>(
    alloc: Global,
    near: &N,
    settings: &RouterSettings,
) -> Result<Relays, AllocError>
    requires sound { (now : ℕ) × SoundNeighbourhood settings.now now (N.near near.now) }
    ensures { IfOk result (λ relays. (s : State) (now : ℕ) → s.settings ≡ settings.now → s.bases.neighbourhood ≡ N.near near.now → s.relays ≡ relays
        → SoundNeighbourhood settings.now now (N.near near.now) → AreRelays s now) }
{
    let mut flooding = Seq::new(alloc);
    for iface in 0..settings.interfaces.len() {
        let chosen = relays_on(alloc, near, settings, Some(iface))?;
        flooding.push(chosen)?;
    }
    let routing = relays_on(alloc, near, settings, None)?;
    Ok(Relays { flooding, routing })
}

/// The relays of a router with so many interfaces that has chosen none. Only an allocation failure refuses.
pub fn no_relays(alloc: Global, count: usize) -> Result<Relays, AllocError>
    ensures { IfOk result (λ relays. relays ≡ no_relays count) }
{
    let mut flooding = Seq::new(alloc);
    for _ in 0..count {
        flooding.push(Seq::new(alloc))?;
    }
    Ok(Relays {
        flooding,
        routing: Seq::new(alloc),
    })
}
