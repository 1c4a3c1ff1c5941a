//! Which routers are joined (RFC 6130, section 14).
ghost use Rattle.std.specs.Prelude.{◌≡◌, ◌≢◌, ◌↔◌, IsTrue};
ghost use Rattle.mesh_atoms.specs.declared.settings.Scenario.{Scenario};
ghost use Rattle.mesh_atoms.specs.Radio.{IsRadioGraph, Joined};
ghost use Rattle.mesh_paths.specs.Joined.{is_joined, ShareAPart};

use mesh_atoms::RadioGraph;

// Whether router w is another one, in the part of router x.
fn is_in_part(parts: &[usize], x: usize, w: usize) -> bool
    ensures { result ≡ is_joined parts.now x w }
{
    w != x && x < parts.len() && w < parts.len() && parts[x] == parts[w]
}

/// Whether router w is another one with the part that router x has in the graph. In the radio graph of a scenario that is a router
/// that a chain of joined interfaces leads to from x. Takes no memory.
pub fn is_joined(graph: &RadioGraph, x: usize, w: usize) -> bool
    ensures parts { IsTrue result ↔ ShareAPart graph.now.parts x w }
    ensures joined { (s : Scenario) → IsRadioGraph s graph.now → IsTrue result ↔ ((w ≢ x) × Joined s x w) }
{
    is_in_part(graph.parts.as_slice(), x, w)
}
