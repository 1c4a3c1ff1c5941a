//! How much a router holds over all its interfaces.
ghost use Rattle.std.specs.Prelude.{◌≡◌, ℕ, length, map};
ghost use Rattle.std.specs.List.{sum};
ghost use Rattle.mesh_atoms.specs.Sound.{SoundNeighbourhood};

use mesh_atoms::RouterSettings;
use mesh_nbrs::Near4;

/// How many 2-hop tuples there are, over all interfaces. Takes no memory.
pub fn all_two_hop_count<N: Near4>(near: &N, settings: &RouterSettings) -> usize
    requires { (now : ℕ) × SoundNeighbourhood settings.now now (N.near near.now) }
    ensures { result ≡ sum (map length (N.near near.now).two_hops) }
{
    let mut count = 0;
    for iface in 0..settings.interfaces.len() {
        count += near.two_hop_count(iface);
    }
    count
}
