//! The keys of the tuples.
ghost use Rattle.std.proofs.Common.{rules};

use crate::table::Key;
use mesh_atoms::{Addr4, AddressKey, FloodKey, LinkKey, NetworkKey, RouterKey, TwoHopKey};

impl Key for Addr4 {
    ghost exact = { Prim.search rules };
}

impl Key for LinkKey {
    ghost exact = { Prim.search rules };
}

impl Key for TwoHopKey {
    ghost exact = { Prim.search rules };
}

impl Key for RouterKey {
    ghost exact = { Prim.search rules };
}

impl Key for AddressKey {
    ghost exact = { Prim.search rules };
}

impl Key for NetworkKey {
    ghost use Rattle.mesh_atoms.proofs.Lookups.{same_network as network_exact};

    ghost exact = { network_exact };
}

impl Key for FloodKey {
    ghost exact = { Prim.search rules };
}
