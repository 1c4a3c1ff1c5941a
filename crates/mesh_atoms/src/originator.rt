//! The address by which a router is known.
ghost use Rattle.std.specs.Prelude.{◌≡◌};
ghost use Rattle.mesh_atoms.specs.State.{IsOriginator};
ghost use Rattle.mesh_atoms.specs.declared.addr.Addr4.{Addr4};

use crate::{Addr4, RouterSettings};

impl RouterSettings {
    /// The router's originator address: the first address of its first interface. Takes no memory.
    pub fn originator(&self) -> Addr4
        ensures is { IsOriginator self.now result }
        ensures only { (other : Addr4) → IsOriginator self.now other → other ≡ result }
    {
        self.interfaces.as_slice()[0].addrs.as_slice()[0]
    }
}
