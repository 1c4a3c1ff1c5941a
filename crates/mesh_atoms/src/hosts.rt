//! Routers' addresses as networks.
ghost use Rattle.std.specs.Prelude.{◌≡◌};
ghost use Rattle.mesh_atoms.specs.Base.{host};

use crate::{Addr4, NetAddr};

/// The network that a router's address is: that of prefix 32.
pub fn host(addr: Addr4) -> NetAddr
    ensures { result ≡ host addr }
{
    NetAddr { addr, prefix: 32 }
}
