//! Why a message has no reading (RFC 6130, section 12.1, and RFC 7181, section 16.3.1).
use mesh_atoms::NetAddr;
use std::alloc::AllocError;

/// Why a message isn't read as a HELLO or a TC.
#[derive(Drop)]
pub enum WireFault {
    /// The rule of least number that is broken, and the least address that breaks it where the rule is about addresses.
    Broken { number: u8, addr: Option<NetAddr> },
    /// An allocation failure.
    Memory(AllocError),
}

impl From<AllocError> for WireFault {
    ghost use Rattle.std.specs.Prelude.{◌≡◌};
    ghost use Rattle.mesh_wire.specs.declared.fault.WireFault.TheVariants.{Memory};

    ghost from_gives = { λ e r. r ≡ Memory e };

    fn from(e: AllocError) -> WireFault {
        WireFault::Memory(e)
    }
}
