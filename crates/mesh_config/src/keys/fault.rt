//! What is wrong with settings.
ghost use Rattle.std.specs.Prelude.{◌≡◌, Err, Some};
ghost use Rattle.mesh_config.specs.Keys.Faults.{IsReadFault, FailsAt, fault};

use mesh_atoms::Bytes;
use std::alloc::{AllocError, Global};

/// Settings that are refused, with the number of what for, as `refusal` has them, and the key at fault; or an allocation failure.
#[derive(Drop)]
pub enum ConfigFault {
    Refused { number: u8, key: Bytes },
    Memory(AllocError),
}

impl From<AllocError> for ConfigFault {
    ghost use Rattle.std.specs.Prelude.{◌≡◌};
    ghost use Rattle.mesh_config.specs.declared.keys.fault.ConfigFault.TheVariants.{Memory};

    ghost from_gives = { λ e r. r ≡ Memory e };

    fn from(e: AllocError) -> ConfigFault {
        ConfigFault::Memory(e)
    }
}

/// The refusal of that number and key, or an allocation failure.
pub fn refused(alloc: Global, number: u8, key: &str) -> ConfigFault
    ensures read { IsReadFault {A = Unit} result (Err (fault number key.now)) }
    ensures answer { FailsAt result (Some (fault number key.now)) }
{
    let mut octets = Bytes::new(alloc);
    match octets.append(key.as_bytes()) {
        Ok(()) => ConfigFault::Refused {
            number,
            key: octets,
        },
        Err(e) => ConfigFault::Memory(e),
    }
}
