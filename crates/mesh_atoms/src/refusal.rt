//! Why octets are refused.
use std::alloc::AllocError;

/// The first field of a frame that breaks a rule: the place of the field's first octet, counted from 0 at the frame's
/// start, and the number of the rule.
#[derive(Clone, Copy, PartialEq, Eq)]
pub struct Refusal {
    pub place: usize,
    pub reason: u8,
}

/// Why octets aren't read: they have a first fault, or there is no memory for what they spell.
#[derive(Drop)]
pub enum DecodeFault {
    Refused(Refusal),
    Memory(AllocError),
}

impl From<AllocError> for DecodeFault {
    ghost use Rattle.std.specs.Prelude.{◌≡◌};
    ghost use Rattle.mesh_atoms.specs.declared.refusal.DecodeFault.TheVariants.{Memory};

    ghost from_gives = { λ e r. r ≡ Memory e };

    fn from(e: AllocError) -> DecodeFault {
        DecodeFault::Memory(e)
    }
}

impl From<Refusal> for DecodeFault {
    ghost use Rattle.std.specs.Prelude.{◌≡◌};
    ghost use Rattle.mesh_atoms.specs.declared.refusal.DecodeFault.TheVariants.{Refused};

    ghost from_gives = { λ e r. r ≡ Refused e };

    fn from(e: Refusal) -> DecodeFault {
        DecodeFault::Refused(e)
    }
}
