//! Why a job stops on the way.
use crate::WriteFault;
use std::alloc::AllocError;

/// Why a job stopped before its text was whole: a write failed, or memory was wanting.
#[derive(Clone, Copy)]
pub enum Stop {
    Write,
    Memory,
}

impl From<WriteFault> for Stop {
    ghost use Rattle.std.specs.Prelude.{◌≡◌};
    ghost use Rattle.mesh_io.specs.declared.stop.Stop.TheVariants.{Write};

    ghost from_gives = { λ e r. r ≡ Write };

    fn from(_e: WriteFault) -> Self {
        Stop::Write
    }
}

impl From<AllocError> for Stop {
    ghost use Rattle.std.specs.Prelude.{◌≡◌};
    ghost use Rattle.mesh_io.specs.declared.stop.Stop.TheVariants.{Memory};

    ghost from_gives = { λ e r. r ≡ Memory };

    fn from(_e: AllocError) -> Self {
        Stop::Memory
    }
}
