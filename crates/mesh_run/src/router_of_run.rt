//! The router of a run, whatever tables it has.
ghost use Rattle.std.specs.Prelude.{◌≡◌, IfOk};
ghost use Rattle.mesh_atoms.specs.Sound.{Sound};
ghost use Rattle.mesh_texts.specs.machine.Machine.{IsOpening};

use mesh_atoms::RouterSettings;
use mesh_core::{Core, DeferredCore, DeferringRouter, RouterView};
use mesh_expire::Bases;
use std::alloc::{AllocError, Global};

/// A router that may put relays and routes off, and that becomes one that shows them. What does its turns and reports it needs no more than
/// this, and knows nothing of tables.
pub trait RouterOfRun: DeferringRouter {
    type Whole: RouterView + Drop;

    /// A router with these settings before its first event.
    fn make(alloc: Global, settings: RouterSettings) -> Result<Self, AllocError>
        ensures { IfOk result (λ router. IsOpening settings (Self.state router)) };

    /// The router with its relays and routes, where they are those of its bases. Takes no memory.
    fn into_whole(self) -> Self::Whole
        requires { Sound (Self.state self) }
        ensures { Self.Whole.state result ≡ Self.state self };
}

impl<B: Bases> RouterOfRun for DeferredCore<B> {
    type Whole = Core<B>;

    fn make(alloc: Global, settings: RouterSettings) -> Result<DeferredCore<B>, AllocError> {
        Core::new(alloc, settings)?.defer()
    }

    fn into_whole(self) -> Core<B> {
        self.into_core()
    }
}
