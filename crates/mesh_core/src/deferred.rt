//! A router that may put off relays and routes.
ghost use Rattle.std.specs.Prelude.{◌≡◌};
ghost use Rattle.mesh_atoms.specs.Sound.{Sound};

use crate::router::{Core, RouterState};
use mesh_expire::Bases;
use std::marker::Model;

/// A router that may put off relays and routes. Contracts see it as a core: the state of which relays and routes may be outdated.
pub struct DeferredCore<B: Bases> {
    pub(crate) router: RouterState<B>,
    pub(crate) spent: bool,
}

// By hand, so that no crate that lets go of one has to know its parts.
impl<B: Bases> Drop for DeferredCore<B> {
    fn drop(self) {
        let DeferredCore {
            router: _,
            spent: _,
        } = self;
    }
}

impl<B: Bases> Model for DeferredCore<B> {
    ghost use Rattle.std.specs.Prelude.{◌≡◌, false};
    ghost use Rattle.mesh_core.specs.Deferred.{IsSoundButForDerived};
    ghost use Rattle.mesh_core.specs.Holding.{CoreValue};
    ghost use Rattle.mesh_bases.specs.Held.RouterState.{router_state};
    ghost use Rattle.mesh_core.specs.Event.Outdated.{IsCurrent};

    ghost Value = { CoreValue };

    ghost view = { λ c. record { state = router_state c.router.holding c.router.derived; is_spent = c.spent } };

    ghost invariant = { λ c. c.spent ≡ false → IsSoundButForDerived (router_state c.router.holding c.router.derived)
        × IsCurrent c.router.outdated (router_state c.router.holding c.router.derived) };
}

impl<B: Bases> DeferredCore<B> {
    /// The router as a core, where its relays and routes are those of its bases.
    pub fn into_core(self) -> Core<B>
        requires { Sound self.state }
        ensures state { result.state ≡ self.state }
        ensures spent { result.is_spent ≡ self.is_spent }
    {
        let DeferredCore { router, spent } = self;
        Core { router, spent }
    }
}
