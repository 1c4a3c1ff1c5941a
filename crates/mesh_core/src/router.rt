//! The router core: a router with its bases, and what follows from them (RFC 6130 and RFC 7181).
ghost use Rattle.std.specs.Prelude.{◌≡◌, IfOk, false};
ghost use Rattle.mesh_atoms.specs.Sound.{Sound};
ghost use Rattle.mesh_bases.specs.Held.RouterState.{router_state};
ghost use Rattle.mesh_machine.specs.Machine.{IsOpening, due};

use crate::deferred::DeferredCore;
use crate::event::Outdated;
use mesh_atoms::RouterSettings;
use mesh_bases::{Derived, InformationBases, opening};
use mesh_expire::Bases;
use std::alloc::{AllocError, Global};
use std::marker::Model;

/// What a router holds: its bases, what follows from them, and what of that may be outdated.
pub(crate) struct RouterState<B: Bases> {
    pub(crate) holding: InformationBases<B>,
    pub(crate) derived: Derived,
    pub(crate) outdated: Outdated,
}

/// A router: it hears frames, its clock ticks, and it sends frames. Moments are in ticks of 1/8192 s. After an allocation failure it is
/// spent, and may only be dropped.
pub struct Core<B: Bases> {
    pub(crate) router: RouterState<B>,
    pub(crate) spent: bool,
}

// By hand, so that no crate that lets go of one has to know its parts.
impl<B: Bases> Drop for RouterState<B> {
    fn drop(self) {
        let RouterState {
            holding: _,
            derived: _,
            outdated: _,
        } = self;
    }
}

// By hand, so that no crate that lets go of one has to know its parts.
impl<B: Bases> Drop for Core<B> {
    fn drop(self) {
        let Core {
            router: _,
            spent: _,
        } = self;
    }
}

impl<B: Bases> RouterState<B> {
    /// The moment at which the next HELLO or TC is due.
    pub(crate) fn due(&self) -> u64
        ensures { result ≡ due (router_state self.now.holding self.now.derived) }
    {
        u64::min(self.derived.next_hello, self.derived.next_tc)
    }
}

impl<B: Bases> Model for Core<B> {
    ghost use Rattle.std.specs.Prelude.{◌≡◌, false};
    ghost use Rattle.mesh_atoms.specs.Sound.{Sound};
    ghost use Rattle.mesh_core.specs.Holding.{CoreValue};
    ghost use Rattle.mesh_bases.specs.Held.RouterState.{router_state};

    ghost Value = { CoreValue };

    ghost view = { λ c. record { state = router_state c.router.holding c.router.derived; is_spent = c.spent } };

    ghost invariant = { λ c. c.spent ≡ false → Sound (router_state c.router.holding c.router.derived) };
}

impl<B: Bases> Core<B> {
    /// A router with these settings before its first event: it holds nothing, and advertises its attached networks.
    pub fn new(alloc: Global, settings: RouterSettings) -> Result<Core<B>, AllocError>
        ensures opening { IfOk result (λ core. IsOpening settings core.state) }
        ensures sound { IfOk result (λ core. Sound core.state) }
        ensures whole { IfOk result (λ core. core.is_spent ≡ false) }
    {
        opened(alloc, &settings)
    }

    /// The moment at which the next HELLO or TC is due.
    pub fn due(&self) -> u64
        ensures { result ≡ due self.now.state }
    {
        self.router.due()
    }

    /// Whether the router has met an allocation failure.
    pub fn is_spent(&self) -> bool
        ensures { result ≡ self.now.is_spent }
    {
        self.spent
    }

    /// The router as one that may put off relays and routes. A spent router refuses, as if an allocation had failed.
    pub fn defer(self) -> Result<DeferredCore<B>, AllocError>
        ensures state { IfOk result (λ deferred. deferred.state ≡ self.state) }
        ensures sound { IfOk result (λ deferred. Sound deferred.state) }
        ensures unspent { IfOk result (λ deferred. deferred.is_spent ≡ false) }
    {
        let Core { router, spent } = self;
        if spent {
            return Err(AllocError);
        }
        Ok(DeferredCore {
            router,
            spent: false,
        })
    }
}

// A router with these settings before its first event.
fn opened<B: Bases>(alloc: Global, settings: &RouterSettings) -> Result<Core<B>, AllocError>
    ensures opening { IfOk result (λ core. IsOpening settings.now core.state) }
    ensures whole { IfOk result (λ core. core.is_spent ≡ false) }
{
    let holding = InformationBases::new(alloc, settings)?;
    let derived = opening(alloc, settings)?;
    let router = RouterState {
        holding,
        derived,
        outdated: Outdated {
            relays: false,
            routes: false,
        },
    };
    Ok(Core {
        router,
        spent: false,
    })
}
