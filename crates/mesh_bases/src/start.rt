//! What a router has before its first event (RFC 7181, section 7).
ghost use Rattle.std.specs.Prelude.{◌≡◌, length, IfOk};
ghost use Rattle.mesh_atoms.specs.State.{State};
ghost use Rattle.mesh_machine.specs.Machine.{IsOpening, no_bases};
ghost use Rattle.mesh_bases.specs.Renewed.{HasDerived, HasNext};

use crate::advertise::own_rows;
use crate::derived::Derived;
use crate::relays::no_relays;
use mesh_atoms::RouterSettings;
use mesh_routes::RoutingSet;
use std::alloc::{AllocError, Global};

/// What follows from the bases of a router before its first event, which are empty: no relays and no routes, the rows of the attached
/// networks, all numbers 0, and the moments of the settings.
pub fn opening(alloc: Global, settings: &RouterSettings) -> Result<Derived, AllocError>
    ensures { IfOk result (λ derived. (s : State) → s.settings ≡ settings.now → s.bases ≡ no_bases (length settings.now.interfaces)
        → HasDerived s derived → HasNext s derived → IsOpening settings.now s) }
{
    let rows = own_rows(alloc, settings)?;
    let relays = no_relays(alloc, settings.interfaces.len())?;
    Ok(Derived {
        relays,
        routes: RoutingSet::new(alloc),
        rows,
        ansn: 0,
        emptied: None,
        sequence: 0,
        next_hello: settings.hello_at,
        next_tc: settings.tc_at,
        last: 0,
    })
}
