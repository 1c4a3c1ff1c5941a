//! How an event ends: what follows from the bases is renewed, but for relays and routes that aren't wanted (RFC 7181, sections 16.1, 18 and
//! 19).
ghost use Rattle.std.specs.Prelude.{◌≡◌, ◌⊎◌, ℕ, false, IfOk, OnOk, IsTrue};
ghost use Rattle.mesh_atoms.specs.Sound.{SoundNeighbourhood, SoundTopology};
ghost use Rattle.mesh_atoms.specs.State.{State};
ghost use Rattle.mesh_core.specs.Event.Ending.{IsBeforeEvent, GivesRelays, GivesRoutes, GivesRows};
ghost use Rattle.mesh_core.specs.Event.Outdated.{KeepsWanted};
ghost use Rattle.mesh_machine.specs.Renewal.{Renews};
ghost use Rattle.mesh_bases.specs.Renewed.{HasDerived, IsAnsnAfter, IsEmptiedAt};

use crate::event::outdated::{EventWants, Outdated};
use mesh_atoms::{Relays, RouterSettings};
use mesh_bases::{Derived, InformationBases, Quiet, relays_of};
use mesh_expire::Bases;
use mesh_nbrs::Near4;
use mesh_routes::{RoutingSet, routes_of};
use std::alloc::{AllocError, Global};

// Renews the advertised rows, where the neighbourhood isn't the same but for moments.
fn renew_rows<N: Near4>(
    alloc: Global,
    near: &N,
    settings: &RouterSettings,
    now: u64,
    is_same: bool,
    derived: &mut Derived,
) -> Result<(), AllocError>
    ensures rows { OnOk result ((IsTrue is_same × (derived.new.rows ≡ derived.old.rows)) ⊎ GivesRows settings.now (N.near near.now) derived.new.rows) }
    ensures ansn { OnOk result (IsAnsnAfter derived.old derived.new) }
    ensures emptied { OnOk result (IsEmptiedAt now derived.old derived.new) }
    ensures others { derived.new ≡ record derived.old { rows = derived.new.rows; ansn = derived.new.ansn; emptied = derived.new.emptied } }
{
    if is_same {
        return Ok(());
    }
    derived.renew_rows(alloc, near, settings, now)
}

// Chooses the relays anew, where they are outdated and wanted. The answer is whether they are still outdated.
fn renew_relays<N: Near4>(
    alloc: Global,
    near: &N,
    settings: &RouterSettings,
    are_outdated: bool,
    are_wanted: bool,
    relays: &mut Relays,
) -> Result<bool, AllocError>
    requires sound { (now : ℕ) × SoundNeighbourhood settings.now now (N.near near.now) }
    ensures wanted { IfOk result (λ still. IsTrue are_wanted → still ≡ false) }
    ensures current { IfOk result (λ still. still ≡ false → ((are_outdated ≡ false) × (relays.new ≡ relays.old)) ⊎ GivesRelays settings.now (N.near near.now) relays.new) }
{
    if !are_outdated {
        return Ok(false);
    }
    if !are_wanted {
        return Ok(true);
    }
    *relays = relays_of(alloc, near, settings)?;
    Ok(false)
}

// Makes the routes anew, where they are outdated and wanted. The answer is whether they are still outdated.
fn renew_routes<B: Bases>(
    alloc: Global,
    holding: &InformationBases<B>,
    now: u64,
    are_outdated: bool,
    are_wanted: bool,
    routes: &mut RoutingSet,
) -> Result<bool, AllocError>
    requires near { SoundNeighbourhood holding.now.settings now holding.now.bases.neighbourhood }
    requires topology { SoundTopology holding.now.settings now holding.now.bases.topology }
    ensures wanted { IfOk result (λ still. IsTrue are_wanted → still ≡ false) }
    ensures current { IfOk result (λ still. still ≡ false → ((are_outdated ≡ false) × (routes.new ≡ routes.old)) ⊎ GivesRoutes holding.now.settings holding.now.bases routes.new) }
{
    if !are_outdated {
        return Ok(false);
    }
    if !are_wanted {
        return Ok(true);
    }
    *routes = routes_of(
        alloc,
        holding.nhdp(),
        holding.topology(),
        holding.settings(),
        now,
    )?;
    Ok(false)
}

/// Ends an event at `now`, where `quiet` says what it has left as it was (RFC 7181, sections 16.1, 18 and 19): the advertised rows are
/// renewed, and so is what is wanted of relays and routes. What isn't wanted may then be outdated. After an allocation failure `derived` may
/// only be dropped.
pub(crate) fn end_event<B: Bases>(
    alloc: Global,
    holding: &InformationBases<B>,
    now: u64,
    quiet: Quiet,
    wants: EventWants,
    derived: &mut Derived,
    outdated: &mut Outdated,
) -> Result<(), AllocError>
    requires near { SoundNeighbourhood holding.now.settings now holding.now.bases.neighbourhood }
    requires topology { SoundTopology holding.now.settings now holding.now.bases.topology }
    ensures ends { OnOk result ((before s : State) → IsBeforeEvent outdated.old derived.old quiet holding.now now before → s.settings ≡ holding.now.settings
        → s.bases ≡ holding.now.bases → HasDerived s derived.new → KeepsWanted (Renews before now s.bases) wants outdated.new s) }
    ensures last { OnOk result (derived.new.last ≡ now) }
    ensures sequence { derived.new.sequence ≡ derived.old.sequence }
    ensures next_hello { derived.new.next_hello ≡ derived.old.next_hello }
    ensures next_tc { derived.new.next_tc ≡ derived.old.next_tc }
{
    let near = holding.nhdp();
    let settings = holding.settings();
    renew_rows(alloc, near, settings, now, quiet.near, derived)?;
    let old_relays = outdated.relays | !quiet.near;
    outdated.relays = renew_relays(
        alloc,
        near,
        settings,
        old_relays,
        wants.relays,
        &mut derived.relays,
    )?;
    let old_routes = outdated.routes | !quiet.near | !quiet.advertised;
    outdated.routes = renew_routes(
        alloc,
        holding,
        now,
        old_routes,
        wants.routes,
        &mut derived.routes,
    )?;
    derived.last = now;
    Ok(())
}
