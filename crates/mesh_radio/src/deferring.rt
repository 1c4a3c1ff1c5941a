//! A run to the end, in which the routers put relays and routes off.
ghost use Rattle.std.specs.Prelude.{◌≡◌, map, IfOk, OnOk};
ghost use Rattle.mesh_atoms.specs.Sound.{Sound};
ghost use Rattle.mesh_radio.specs.Scene.{AreSoundStates, IsSound, RunsOver};

use crate::scene::Scene;
use crate::step::next_event;
use mesh_core::{Core, DeferredCore, DeferringRouter};
use mesh_expire::Bases;
use std::alloc::{AllocError, Global};

/// Does all events that are left, in which the routers put relays and routes off up to the end. After an allocation failure no routers
/// are left.
pub(crate) fn run_to_end<R: DeferredForm<C>, C: DeferringRouter>(
    alloc: Global,
    cores: &mut Vec<C>,
    scene: &mut Scene,
) -> Result<(), AllocError>
    requires sound { IsSound (map C.state cores.old.items) scene.old }
    ensures { OnOk result (RunsOver (map C.state cores.old.items) scene.old (map C.state cores.new.items) scene.new) }
{
    let whole = std::mem::replace(cores, Vec::new(alloc));
    let mut deferred: Vec<R> = defer_each(alloc, whole)?;
    do_events(alloc, &mut deferred, scene)?;
    *cores = all_whole(alloc, deferred)?;
    Ok(())
}

/// Does all events that are left. After 2^64 - 1 events it gives up as if an allocation had failed.
fn do_events<R: DeferringRouter>(
    alloc: Global,
    routers: &mut Vec<R>,
    scene: &mut Scene,
) -> Result<(), AllocError>
    requires sound { IsSound (map R.state routers.old.items) scene.old }
    requires sounds { AreSoundStates (map R.state routers.old.items) }
    ensures { OnOk result (RunsOver (map R.state routers.old.items) scene.old (map R.state routers.new.items) scene.new) }
{
    for _ in 0..u64::MAX {
        let end = scene.scenario.end;
        let Some(_event) = next_event(alloc, end, routers, scene)? else {
            return Ok(());
        };
    }
    Err(AllocError)
}

/// The form of a router in which it may put relays and routes off.
pub(crate) trait DeferredForm<C: DeferringRouter>: DeferringRouter {
    /// The router in this form.
    fn of_whole(core: C) -> Result<Self, AllocError>
        ensures state { IfOk result (λ deferred. Self.state deferred ≡ C.state core) }
        ensures sound { IfOk result (λ deferred. Sound (Self.state deferred)) };

    /// The router as one that puts nothing off, where its state is sound.
    fn into_whole(self) -> C
        requires { Sound (Self.state self) }
        ensures { C.state result ≡ Self.state self };
}

impl<B: Bases> DeferredForm<Core<B>> for DeferredCore<B> {
    fn of_whole(core: Core<B>) -> Result<DeferredCore<B>, AllocError> {
        core.defer()
    }

    fn into_whole(self) -> Core<B> {
        self.into_core()
    }
}

/// The routers, which may from now on put relays and routes off.
fn defer_each<R: DeferredForm<C>, C: DeferringRouter>(
    alloc: Global,
    cores: Vec<C>,
) -> Result<Vec<R>, AllocError>
    ensures states { IfOk result (λ deferred. map R.state deferred.items ≡ map C.state cores.items) }
    ensures sounds { IfOk result (λ deferred. AreSoundStates (map R.state deferred.items)) }
{
    let mut deferred = Vec::new(alloc);
    for core in cores {
        deferred.push(R::of_whole(core)?)?;
    }
    Ok(deferred)
}

/// The routers as ones that put nothing off.
fn all_whole<R: DeferredForm<C>, C: DeferringRouter>(
    alloc: Global,
    routers: Vec<R>,
) -> Result<Vec<C>, AllocError>
    requires { AreSoundStates (map R.state routers.items) }
    ensures { IfOk result (λ wholes. map C.state wholes.items ≡ map R.state routers.items) }
{
    let mut wholes = Vec::new(alloc);
    for router in routers {
        wholes.push(router.into_whole())?;
    }
    Ok(wholes)
}
