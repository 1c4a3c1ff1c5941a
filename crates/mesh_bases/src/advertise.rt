//! What a router advertises of its neighbours (RFC 7181, section 16.1).
ghost use Rattle.std.specs.Prelude.{◌≡◌, [], OnOk, IfOk};
ghost use Rattle.mesh_atoms.specs.Advertised.{AreTcRows};
ghost use Rattle.mesh_atoms.specs.State.{State};
ghost use Rattle.mesh_bases.specs.Selecting.{selector_metric, IsSelectorBy};
ghost use Rattle.mesh_routes.specs.Passes.{Adds, GivenByElement};

use mesh_atoms::{Addr4, Metric, Neighbour, RouterSettings, Seq, TcRow};
use mesh_nbrs::Near4;
use mesh_topo::{Selector, tc_rows};
use std::alloc::{AllocError, Global};

// The metric to a neighbour, if that is a selector and its metric is known.
fn metric_of(neighbour: &Neighbour) -> Option<Metric>
    ensures { result ≡ selector_metric neighbour.now }
{
    if neighbour.symmetric && neighbour.selector {
        neighbour.metric_out
    } else {
        None
    }
}

// Puts the selector that a neighbour is, if it is one.
fn put_selector(
    selectors: &mut Vec<Selector>,
    originator: Addr4,
    neighbour: &Neighbour,
) -> Result<(), AllocError>
    ensures { OnOk result (Adds (IsSelectorBy originator neighbour.now) selectors.old.items selectors.new.items) }
{
    if let Some(metric) = metric_of(neighbour) {
        let addrs = neighbour.addrs.copy()?;
        selectors.push(Selector {
            originator,
            addrs,
            metric,
        })?;
    }
    Ok(())
}

/// The symmetric neighbours that have chosen the router as a routing relay, and to which the metric is known.
fn selectors_of<N: Near4>(alloc: Global, near: &N) -> Result<Vec<Selector>, AllocError>
    ensures { IfOk result (λ selectors. Adds (GivenByElement (λ e. IsSelectorBy e.0 e.1.0) (N.near near.now).neighbours) [] selectors.items) }
{
    let mut selectors = Vec::new(alloc);
    for place in 0..near.neighbour_count() {
        if let Some((originator, neighbour, _)) = near.neighbour(place) {
            put_selector(&mut selectors, *originator, neighbour)?;
        }
    }
    Ok(selectors)
}

/// The rows that a router with this neighbourhood advertises (RFC 7181, section 16.1): its routing MPR selectors with a metric, and its
/// attached networks. Only an allocation failure refuses.
pub fn advertised_rows<N: Near4>(
    alloc: Global,
    near: &N,
    settings: &RouterSettings,
) -> Result<Seq<TcRow>, AllocError>
    ensures { IfOk result (λ rows. (s : State) → s.settings ≡ settings.now → s.bases.neighbourhood ≡ N.near near.now → AreTcRows s rows) }
{
    let selectors = selectors_of(alloc, near)?;
    tc_rows(alloc, selectors.as_slice(), settings.attached.as_slice())
}

/// The rows that a router without neighbours advertises.
pub(crate) fn own_rows(alloc: Global, settings: &RouterSettings) -> Result<Seq<TcRow>, AllocError>
    ensures { IfOk result (λ rows. (s : State) → s.settings ≡ settings.now → s.bases.neighbourhood.neighbours ≡ [] → AreTcRows s rows) }
{
    tc_rows(alloc, &[], settings.attached.as_slice())
}
