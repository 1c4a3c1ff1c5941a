//! How many routes there are, and how great their metrics are.
ghost use Rattle.std.specs.Prelude.{◌≡◌, ◌++◌, ◌∷◌, [], ◌≤◌, ℕ, List, length, map};
ghost use Rattle.mesh_emulate.specs.Making.Routes.{metrics_of, IsGreatest};

use mesh_atoms::Route;
use mesh_radio::RouterView;

// The greater of the metric and the greatest one so far.
fn greater(greatest: Option<u64>, metric: u64) -> Option<u64>
    ensures { (metrics : List ℕ) → IsGreatest metrics greatest → IsGreatest (metrics ++ metric ∷ []) result }
{
    match greatest {
        Some(greatest) => Some(u64::max(greatest, metric)),
        None => Some(metric),
    }
}

// The greatest metric of these routes and those before, the greatest of which is this.
fn greatest_with(greatest: Option<u64>, routes: &[Route]) -> Option<u64>
    ensures { (metrics : List ℕ) → IsGreatest metrics greatest → IsGreatest (metrics ++ map (λ r. r.metric) routes.now) result }
{
    let mut all = greatest;
    for route in routes {
        all = greater(all, route.metric);
    }
    all
}

/// The greatest metric of the routes of all routers; `None` where there is none.
pub fn greatest_of<R: RouterView>(routers: &[R]) -> Option<u64>
    ensures { IsGreatest (metrics_of (map R.state routers.now)) result }
{
    let mut greatest = None;
    for router in routers {
        greatest = greatest_with(greatest, router.routes());
    }
    greatest
}

/// How many routes at most 64 routers have.
pub fn route_count<R: RouterView>(routers: &[R]) -> u64
    requires { length routers.now ≤ 64 }
    ensures { result ≡ length (metrics_of (map R.state routers.now)) }
{
    let mut count = 0;
    for router in routers {
        count += router.routes().len() as u64;
    }
    count
}
