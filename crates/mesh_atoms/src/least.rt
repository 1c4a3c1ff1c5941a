//! The least of link metrics.
ghost use Rattle.std.specs.Prelude.{◌≡◌, ◌⊎◌, Some};
ghost use Rattle.mesh_atoms.specs.Words.{IsLeastMetric};

use crate::Metric;

/// The least of the metrics that there are of two.
pub fn least_metric(first: Option<Metric>, second: Option<Metric>) -> Option<Metric>
    ensures { IsLeastMetric (λ m. (first ≡ Some m) ⊎ (second ≡ Some m)) result }
{
    match (first, second) {
        (Some(a), Some(b)) => {
            if a.value() <= b.value() {
                first
            } else {
                second
            }
        }
        (None, _) => second,
        _ => first,
    }
}
