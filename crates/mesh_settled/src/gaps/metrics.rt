//! The metric from one router to another, by the radio graph.
ghost use Rattle.std.specs.Prelude.{◌≡◌, length};
ghost use Rattle.mesh_atoms.specs.Words.{IsValue};
ghost use Rattle.mesh_atoms.specs.Radio.{IsRadioGraph, IsMetric};
ghost use Rattle.mesh_settled.specs.Gaps.Metrics.{less, cheaper, IsLeastMetricOf};

use crate::gaps::site::RouterAt;
use mesh_atoms::{Metric, Pair};

// The metric of the lesser cost.
fn less(best: Option<Metric>, metric: Metric) -> Option<Metric>
    ensures { result ≡ less best metric }
{
    match best {
        Some(least) => {
            if metric.value() < least.value() {
                Some(metric)
            } else {
                best
            }
        }
        None => Some(metric),
    }
}

// The least metric, with one more pair, which may lead from router y to router z.
fn cheaper(best: Option<Metric>, y: usize, z: usize, pair: &Pair) -> Option<Metric>
    ensures { result ≡ cheaper best y z pair.now }
{
    if pair.from == y && pair.to == z {
        less(best, pair.metric)
    } else {
        best
    }
}

// The least metric of the pairs from router y to router z.
fn cheapest(pairs: &[Pair], y: usize, z: usize) -> Option<Metric>
    ensures { IsLeastMetricOf pairs.now y z (length pairs.now) result }
{
    let mut best = None;
    for k in 0..pairs.len() {
        best = cheaper(best, y, z, &pairs[k]);
    }
    best
}

/// The metric from router y to router z, where they are adjacent.
pub fn metric_to<R>(site: &RouterAt<'_, R>, y: usize, z: usize) -> Option<Metric>
    requires { IsRadioGraph site.now.scenario.now site.now.graph.now }
    ensures { IsValue (IsMetric site.entry.now.scenario.now y z) result }
{
    cheapest(site.graph.pairs.as_slice(), y, z)
}
