//! What notes of links tell together (RFC 6130, section 12.3).
ghost use Rattle.std.specs.Prelude.{◌≡◌, ◌⊎◌, ◌||◌, Some, max};
ghost use Rattle.mesh_atoms.specs.Words.{IsLeastMetric};
ghost use Rattle.mesh_nbrs.specs.Neighbours.{IsNotesSummary};

use crate::neighbours::LinkNote;
use mesh_atoms::{Metric, least_metric};

/// What notes tell together: whether one is of a SYMMETRIC link, the least metrics of those, and the latest moment.
#[derive(Clone, Copy)]
pub struct Summary {
    pub symmetric: bool,
    pub metric_in: Option<Metric>,
    pub metric_out: Option<Metric>,
    pub until: u64,
}

/// What one note tells.
pub fn summary_of(note: &LinkNote) -> Summary
    ensures { IsNotesSummary (λ n. n ≡ note.now) result }
{
    if note.symmetric {
        Summary {
            symmetric: true,
            metric_in: Some(note.link_in),
            metric_out: note.link_out,
            until: note.until,
        }
    } else {
        Summary {
            symmetric: false,
            metric_in: None,
            metric_out: None,
            until: note.until,
        }
    }
}

/// What two summaries tell together.
pub fn joined(first: &Summary, second: &Summary) -> Summary
    ensures symmetric { result.symmetric ≡ (first.now.symmetric || second.now.symmetric) }
    ensures metric_in { IsLeastMetric (λ m. (first.now.metric_in ≡ Some m) ⊎ (second.now.metric_in ≡ Some m)) result.metric_in }
    ensures metric_out { IsLeastMetric (λ m. (first.now.metric_out ≡ Some m) ⊎ (second.now.metric_out ≡ Some m)) result.metric_out }
    ensures until { result.until ≡ max first.now.until second.now.until }
{
    Summary {
        symmetric: first.symmetric || second.symmetric,
        metric_in: least_metric(first.metric_in, second.metric_in),
        metric_out: least_metric(first.metric_out, second.metric_out),
        until: first.until.max(second.until),
    }
}
