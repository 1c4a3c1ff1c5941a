//! The parts in which a router's rows are sent (RFC 7181, section 16.1).
ghost use Rattle.std.specs.Prelude.{◌≡◌, ◌<◌, List, length, map, IfOk};
ghost use Rattle.mesh_atoms.specs.declared.tc.TcRow.{TcRow};
ghost use Rattle.mesh_atoms.specs.Advertised.{AreParts};
ghost use Rattle.mesh_topo.specs.Advertised.Spans.{part_of, AreSpans};

use mesh_atoms::Seq;
use std::alloc::{AllocError, Global};

/// A run of rows: the place of its first, counted from 0, and how many there are.
#[derive(Clone, Copy, PartialEq, Eq)]
pub struct PartSpan {
    pub first: usize,
    pub len: usize,
}

/// So many rows cut into runs of `most`, which must be above 0, in order. The last run is shorter where it must be; of no rows
/// there is one run, which is empty. Refuses only where an allocation fails.
pub fn parts(alloc: Global, rows: usize, most: usize) -> Result<Seq<PartSpan>, AllocError>
    requires { 0 < most }
    ensures spans { IfOk result (AreSpans rows most) }
    // Each list of so many rows is cut into its parts by them.
    ensures cuts { IfOk result (λ spans. (list : List TcRow) → length list ≡ rows → AreParts most list (map (part_of list) spans)) }
{
    let mut spans = Seq::new(alloc);
    let mut first = 0;
    while rows - first > most {
        spans.push(PartSpan { first, len: most })?;
        first += most;
    }
    spans.push(PartSpan {
        first,
        len: rows - first,
    })?;
    Ok(spans)
}
