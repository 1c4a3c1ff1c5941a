//! Laws of gaps, over the definitions alone.
ghost use Rattle.mesh_settled.specs.Gaps.Law.{NoGapIsSettled, GapsDiffer};

/// In a network of sound routers, a router is settled exactly where it has no gap at any key. It does nothing.
pub fn no_gap_is_settled()
    ensures { NoGapIsSettled }
{}

/// The two values of a gap differ. It does nothing.
pub fn gaps_differ()
    ensures { GapsDiffer }
{}
