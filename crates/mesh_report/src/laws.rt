//! Laws of the definitions.
ghost use Rattle.mesh_report.specs.Laws.{ReadsInOneWay, HasOneListing};

/// A message reads in one way, and a line has one listing.
pub fn one_listing()
    ensures reading { ReadsInOneWay }
    ensures listing { HasOneListing }
{}
