//! A law of the definitions.
ghost use Rattle.mesh_addr.specs.Laws.{HasOneLeast};

/// An address block has at most one least spelling.
pub fn one_least()
    ensures { HasOneLeast }
{}
