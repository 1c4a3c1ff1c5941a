//! Laws of the definitions.
ghost use Rattle.mesh_dump.specs.Laws.{AlwaysReads, ReadsAsOne, HasOneText};

/// Each line says one thing, and the listing of an input is one text, with its packets written again or without.
pub fn one_text()
    ensures always { AlwaysReads }
    ensures line { ReadsAsOne }
    ensures text { HasOneText }
{}
