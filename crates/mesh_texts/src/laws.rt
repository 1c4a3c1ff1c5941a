//! What can be read back from texts.
ghost use Rattle.mesh_texts.specs.Laws.{EndsSettled, PrintsRows, PrintsRowsBy};

/// The text of a run can be read back: that it was settled, and the routes under each router's name.
pub fn texts_read_back()
    ensures settled { EndsSettled }
    ensures rows { PrintsRows }
    ensures hops { PrintsRowsBy }
{}
