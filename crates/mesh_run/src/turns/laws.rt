//! What the turns of every router are.
ghost use Rattle.mesh_run.specs.Turns.Laws.{TurnsAreRuns, TurnsKeepSound};

/// Whatever a clock and an air tell, a router comes through its turns by a run of its machine: it hears the frames that the air told,
/// and what it sends is handed over, each in order. So it is sound.
pub fn turns_are_runs()
    ensures runs { TurnsAreRuns }
    ensures sound { TurnsKeepSound }
{}
