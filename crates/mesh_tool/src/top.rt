//! The top call, over indexed tables.
ghost use Rattle.std.specs.Prelude.{◌≡◌};
ghost use Rattle.mesh_tool.specs.Answers.Answers.{Answers};
ghost use Rattle.mesh_tool.specs.Answers.Laws.{ProgramLaws};
ghost use Rattle.mesh_tool.specs.Jobs.Calls.{call_of, sink_use};
ghost use Rattle.mesh_tool.specs.Words.Words.{texts};

use crate::answers::top_over;
use crate::jobs::Status;
use mesh_expire::IndexedBases;
use mesh_io::{Air, Clock, Sink, Source};
use std::alloc::Global;

/// The program: `top_over` over indexed tables.
pub fn mesh_top<S: Source, O: Sink, E: Sink, A: Air, C: Clock>(
    alloc: Global,
    words: &[String],
    input: &mut S,
    out: &mut O,
    err: &mut E,
    air: &mut A,
    clock: &mut C,
) -> Status
    requires { A.attached air.old ≡ 0 }
    // What is answered, and what then stands on `out` and `err`.
    ensures answers { Answers (call_of S.Source O.Sink A.Air C.Clock (texts words.now) (input.old, input.new) (out.old, out.new)
        (sink_use E.Sink err.old err.new) (air.old, air.new) (clock.old, clock.new)) result }

    // What holds of every emulation, trip, probe, run of a router, made network and trace.
    ensures laws { ProgramLaws }
{
    top_over::<IndexedBases, S, O, E, A, C>(alloc, words, input, out, err, air, clock)
}
