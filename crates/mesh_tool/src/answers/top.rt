//! The top call, over any bases.
ghost use Rattle.std.specs.Prelude.{◌≡◌};
ghost use Rattle.mesh_tool.specs.Answers.Answers.{Answers};
ghost use Rattle.mesh_tool.specs.Answers.Laws.{ProgramLaws};
ghost use Rattle.mesh_tool.specs.Jobs.Calls.{call_of, sink_use};
ghost use Rattle.mesh_tool.specs.Words.Words.{texts};

use crate::jobs::{Status, do_asked, tell};
use mesh_emulate::{emulations_tell, made_networks_tell};
use mesh_expire::Bases;
use mesh_io::{Air, Clock, Sink, Source};
use mesh_replay::traces_are_runs;
use mesh_run::turns_are_runs;
use std::alloc::Global;

/// All that the program does, with routers over these bases: it reads the words, then the input, and writes the text of the job on
/// `out` and the line of a fault on `err`; a router is run over the air, which has no interface yet, and the clock. An allocation failure
/// may be answered in place of each other status but that of wrong words and of an input of which one octet more than its job takes
/// was taken, and a failed write of a fault's line in place of that fault's status.
pub fn top_over<B: Bases, S: Source, O: Sink, E: Sink, A: Air, C: Clock>(
    alloc: Global,
    words: &[String],
    input: &mut S,
    out: &mut O,
    err: &mut E,
    air: &mut A,
    clock: &mut C,
) -> Status
    requires { A.attached air.old ≡ 0 }
    ensures answers { Answers (call_of S.Source O.Sink A.Air C.Clock (texts words.now) (input.old, input.new) (out.old, out.new)
        (sink_use E.Sink err.old err.new) (air.old, air.new) (clock.old, clock.new)) result }

    ensures laws { ProgramLaws }
{
    emulations_tell();
    made_networks_tell();
    turns_are_runs();
    traces_are_runs();
    let how = do_asked::<B, S, O, A, C>(alloc, words, input, out, air, clock);
    tell(err, words, &how)
}
