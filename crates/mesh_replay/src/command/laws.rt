//! Laws of traces and inputs, and inputs worked by hand.
ghost use Rattle.mesh_trace.specs.Positions.Laws.{WholeExactlyForRuns};
ghost use Rattle.mesh_replay.specs.Command.Laws.{SplitsOnce, SplitsAtRule, AnswersOrRefuses};
ghost use Rattle.mesh_replay.specs.Command.Worked.{ManyLines, NoRules, Reports, EmptyTraces, EmptyScenarios};

/// Lines are a whole trace exactly where they are those of the trace of a run of the scenario's network, from its opening to its end.
pub fn traces_are_runs()
    ensures { WholeExactlyForRuns }
{}

/// An input is split into a scenario and a trace in one way, or in none where no line is `---`; none is both answered and refused.
pub fn inputs_split_once()
    ensures once { SplitsOnce }
    ensures rule { SplitsAtRule }
    ensures apart { AnswersOrRefuses }
{}

/// Inputs and their parts, worked by hand: several lines `---`, none, the report behind the trace, and parts that are empty.
pub fn worked_inputs_are_split()
    ensures lines { ManyLines }
    ensures none { NoRules }
    ensures reports { Reports }
    ensures traces { EmptyTraces }
    ensures scenarios { EmptyScenarios }
{}
