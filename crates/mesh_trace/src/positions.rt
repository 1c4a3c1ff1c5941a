//! The laws of traces, over the definitions.
ghost use Rattle.mesh_trace.specs.Positions.Laws.{
  MessagesAreFixed,
  LeadsAlike,
  LeadsFromAlike,
  PositionsAreSound,
  PositionsHaveAddresses,
  AllElseIsFixed,
  OneDecidesFit,
  OneDecidesEnd,
  UnfitIsNotWhole,
  OneUnfit,
  NothingFollows,
  NoneIsLonger,
  HasSomeLine,
  RunsAreWhole,
  WholeTracesAreRuns,
  WholeExactlyForRuns,
};

/// What the messages of a frame leave is fixed but for the order of tuples, and so is what they forward. A line leads on from a position
/// where it does from one that is alike, and leads from both to positions that are alike.
pub fn lines_lead_alike()
    ensures messages { MessagesAreFixed }
    ensures from { LeadsFromAlike }
    ensures alike { LeadsAlike }
{}

/// Wherever lines lead, the bases of each router are sound, and its neighbours have addresses of 32 bits; and all else of a run than what
/// its lines tell is fixed, but for the order of tuples and for routes: so one position decides which line may come next, and whether
/// the trace is whole. Lines with a first one that doesn't fit are no whole trace, and there is one such line at most.
pub fn all_else_is_fixed()
    ensures sound { PositionsAreSound }
    ensures addresses { PositionsHaveAddresses }
    ensures fixed { AllElseIsFixed }
    ensures fit { OneDecidesFit }
    ensures end { OneDecidesEnd }
    ensures unfit { UnfitIsNotWhole }
    ensures one { OneUnfit }
{}

/// Behind a whole trace no line fits, so that no trace is whole with lines more; and the whole trace of a network that has routers has lines.
pub fn whole_traces_end()
    ensures follows { NothingFollows }
    ensures longer { NoneIsLonger }
    ensures some { HasSomeLine }
{}

/// The trace of each run of a network from its opening to its end is whole.
pub fn runs_are_whole()
    ensures { RunsAreWhole }
{}

/// Each whole trace is, line by line, the trace of a run of the network from its opening to its end; so the whole traces are exactly the
/// traces of such runs.
pub fn whole_traces_are_runs()
    ensures run { WholeTracesAreRuns }
    ensures exactly { WholeExactlyForRuns }
{}
