//! Laws of command lines.
ghost use Rattle.mesh_tool.specs.Words.CommandLines.{CommandLinesAreRead};
ghost use Rattle.mesh_tool.specs.Words.FirstFault.{FaultsAreFirst};

/// Words are read as a job exactly where they ask for it: its command, and behind it its options, each once, in any order.
pub fn command_lines_are_read()
    ensures { CommandLinesAreRead }
{}

/// Words are refused exactly at the first word at fault: all words before it begin a command line, and with it none does, or
/// all words begin one and a word is missing.
pub fn faults_are_first()
    ensures { FaultsAreFirst }
{}
