//! The program's top call: it reads the words of a command line, does the job that they ask for, and answers a status.
#![tactic(auto)]

mod answers;
mod jobs;
mod top;
mod words;

pub use answers::top_over;
pub use jobs::{Ending, Status, do_asked, tell};
pub use top::mesh_top;
pub use words::{Job, Kind, command_lines_are_read, faults_are_first, read_words};
