//! The words of a command line.

mod asked;
mod job;
mod laws;
mod words;

pub use crate::words::job::Job;
pub use crate::words::laws::{command_lines_are_read, faults_are_first};
pub use crate::words::words::read_words;
pub use mesh_emulate::Kind;
