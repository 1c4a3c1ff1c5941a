//! The jobs of command lines: what the words ask for is done, and the line of a fault is put on `err`.

mod ending;
mod jobs;
mod say;
mod status;
mod words;

pub use crate::jobs::ending::Ending;
pub use crate::jobs::jobs::do_asked;
pub use crate::jobs::say::tell;
pub use crate::jobs::status::Status;
