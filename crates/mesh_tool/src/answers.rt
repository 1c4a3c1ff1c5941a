//! The program's top call over any bases, and what it answers: it reads the words of a command line, does the job that they ask for, and
//! answers a status.

mod top;

pub use crate::answers::top::top_over;
