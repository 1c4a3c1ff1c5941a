//! The words of a command line, one after the other.
ghost use Rattle.std.specs.Prelude.{◌≡◌, IfOk};
ghost use Rattle.mesh_tool.specs.Words.CommandLines.{IsJobInRange};
ghost use Rattle.mesh_tool.specs.Words.Words.{words_of, texts};

use crate::words::Job;
use crate::words::asked::{Parsing, job_of, takes};

fn job_in(words: &[String]) -> Result<Job, usize>
    ensures { result ≡ words_of (texts words.now) }
{
    let mut asked = Parsing::Nothing;
    for place in 0..words.len() {
        match takes(asked, place, words[place].as_str()) {
            Some(next) => asked = next,
            None => return Err(place),
        }
    }
    match job_of(asked) {
        Some(job) => Ok(job),
        None => Err(words.len()),
    }
}

/// The job that the words ask for, or the place of the first word at fault, which is the number of words where one is
/// missing. Takes no memory.
pub fn read_words(words: &[String]) -> Result<Job, usize>
    ensures exact { result ≡ words_of (texts words.now) }
    ensures range { IfOk result IsJobInRange }
{
    job_in(words)
}
