//! The lines that end the parts of an input, and the places where the parts end.
ghost use Rattle.std.specs.Prelude.{◌≡◌, ◌≤◌, length, take, drop, IfOk};
ghost use Rattle.mesh_replay.specs.Command.Marks.{IsMarkLine, word_of, TellsNext};
ghost use Rattle.mesh_replay.specs.Command.Parts.{IsCutAt};
ghost use Rattle.mesh_trace.specs.Reading.Readers.{IsReaderOf};

use mesh_trace::Reader;
use std::alloc::{AllocError, Global};

/// A kind of lines: `Rule`, the line `---`, which ends the scenario; `Report`, a line that begins with `emulate `, which ends the trace.
#[derive(Clone, Copy)]
pub(crate) enum Mark {
    Rule,
    Report,
}

// What such a line begins with.
fn word(mark: Mark) -> &'static [u8]
    ensures { result.now ≡ word_of mark }
{
    match mark {
        Mark::Rule => b"---",
        Mark::Report => b"emulate ",
    }
}

// Whether the next line is of that kind, where the reader looks for what such a line begins with.
fn is_next(reader: &Reader, text: &[u8], mark: Mark) -> bool
    requires reading { IsReaderOf text.now reader.now }
    requires word { reader.now.text ≡ word_of mark }
    ensures { TellsNext mark text.now reader.now result }
{
    match reader.rest(text) {
        Some(rest) => match mark {
            Mark::Rule => rest.is_empty(),
            Mark::Report => true,
        },
        None => false,
    }
}

/// How many octets stand in front of the first line of that kind; all where there is none.
pub(crate) fn front(alloc: Global, text: &[u8], mark: Mark) -> Result<usize, AllocError>
    ensures within { IfOk result (λ end. end ≤ length text.now) }
    ensures cut { IfOk result (λ end. IsCutAt (IsMarkLine mark) text.now (take end text.now) (drop end text.now)) }
{
    let mut reader = Reader::new(alloc);
    reader.text.clear();
    reader.text.append(word(mark))?;
    while !reader.is_done(text) {
        if is_next(&reader, text, mark) {
            return Ok(reader.at);
        }
        reader.take(text);
    }
    Ok(reader.at)
}
