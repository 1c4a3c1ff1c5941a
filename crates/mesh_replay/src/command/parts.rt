//! The scenario and the trace of an input.
ghost use Rattle.std.specs.Prelude.{◌≡◌, ◌∷◌, ℕ, List, codes, IfOk};
ghost use Rattle.mesh_replay.specs.Command.Parts.{IsRuled};
ghost use Rattle.mesh_replay.specs.Command.Split.{BeginsWithRule, IsSplitOrNot};

use crate::command::marks::{Mark, front};
use std::alloc::{AllocError, Global};

/// The parts of an input.
#[derive(Clone, Copy)]
pub(crate) struct Parts<'a> {
    pub(crate) scenario: &'a [u8],
    pub(crate) trace: &'a [u8],
}

// What stands behind the line `---` with which a text begins.
fn behind_rule(text: &[u8]) -> &[u8]
    requires { BeginsWithRule text.now }
    ensures { IsRuled text.now result.now }
{
    if text.len() > 3 { &text[4..] } else { b"" }
}

/// The scenario and the trace of an input; `None` exactly where no line is `---`.
pub(crate) fn parts_of<'a>(alloc: Global, input: &'a [u8]) -> Result<Option<Parts<'a>>, AllocError>
    ensures { IfOk result (IsSplitOrNot input.now) }
{
    let end = match front(alloc, input, Mark::Rule) {
        Ok(end) => end,
        Err(e) => return Err(e),
    };
    if end == input.len() {
        return Ok(None);
    }
    let behind = behind_rule(&input[end..]);
    match front(alloc, behind, Mark::Report) {
        Ok(trace_end) => Ok(Some(Parts {
            scenario: &input[..end],
            trace: &behind[..trace_end],
        })),
        Err(e) => Err(e),
    }
}
