//! The command: an input is answered, and the answer told.
ghost use Rattle.std.specs.Prelude.{◌≡◌, ◌≤◌, ℕ, List, Err, IfOk};
ghost use Rattle.std.specs.Io.KnownBytes.{Keeps};
ghost use Rattle.mesh_io.specs.Pieces.{MakesOne, PutsAll, PutsFront, PutsSome, PutsPieces};
ghost use Rattle.mesh_replay.specs.declared.command.input.ReplayFault.TheVariants.{Refused, Stopped};
ghost use Rattle.mesh_replay.specs.Command.Replays.{Replays, IsRefusedInput, IsAnswerText};
ghost use Rattle.mesh_replay.specs.Command.Tells.{IsUnanswered};

use crate::answer::Replay;
use crate::command::answer::{answer_to, put_answer};
use mesh_atoms::Bytes;
use mesh_config::ConfigFault;
use mesh_expire::Bases;
use mesh_io::{Sink, Stop, write_all};
use std::alloc::Global;

/// Why an input isn't answered: it is refused, with the number and the key of the first refusal; or the answer couldn't be made or told.
#[derive(Drop)]
pub enum ReplayFault {
    Refused { number: u8, key: Bytes },
    Stopped(Stop),
}

// Tells the answer to an input, by one write.
fn tell<O: Sink>(alloc: Global, answer: Replay, out: &mut O) -> Result<Replay, Stop>
    ensures leaves { (input : List ℕ) → Replays input answer → PutsPieces (MakesOne (IsAnswerText input))
        (O.content out.old) (O.content out.new) (O.faults out.old) (O.faults out.new) result }
    ensures later { O.faults out.old ≤ O.faults out.new }
{
    let mut text = Bytes::new(alloc);
    match put_answer(&mut text, answer) {
        Ok(()) => {}
        Err(_) => return Err(Stop::Memory),
    }
    match write_all(out, text.as_slice()) {
        Ok(()) => Ok(answer),
        Err(_) => Err(Stop::Write),
    }
}

// Why an input isn't answered.
fn unanswered(fault: ConfigFault) -> ReplayFault
    ensures { IsUnanswered fault result }
{
    match fault {
        ConfigFault::Refused { number, key } => ReplayFault::Refused { number, key },
        ConfigFault::Memory(_) => ReplayFault::Stopped(Stop::Memory),
    }
}

/// Checks the trace of an input against the network of its scenario, with routers over these bases, and tells the answer on `out` by one
/// write.
pub fn replay_input<B: Bases, O: Sink>(
    alloc: Global,
    input: &[u8],
    out: &mut O,
) -> Result<Replay, ReplayFault>
    // The line of the answer to the input was put on `out`.
    ensures answered { IfOk result (PutsAll (MakesOne (IsAnswerText input.now)) (O.content out.old) (O.content out.new)) }

    // An input that is answered isn't refused.
    ensures taken { IfOk result (λ answer. (number : ℕ) (key : List ℕ) → IsRefusedInput input.now number key → ⊥) }

    // The input is refused, with that number and key.
    ensures refused { (number : ℕ) (key : List ℕ) → result ≡ Err (Refused number key) → IsRefusedInput input.now number key }

    // Nothing was put on `out` for an input that is refused.
    ensures kept { (number : ℕ) (key : List ℕ) → result ≡ Err (Refused number key) → Keeps (O.content out.old) (O.content out.new) }

    // The sink counted a fault; a prefix of the line of the answer was put on `out`.
    ensures write { result ≡ Err (Stopped Stop.Write) → PutsFront (MakesOne (IsAnswerText input.now))
        (O.content out.old) (O.content out.new) (O.faults out.old) (O.faults out.new) }

    // Nothing was put on `out`.
    ensures memory { result ≡ Err (Stopped Stop.Memory) → PutsSome (MakesOne (IsAnswerText input.now))
        (O.content out.old) (O.content out.new) }
    ensures later { O.faults out.old ≤ O.faults out.new }
{
    let answer = match answer_to::<B>(alloc, input) {
        Ok(answer) => answer,
        Err(fault) => return Err(unanswered(fault)),
    };
    match tell(alloc, answer, out) {
        Ok(answer) => Ok(answer),
        Err(stop) => Err(ReplayFault::Stopped(stop)),
    }
}
