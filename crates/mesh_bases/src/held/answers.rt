//! What becomes of a message, by what the bases answered (RFC 7181, section 14).
ghost use Rattle.std.specs.Prelude.{◌≡◌};
ghost use Rattle.mesh_atoms.specs.declared.tc.Tc.{Tc as TcValue};
ghost use Rattle.mesh_atoms.specs.TakesHello.{HelloAnswer};
ghost use Rattle.mesh_nhdp.specs.Judged.{IsAnswer};
ghost use Rattle.mesh_topo.specs.Answers.{answer_of};
ghost use Rattle.mesh_machine.specs.Messages.{only, hello_read, tc_read, is_processed, other_read};

use mesh_flood::{Forward, Process};
use mesh_machine::{Fate, Read};
use mesh_nhdp::HelloTaken;
use mesh_topo::TcTaken;

/// The fate of a message that breaks the rule of that number.
pub(crate) fn broken(number: u8) -> Fate
    ensures { result ≡ only (Read.Broken number) }
{
    Fate {
        read: Read::Broken(number),
        forward: Forward::NotFlooded,
    }
}

/// What is made of a HELLO that breaks no rule of its own.
pub(crate) fn hello_read(taken: HelloTaken) -> Read
    ensures { (answer : HelloAnswer) → IsAnswer taken answer → result ≡ hello_read answer }
{
    match taken {
        HelloTaken::Done => Read::Hello,
        HelloTaken::Broken(number) => Read::Broken(number),
        HelloTaken::Full(base) => Read::Full(base),
    }
}

/// What is made of a TC that is processed.
pub(crate) fn tc_read(taken: TcTaken, given: u16) -> Read
    ensures { (tc : TcValue) → tc.ansn ≡ given → result ≡ tc_read tc (answer_of taken) }
{
    match taken {
        TcTaken::Done => Read::Topology,
        TcTaken::Old { kept } => Read::Old { kept, given },
        TcTaken::Full(base) => Read::Full(base),
    }
}

/// Whether a TC counts as processed.
pub(crate) fn is_processed(taken: TcTaken) -> bool
    ensures { result ≡ is_processed (answer_of taken) }
{
    !matches!(taken, TcTaken::Full(_))
}

/// What is made of a message of another type.
pub(crate) fn other_read(process: Process) -> Read
    ensures { result ≡ other_read process }
{
    match process {
        Process::Own => Read::Passed(Process::Own),
        _ => Read::Other,
    }
}
