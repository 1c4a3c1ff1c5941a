//! The lines that tell a fault.
ghost use Rattle.std.specs.Prelude.{◌≡◌, ◌≤◌, ◌++◌, codes, map};
ghost use Rattle.std.specs.List.{concat};
ghost use Rattle.mesh_tool.specs.Jobs.Calls.{sink_use};
ghost use Rattle.mesh_tool.specs.Jobs.Endings.{TellsLine, TellsEnding};
ghost use Rattle.mesh_tool.specs.Jobs.Lines.{words_line, refused_line, refusal_name, attach_line, turns_line};
ghost use Rattle.mesh_tool.specs.Words.Words.{texts, word_at_fault};

use crate::jobs::Status;
use crate::jobs::ending::Ending;
use crate::jobs::words::word_or;
use crate::words::read_words;
use itoa::Buffer;
use mesh_config::refusal;
use mesh_io::{Sink, write_all};

// The first word at fault.
fn faulty_word(words: &[String]) -> &[u8]
    ensures { result.now ≡ word_at_fault (texts words.now) }
{
    match read_words(words) {
        Ok(_) => word_or(words, 0, b"none"),
        Err(place) => word_or(words, place, b"none"),
    }
}

// The name of a refusal, between blanks.
#[tactic(auto, unfolding(crate::specs::Jobs::Lines::refusal_name))]
fn name(number: u8) -> &'static [u8]
    ensures { result.now ≡ codes " " ++ refusal_name number ++ codes " " }
{
    match number {
        refusal::NOT_TOML => b" NotToml ",
        refusal::MISSING => b" Missing ",
        refusal::BAD_VALUE => b" BadValue ",
        refusal::DUPLICATE => b" Duplicate ",
        refusal::TOO_MANY => b" TooMany ",
        refusal::UNKNOWN_NAME => b" UnknownName ",
        refusal::UNKNOWN_KEY => b" UnknownKey ",
        _ => b" TooLong ",
    }
}

// Writes the pieces of a line in order, and answers the status that is due, or that of a failed write.
fn tell_line<E: Sink>(err: &mut E, pieces: &[&[u8]], due: Status) -> Status
    ensures tells { TellsLine (sink_use E.Sink err.old err.new)
        (concat (map (λ piece. piece.now) pieces.now)) due result }
    ensures later { E.faults err.old ≤ E.faults err.new }
{
    for piece in pieces {
        match write_all(err, piece) {
            Ok(()) => {}
            Err(_) => return Status::Write,
        }
    }
    due
}

fn tell_words<E: Sink>(err: &mut E, words: &[String]) -> Status
    ensures tells { TellsLine (sink_use E.Sink err.old err.new)
        (words_line (texts words.now)) Status.Words result }
    ensures later { E.faults err.old ≤ E.faults err.new }
{
    tell_line(
        err,
        &[b"mesh: words ", faulty_word(words), b"\n"],
        Status::Words,
    )
}

// Tells a refusal by the digits of its number, its name between blanks, and its key.
fn tell_refused<'a, E: Sink>(err: &mut E, digits: &'a [u8], name: &'a [u8], key: &'a [u8]) -> Status
    ensures tells { TellsLine (sink_use E.Sink err.old err.new)
        (codes "mesh: refused " ++ (digits.now ++ (name.now ++ (key.now ++ codes "\n")))) Status.Refused result }
    ensures later { E.faults err.old ≤ E.faults err.new }
{
    tell_line(
        err,
        &[b"mesh: refused ", digits, name, key, b"\n"],
        Status::Refused,
    )
}

fn tell_refusal<E: Sink>(err: &mut E, number: u8, key: &[u8]) -> Status
    ensures tells { TellsLine (sink_use E.Sink err.old err.new)
        (refused_line number key.now) Status.Refused result }
    ensures later { E.faults err.old ≤ E.faults err.new }
{
    let mut digits = Buffer::new();
    tell_refused(err, digits.format(number).as_bytes(), name(number), key)
}

fn tell_attach<E: Sink>(err: &mut E, interface: usize) -> Status
    ensures tells { TellsLine (sink_use E.Sink err.old err.new)
        (attach_line interface) Status.Attach result }
    ensures later { E.faults err.old ≤ E.faults err.new }
{
    let mut digits = Buffer::new();
    tell_line(
        err,
        &[b"mesh: attach ", digits.format(interface).as_bytes(), b"\n"],
        Status::Attach,
    )
}

fn tell_turns<E: Sink>(err: &mut E, turns: u32, moment: u64, end: u64) -> Status
    ensures tells { TellsLine (sink_use E.Sink err.old err.new)
        (turns_line turns moment end) Status.Turns result }
    ensures later { E.faults err.old ≤ E.faults err.new }
{
    let mut turns_digits = Buffer::new();
    let mut moment_digits = Buffer::new();
    let mut end_digits = Buffer::new();
    tell_line(
        err,
        &[
            b"mesh: turns ",
            turns_digits.format(turns).as_bytes(),
            b" moment ",
            moment_digits.format(moment).as_bytes(),
            b" below ",
            end_digits.format(end).as_bytes(),
            b"\n",
        ],
        Status::Turns,
    )
}

/// Tells how a job of these words ended: a fault's line is put on `err`. Answers the status that is due, or that of a failed
/// write of that line. Takes no memory.
pub fn tell<E: Sink>(err: &mut E, words: &[String], how: &Ending) -> Status
    ensures tells { TellsEnding (texts words.now) (sink_use E.Sink err.old err.new) how.now result }
    ensures later { E.faults err.old ≤ E.faults err.new }
{
    match how {
        Ending::Done => Status::Done,
        Ending::Packets => Status::Packets,
        Ending::NotARun => Status::NotARun,
        Ending::Words => tell_words(err, words),
        Ending::Read => tell_line(err, &[b"mesh: read fault\n"], Status::Read),
        Ending::TooLong => tell_refusal(err, refusal::TOO_LONG, b"input"),
        Ending::Refused { number, key } => tell_refusal(err, *number, key.as_slice()),
        Ending::Attach { interface } => tell_attach(err, *interface),
        Ending::Turns { turns, moment, end } => tell_turns(err, *turns, *moment, *end),
        Ending::Write => Status::Write,
        Ending::Memory => tell_line(err, &[b"mesh: memory\n"], Status::Memory),
    }
}
