//! The jobs of command lines: what each reads and puts, before the line of a fault is put on `err`.
ghost use Rattle.std.specs.Prelude.{◌≡◌, ◌≤◌, ℕ, List, option_map, IfOk, IfErr};
ghost use Rattle.mesh_atoms.specs.Settings.{IsCount};
ghost use Rattle.std.specs.Option.{option_copied};
ghost use Rattle.mesh_emulate.specs.Wants.{packet_of, wants_of};
ghost use Rattle.mesh_tool.specs.Jobs.Calls.{SinkUse, AirUse, source_use, sink_use, air_use, call_of, IsInput};
ghost use Rattle.mesh_tool.specs.Jobs.Commands.{word_at, packet_in, wants_in};
ghost use Rattle.mesh_tool.specs.Jobs.Commands.{dump_command, run_command, emulate_command, make_command, replay_command, command_of, UsesAir};
ghost use Rattle.mesh_tool.specs.Jobs.Endings.{StopsReading, Leaves, DoesJob, Does};
ghost use Rattle.mesh_tool.specs.Words.CommandLines.{IsJobInRange};
ghost use Rattle.mesh_tool.specs.Words.Words.{texts};

use crate::jobs::ending::Ending;
use crate::jobs::words::word_or;
use crate::words::{Job, Kind, read_words};
use mesh_atoms::{Addr4, Bytes};
use mesh_config::LONGEST_SETTINGS;
use mesh_emulate::{EmulateFault, NamedPacket, Wanted};
use mesh_expire::Bases;
use mesh_io::{Air, Clock, ReadFault, Sink, Source, Stop, read_all};
use mesh_replay::{Replay, ReplayFault};
use mesh_run::RunFault;
use std::alloc::Global;

/// The longest input of `dump` and `replay`, in octets: 64 MiB. Own.
pub const LONGEST_INPUT: usize = 67_108_864;

// The whole input, or why it wasn't read whole.
fn read_input<S: Source>(alloc: Global, input: &mut S, most: usize) -> Result<Bytes, Ending>
    ensures whole { IfOk result (λ octets. IsInput most (source_use S.Source input.old input.new) octets) }
    ensures stopped { IfErr result (λ how. StopsReading most (source_use S.Source input.old input.new) how) }
    ensures later { S.faults input.old ≤ S.faults input.new }
{
    match read_all(alloc, input, most) {
        Ok(octets) => Ok(octets),
        Err(ReadFault::Failed) => Err(Ending::Read),
        Err(ReadFault::TooLong) => Err(Ending::TooLong),
        Err(ReadFault::Memory(_)) => Err(Ending::Memory),
    }
}

// Lists the lines of these octets.
#[tactic(auto, unfolding(crate::specs::Jobs::Endings::Leaves))]
fn list<O: Sink>(alloc: Global, octets: &[u8], recode: bool, out: &mut O) -> Ending
    ensures leaves { Leaves (dump_command recode) octets.now (sink_use O.Sink out.old out.new) result }
    ensures later { O.faults out.old ≤ O.faults out.new }
{
    match mesh_dump::dump(alloc, octets, recode, out) {
        Ok(0) => Ending::Done,
        Ok(_) => Ending::Packets,
        Err(Stop::Write) => Ending::Write,
        Err(Stop::Memory) => Ending::Memory,
    }
}

// The packet, from the router that the word at its place names.
fn packet_in<'a>(words: &'a [String], send: Option<(usize, Addr4)>) -> Option<NamedPacket<'a>>
    ensures { option_map packet_of result ≡ option_map (packet_in (texts words.now)) send }
{
    match send {
        Some((from, dest)) => Some(NamedPacket {
            from: word_or(words, from, b""),
            dest,
        }),
        None => None,
    }
}

// The name that is the word at that place.
fn name_in<'a>(words: &'a [String], place: Option<usize>) -> Option<&'a [u8]>
    ensures { option_copied result ≡ option_map (word_at (texts words.now)) place }
{
    match place {
        Some(place) => Some(word_or(words, place, b"")),
        None => None,
    }
}

// What `emulate` is asked for.
fn wanted<'a>(
    words: &'a [String],
    trace: bool,
    send: Option<(usize, Addr4)>,
    probe: Option<usize>,
) -> Wanted<'a>
    ensures { wants_of result ≡ wants_in (texts words.now) trace send probe }
{
    Wanted {
        trace,
        send: packet_in(words, send),
        probe: name_in(words, probe),
    }
}

// Emulates the network that these octets state.
#[tactic(auto, unfolding(crate::specs::Jobs::Endings::Leaves))]
fn emulate<B: Bases, O: Sink>(alloc: Global, octets: &[u8], wanted: &Wanted, out: &mut O) -> Ending
    ensures leaves { Leaves (emulate_command (wants_of wanted.now)) octets.now
        (sink_use O.Sink out.old out.new) result }
    ensures later { O.faults out.old ≤ O.faults out.new }
{
    match mesh_emulate::emulate::<B, O>(alloc, octets, wanted, out) {
        Ok(()) => Ending::Done,
        Err(EmulateFault::Refused { number, key }) => Ending::Refused { number, key },
        Err(EmulateFault::Stopped(Stop::Write)) => Ending::Write,
        Err(EmulateFault::Stopped(Stop::Memory)) => Ending::Memory,
    }
}

// Runs the router that these octets state.
#[tactic(auto, unfolding(crate::specs::Jobs::Endings::Leaves))]
fn run<B: Bases, O: Sink, A: Air, C: Clock>(
    alloc: Global,
    octets: &[u8],
    turns: u32,
    out: &mut O,
    air: &mut A,
    clock: &mut C,
) -> Ending
    requires { A.attached air.old ≡ 0 }
    ensures leaves { Leaves
        (run_command turns (air_use A.Air C.Clock air.old air.new clock.old clock.new)) octets.now
        (sink_use O.Sink out.old out.new) result }
    ensures uses_air { UsesAir (Job.Run turns)
        (air_use A.Air C.Clock air.old air.new clock.old clock.new) octets.now }
    ensures later { O.faults out.old ≤ O.faults out.new }
    ensures later_air { A.faults air.old ≤ A.faults air.new }
{
    match mesh_run::run::<B, O, A, C>(alloc, octets, turns, out, air, clock) {
        Ok(()) => Ending::Done,
        Err(RunFault::Refused { number, key }) => Ending::Refused { number, key },
        Err(RunFault::Attach { interface }) => Ending::Attach { interface },
        Err(RunFault::Turns { turns, moment, end }) => Ending::Turns { turns, moment, end },
        Err(RunFault::Stopped(Stop::Write)) => Ending::Write,
        Err(RunFault::Stopped(Stop::Memory)) => Ending::Memory,
    }
}

// Emulates a made network.
#[tactic(auto, unfolding(crate::specs::Jobs::Endings::Leaves))]
fn make<B: Bases, O: Sink>(
    alloc: Global,
    kind: Kind,
    routers: usize,
    seed: u64,
    out: &mut O,
) -> Ending
    requires count { IsCount 2 64 routers }
    requires seed { seed ≤ 4294967295 }
    ensures leaves { (octets : List ℕ) → Leaves (make_command kind routers seed) octets
        (sink_use O.Sink out.old out.new) result }
    ensures later { O.faults out.old ≤ O.faults out.new }
{
    match mesh_emulate::make::<B, O>(alloc, kind, routers, seed, out) {
        Ok(()) => Ending::Done,
        Err(Stop::Write) => Ending::Write,
        Err(Stop::Memory) => Ending::Memory,
    }
}

// Says whether the trace that these octets have is that of a run.
#[tactic(auto, unfolding(crate::specs::Jobs::Endings::Leaves))]
fn replay<B: Bases, O: Sink>(alloc: Global, octets: &[u8], out: &mut O) -> Ending
    ensures leaves { Leaves replay_command octets.now (sink_use O.Sink out.old out.new) result }
    ensures later { O.faults out.old ≤ O.faults out.new }
{
    match mesh_replay::replay_input::<B, O>(alloc, octets, out) {
        Ok(Replay::Yes { .. }) => Ending::Done,
        Ok(Replay::No { .. }) => Ending::NotARun,
        Err(ReplayFault::Refused { number, key }) => Ending::Refused { number, key },
        Err(ReplayFault::Stopped(Stop::Write)) => Ending::Write,
        Err(ReplayFault::Stopped(Stop::Memory)) => Ending::Memory,
    }
}

// Does a job with these octets.
fn work_on<B: Bases, O: Sink, A: Air, C: Clock>(
    alloc: Global,
    words: &[String],
    job: Job,
    octets: &[u8],
    out: &mut O,
    air: &mut A,
    clock: &mut C,
) -> Ending
    requires unattached { A.attached air.old ≡ 0 }
    requires range { IsJobInRange job }
    ensures leaves { Leaves (command_of (texts words.now) (air_use A.Air C.Clock air.old air.new clock.old clock.new)
        job) octets.now (sink_use O.Sink out.old out.new) result }
    ensures uses_air { UsesAir job (air_use A.Air C.Clock air.old air.new clock.old clock.new) octets.now }
    ensures later_out { O.faults out.old ≤ O.faults out.new }
    ensures later_air { A.faults air.old ≤ A.faults air.new }
{
    match job {
        Job::Dump { recode } => list(alloc, octets, recode, out),
        Job::Run { turns } => run::<B, O, A, C>(alloc, octets, turns, out, air, clock),
        Job::Emulate { trace, send, probe } => {
            emulate::<B, O>(alloc, octets, &wanted(words, trace, send, probe), out)
        }
        Job::Make {
            kind,
            routers,
            seed,
        } => make::<B, O>(alloc, kind, routers, seed, out),
        Job::Replay => replay::<B, O>(alloc, octets, out),
    }
}

// The most octets that the input of a job may have; `None` where it reads none.
fn most_octets(job: Job) -> Option<usize>
    ensures { (words : List (List ℕ)) (air : AirUse) → result ≡ (command_of words air job).most }
{
    match job {
        Job::Dump { .. } => Some(LONGEST_INPUT),
        Job::Run { .. } => Some(LONGEST_SETTINGS),
        Job::Emulate { .. } => Some(LONGEST_SETTINGS),
        Job::Make { .. } => None,
        Job::Replay => Some(LONGEST_INPUT),
    }
}

// Does a job: its input is read where it has one, and its text is put on `out`.
fn do_job<B: Bases, S: Source, O: Sink, A: Air, C: Clock>(
    alloc: Global,
    words: &[String],
    job: Job,
    input: &mut S,
    out: &mut O,
    air: &mut A,
    clock: &mut C,
) -> Ending
    requires unattached { A.attached air.old ≡ 0 }
    requires range { IsJobInRange job }
    ensures does { (err : SinkUse) → DoesJob job (call_of S.Source O.Sink A.Air C.Clock (texts words.now) (input.old, input.new) (out.old, out.new)
        err (air.old, air.new) (clock.old, clock.new)) result }
    ensures later_input { S.faults input.old ≤ S.faults input.new }
    ensures later_out { O.faults out.old ≤ O.faults out.new }
    ensures later_air { A.faults air.old ≤ A.faults air.new }
{
    match most_octets(job) {
        Some(most) => match read_input(alloc, input, most) {
            Ok(octets) => {
                work_on::<B, O, A, C>(alloc, words, job, octets.as_slice(), out, air, clock)
            }
            Err(how) => how,
        },
        None => work_on::<B, O, A, C>(alloc, words, job, b"", out, air, clock),
    }
}

/// Does what the words ask for: the input is read where the job has one, and the job's text is put on `out`; a router is run over the
/// air, which has no interface yet, and the clock. Nothing is put on `err`.
pub fn do_asked<B: Bases, S: Source, O: Sink, A: Air, C: Clock>(
    alloc: Global,
    words: &[String],
    input: &mut S,
    out: &mut O,
    air: &mut A,
    clock: &mut C,
) -> Ending
    requires { A.attached air.old ≡ 0 }
    ensures does { (err : SinkUse) → Does (call_of S.Source O.Sink A.Air C.Clock (texts words.now) (input.old, input.new) (out.old, out.new)
        err (air.old, air.new) (clock.old, clock.new)) result }
    ensures later_input { S.faults input.old ≤ S.faults input.new }
    ensures later_out { O.faults out.old ≤ O.faults out.new }
    ensures later_air { A.faults air.old ≤ A.faults air.new }
{
    match read_words(words) {
        Ok(job) => do_job::<B, S, O, A, C>(alloc, words, job, input, out, air, clock),
        Err(_) => Ending::Words,
    }
}
