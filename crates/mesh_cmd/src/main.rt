//! The program `mesh`: the standard streams as source and sinks, UDP sockets as the air, the system's clock, and the top call over them.
#![tactic(auto)]

ghost use Rattle.std.specs.Prelude.{◌≡◌, ◌⊎◌, ℕ, List, [], None};
ghost use Rattle.std.specs.Io.Buffered.{writer_buffer};
ghost use Rattle.mesh_cmd.specs.Runs.{Runs, Exits};
ghost use Rattle.mesh_tool.specs.Jobs.Calls.{sink_use};
ghost use Rattle.mesh_tool.specs.Jobs.Endings.{TellsLine};
ghost use Rattle.mesh_tool.specs.Jobs.Lines.{memory_line};
ghost use Rattle.mesh_tool.specs.Words.Words.{texts};

mod adapters;

use adapters::{ReaderSource, Writing};
use mesh_air::{SystemClock, UdpAir};
use mesh_io::{Sink, write_all};
use mesh_tool::{Status, mesh_top};
use std::env;
use std::io::{self, BufWriter, ErrorKind, Write};
use std::process::ExitCode;

// The words of the command line, behind the program's name.
fn words(rt: &HostRuntime) -> io::Result<Vec<String>> {
    let mut all = env::args(rt)?;
    all.next();
    Ok(all.collect(rt.alloc())?)
}

// An allocation failure before the top call.
fn no_memory<E: Sink>(err: &mut E) -> Status
    ensures { TellsLine (sink_use E.Sink err.old err.new) memory_line Status.Memory result }
{
    match write_all(err, b"mesh: memory\n") {
        Ok(()) => Status::Memory,
        Err(_) => Status::Write,
    }
}

// An allocation failure before there is a standard output to put anything on.
fn no_memory_for_out<E: Sink>(err: &mut E) -> Status
    ensures { Runs [] (record { content = None; content' = None; faults = 0; faults' = 0 }) (sink_use E.Sink err.old err.new) result }
{
    no_memory(err)
}

// Runs these words over the standard input, these sinks, UDP sockets and the system's clock.
fn run_words<O: Sink, E: Sink>(
    rt: &HostRuntime,
    words: &[String],
    out: &mut O,
    err: &mut E,
) -> Status
    ensures { Runs (texts words.now) (sink_use O.Sink out.old out.new) (sink_use E.Sink err.old err.new) result }
{
    let mut input = ReaderSource::new(rt.stdin());
    let mut clock = SystemClock::new(rt);
    match UdpAir::new(rt, rt.alloc()) {
        Ok(mut air) => mesh_top(
            rt.alloc(),
            words,
            &mut input,
            out,
            err,
            &mut air,
            &mut clock,
        ),
        Err(_) => no_memory(err),
    }
}

// Runs the words of the command line over these sinks.
fn run<O: Sink, E: Sink>(rt: &HostRuntime, out: &mut O, err: &mut E) -> Status
    ensures { (words : List (List ℕ)) × Runs words (sink_use O.Sink out.old out.new) (sink_use E.Sink err.old err.new) result }
{
    match words(rt) {
        Ok(words) => run_words(rt, words.as_slice(), out, err),
        Err(e) => {
            if e.kind() == ErrorKind::OutOfMemory {
                return no_memory(err);
            }
            // Arguments that aren't text are no command line: the top call is given no words, and says `mesh: words none`.
            run_words(rt, &[], out, err)
        }
    }
}

// Hands over what was gathered; a failure then is one of writing.
fn finish<W: Write + Drop>(out: &mut Writing<BufWriter<W>>, status: Status) -> Status
    ensures status { (result ≡ status) ⊎ (result ≡ Status.Write) }
    ensures handed { (result ≡ Status.Write → ⊥) → writer_buffer out.new.inner ≡ [] }
{
    if out.flush() { status } else { Status::Write }
}

// Runs the program. What is put on the standard output is gathered, and handed over by 8,192 octets, the rest at the end.
fn run_program(rt: &HostRuntime) -> ExitCode
    ensures { Exits result }
{
    let mut err = Writing::new(rt.stderr());
    let status = match BufWriter::new(rt.alloc(), rt.stdout()) {
        Ok(gathering) => {
            let mut out = Writing::new(gathering);
            let status = run(rt, &mut out, &mut err);
            finish(&mut out, status)
        }
        Err(_) => no_memory_for_out(&mut err),
    };
    ExitCode::from(status.code())
}

fn main(rt: HostRuntime) -> ExitCode {
    run_program(&rt)
}
