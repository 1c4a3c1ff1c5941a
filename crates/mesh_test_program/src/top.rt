//! The top call over streams, an air and a clock in memory.
ghost use Rattle.std.specs.Prelude.{◌≡◌, IfOk};

use crate::octets::LONE;
use crate::{runs, streams};
use mesh_atoms::{Addr4, Bytes, Seq};
use mesh_expire::NoBases;
use mesh_io::{AirFails, AirRoom, MemAir, MemClock, MemEar, MemSink, MemSource};
use mesh_tool::{mesh_top, top_over};
use std::alloc::{AllocError, Global};
use std::process::Abort;
use std::test::Fail;

/// Whether tables hold what they are told, or nothing.
#[derive(Clone, Copy)]
pub(crate) enum Over {
    Indexes,
    Nothing,
}

/// What the first interface hears, before it is silent.
#[derive(Clone, Copy)]
pub(crate) enum Script {
    Nothing,
    Hello,
    HelloAndRefused,
}

/// What is shown, and over which tables; the words and the input; what is heard, and the moments that the clock tells; the calls that
/// fail, of the source and of out, and of attaching, hearing and sending; and what comes of it: the status, and what stands on out and
/// on err.
#[derive(Clone, Copy)]
pub(crate) struct Case {
    pub(crate) name: &'static str,
    pub(crate) over: Over,
    pub(crate) words: &'static [&'static str],
    pub(crate) input: &'static str,
    pub(crate) script: Script,
    pub(crate) moments: &'static [u64],
    pub(crate) takes: &'static [u64],
    pub(crate) puts: &'static [u64],
    pub(crate) attaches: &'static [u64],
    pub(crate) hears: &'static [u64],
    pub(crate) sends: &'static [u64],
    pub(crate) status: u8,
    pub(crate) out: &'static str,
    pub(crate) err: &'static str,
}

/// One in which nothing fails and nothing is heard.
pub(crate) const QUIET: Case = Case {
    name: "",
    over: Over::Indexes,
    words: &[],
    input: "",
    script: Script::Nothing,
    moments: &[0, 8192, 16384],
    takes: &[],
    puts: &[],
    attaches: &[],
    hears: &[],
    sends: &[],
    status: 0,
    out: "",
    err: "",
};

/// What the top call reads and writes.
#[derive(Drop)]
struct Streams {
    input: MemSource,
    out: MemSink,
    err: MemSink,
}

/// What else it is handed.
#[derive(Drop)]
struct Others {
    words: Vec<String>,
    air: MemAir,
    clock: MemClock,
}

fn strings(alloc: Global, words: &[&str]) -> Result<Vec<String>, AllocError> {
    let mut strings = Vec::new(alloc);
    for word in words {
        strings.push(String::from_str(alloc, *word)?)?;
    }
    Ok(strings)
}

fn list_of<T: Copy>(alloc: Global, items: &[T]) -> Result<Seq<T>, AllocError> {
    Ok(Seq::from_vec(Vec::from_slice(alloc, items)?))
}

fn text(alloc: Global, octets: &[u8]) -> Result<Bytes, AllocError> {
    Ok(Bytes::from_vec(Vec::from_slice(alloc, octets)?))
}

fn source(alloc: Global, input: &str, fails: &[u64]) -> Result<MemSource, AllocError> {
    let fails = list_of(alloc, fails)?;
    Ok(MemSource::new(text(alloc, input.as_bytes())?, fails))
}

fn sink(alloc: Global, fails: &[u64]) -> Result<MemSink, AllocError> {
    MemSink::new(alloc, 4096, list_of(alloc, fails)?)
}

fn frame(alloc: Global, bytes: &[u8]) -> Result<MemEar, AllocError> {
    Ok(MemEar::Frame {
        sender: Addr4(0x0a00_0001),
        bytes: text(alloc, bytes)?,
    })
}

fn frames(alloc: Global, script: Script) -> Result<Seq<MemEar>, AllocError> {
    let mut frames = Seq::new(alloc);
    match script {
        Script::Nothing => {}
        Script::Hello => frames.push(frame(alloc, LONE)?)?,
        Script::HelloAndRefused => {
            frames.push(frame(alloc, LONE)?)?;
            frames.push(frame(alloc, b"\xff")?)?;
        }
    }
    Ok(frames)
}

fn fails(alloc: Global, case: &Case) -> Result<AirFails, AllocError> {
    Ok(AirFails {
        attach: list_of(alloc, case.attaches)?,
        hear: list_of(alloc, case.hears)?,
        send: list_of(alloc, case.sends)?,
    })
}

/// An air whose first interface hears what is written.
fn air(alloc: Global, case: &Case) -> Result<MemAir, AllocError>
    ensures { IfOk result (λ air. air.log.attached ≡ 0) }
{
    let room = AirRoom {
        attaches: 8,
        peers: 8,
        ears: 100,
        frames: 100,
        octets: 10_000,
    };
    let mut scripts = Seq::new(alloc);
    scripts.push(frames(alloc, case.script)?)?;
    MemAir::new(alloc, scripts, fails(alloc, case)?, room)
}

fn streams_of(alloc: Global, case: &Case) -> Result<Streams, AllocError> {
    Ok(Streams {
        input: source(alloc, case.input, case.takes)?,
        out: sink(alloc, case.puts)?,
        err: sink(alloc, &[])?,
    })
}

fn others_of(alloc: Global, case: &Case) -> Result<Others, AllocError>
    ensures { IfOk result (λ others. others.air.log.attached ≡ 0) }
{
    Ok(Others {
        words: strings(alloc, case.words)?,
        air: air(alloc, case)?,
        clock: MemClock::new(list_of(alloc, case.moments)?),
    })
}

/// The program has indexed tables.
fn over_indexes(alloc: Global, streams: &mut Streams, others: &mut Others) -> u8
    requires { others.old.air.log.attached ≡ 0 }
{
    let status = mesh_top(
        alloc,
        others.words.as_slice(),
        &mut streams.input,
        &mut streams.out,
        &mut streams.err,
        &mut others.air,
        &mut others.clock,
    );
    status.code()
}

fn over_nothing(alloc: Global, streams: &mut Streams, others: &mut Others) -> u8
    requires { others.old.air.log.attached ≡ 0 }
{
    let status = top_over::<NoBases, MemSource, MemSink, MemSink, MemAir, MemClock>(
        alloc,
        others.words.as_slice(),
        &mut streams.input,
        &mut streams.out,
        &mut streams.err,
        &mut others.air,
        &mut others.clock,
    );
    status.code()
}

fn has_said(case: &Case, streams: &Streams) -> bool {
    streams.out.as_slice() == case.out.as_bytes() && streams.err.as_slice() == case.err.as_bytes()
}

/// Makes the call, and says whether what comes of it is right.
fn is_right(alloc: Global, case: &Case, streams: &mut Streams, others: &mut Others) -> bool
    requires { others.old.air.log.attached ≡ 0 }
{
    let status = match case.over {
        Over::Indexes => over_indexes(alloc, streams, others),
        Over::Nothing => over_nothing(alloc, streams, others),
    };
    status == case.status && has_said(case, streams)
}

fn goes_right(alloc: Global, case: &Case, streams: &mut Streams) -> Result<bool, AllocError> {
    let mut others = others_of(alloc, case)?;
    Ok(is_right(alloc, case, streams, &mut others))
}

fn comes_to(alloc: Global, case: &Case) -> Result<bool, AllocError> {
    let mut streams = streams_of(alloc, case)?;
    goes_right(alloc, case, &mut streams)
}

/// Tells the first case that goes wrong.
fn all_hold(rt: &impl Abort, alloc: Global, cases: &[Case]) -> Result<(), AllocError> {
    for case in cases {
        assert!(rt; comes_to(alloc, case)?, "{}", case.name);
    }
    Ok(())
}

#[test]
fn streams_fail(rt: HostRuntime) -> Result<(), Fail> {
    all_hold(&rt, rt.alloc(), &streams::CASES)?;
    Ok(())
}

#[test]
fn airs_fail(rt: HostRuntime) -> Result<(), Fail> {
    all_hold(&rt, rt.alloc(), &runs::CASES)?;
    Ok(())
}
