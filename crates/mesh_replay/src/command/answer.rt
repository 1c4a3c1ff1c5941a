//! The answer to an input, before anything is told.
ghost use Rattle.std.specs.Prelude.{◌≡◌, ◌++◌, codes, decimal, IfOk, IfErr, OnOk};
ghost use Rattle.mesh_config.specs.Keys.Faults.{IfSettingRefused};
ghost use Rattle.mesh_config.specs.Settings.{FirstRefusal};
ghost use Rattle.mesh_replay.specs.Command.Replays.{Replays, IsRefusedInput, IsReplayed, answer_line};
ghost use Rattle.mesh_replay.specs.Command.Split.{IsPartsOf};

use crate::answer::Replay;
use crate::checking::replay;
use crate::command::parts::{Parts, parts_of};
use mesh_atoms::{Bytes, put_decimal};
use mesh_config::{ConfigFault, LONGEST_SETTINGS, refusal, refused, scenario_of};
use mesh_expire::Bases;
use std::alloc::{AllocError, Global};

// Splits an input that has a line `---`.
fn split<'a>(alloc: Global, input: &'a [u8]) -> Result<Parts<'a>, ConfigFault>
    ensures split { IfOk result (IsPartsOf input.now) }
    ensures refused { IfErr result (IfSettingRefused (IsRefusedInput input.now)) }
{
    match parts_of(alloc, input) {
        Ok(Some(parts)) => Ok(parts),
        Ok(None) => Err(refused(alloc, refusal::MISSING, "trace")),
        Err(e) => Err(ConfigFault::Memory(e)),
    }
}

// The answer to a trace, over the network of the scenario that these settings state.
fn answer_over<B: Bases>(
    alloc: Global,
    settings: &[u8],
    trace: &[u8],
) -> Result<Replay, ConfigFault>
    ensures answered { IfOk result (IsReplayed settings.now trace.now) }
    ensures refused { IfErr result (IfSettingRefused (FirstRefusal settings.now)) }
{
    let scenario = match scenario_of(alloc, settings) {
        Ok(scenario) => scenario,
        Err(fault) => return Err(fault),
    };
    match replay::<B>(alloc, &scenario, trace) {
        Ok(answer) => Ok(answer),
        Err(e) => Err(ConfigFault::Memory(e)),
    }
}

/// The answer to an input, or its refusal.
pub(crate) fn answer_to<B: Bases>(alloc: Global, input: &[u8]) -> Result<Replay, ConfigFault>
    ensures answered { IfOk result (Replays input.now) }
    ensures refused { IfErr result (IfSettingRefused (IsRefusedInput input.now)) }
{
    let parts = match split(alloc, input) {
        Ok(parts) => parts,
        Err(fault) => return Err(fault),
    };
    if parts.scenario.len() > LONGEST_SETTINGS {
        return Err(refused(alloc, refusal::TOO_LONG, "scenario"));
    }
    answer_over::<B>(alloc, parts.scenario, parts.trace)
}

// Puts a word, a number and a line feed.
fn put_line(out: &mut Bytes, words: &[u8], number: u64) -> Result<(), AllocError>
    ensures { OnOk result (out.new ≡ out.old ++ (words.now ++ (decimal number ++ codes "\n"))) }
{
    out.append(words)?;
    put_decimal(out, number)?;
    out.append(b"\n")
}

/// Puts the line that tells an answer.
pub(crate) fn put_answer(out: &mut Bytes, answer: Replay) -> Result<(), AllocError>
    ensures { OnOk result (out.new ≡ out.old ++ answer_line answer) }
{
    match answer {
        Replay::Yes { lines } => put_line(out, b"replay yes lines ", lines),
        Replay::No { line } => put_line(out, b"replay no line ", line),
    }
}
