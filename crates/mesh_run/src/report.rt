//! The report of a router at the end of its run.
ghost use Rattle.std.specs.Prelude.{◌≡◌, ◌++◌, ◌≤◌, OnOk, IfOk};
ghost use Rattle.mesh_atoms.specs.Sound.{Sound};
ghost use Rattle.mesh_io.specs.Pieces.{MakesOne, PutsPieces};
ghost use Rattle.mesh_run.specs.Text.{run_line, IsReport};

use crate::turns::Ended;
use mesh_atoms::Bytes;
use mesh_core::RouterView;
use mesh_io::{Sink, Stop, write_all};
use mesh_texts::Piece::Number;
use mesh_texts::{put_line, put_section};
use std::alloc::{AllocError, Global};

// Puts when a run ended and what was counted. An allocation failure leaves a part of it behind what was there.
#[tactic(auto, unfolding(crate::specs::Text::run_line))]
fn put_run_line(out: &mut Bytes, end: u64, ended: &Ended) -> Result<(), AllocError>
    ensures { OnOk result (out.new ≡ out.old ++ run_line end ended.now) }
{
    put_line(
        out,
        &[
            (b"run end ", Number(end)),
            (b" turns ", Number(u64::from(ended.turns))),
            (b" heard ", Number(ended.tally.heard)),
            (b" sent ", Number(ended.tally.sent)),
            (b" air faults ", Number(ended.tally.faults)),
        ],
    )
}

// The report of a router.
fn report_of<R: RouterView>(
    alloc: Global,
    router: &R,
    end: u64,
    ended: &Ended,
) -> Result<Bytes, AllocError>
    requires { Sound (R.state router.now) }
    ensures { IfOk result (IsReport end ended.now (R.state router.now)) }
{
    let mut text = Bytes::new(alloc);
    put_run_line(&mut text, end, ended)?;
    put_section(&mut text, router)?;
    Ok(text)
}

/// Writes the report of a router, by one write; or says that it couldn't be written, or could not be made for an allocation failure.
pub fn tell_report<R: RouterView, O: Sink>(
    alloc: Global,
    router: &R,
    end: u64,
    ended: &Ended,
    out: &mut O,
) -> Result<(), Stop>
    requires { Sound (R.state router.now) }
    ensures leaves { PutsPieces (MakesOne (λ _ text. IsReport end ended.now (R.state router.now) text))
        (O.content out.old) (O.content out.new) (O.faults out.old) (O.faults out.new) result }
    ensures later { O.faults out.old ≤ O.faults out.new }
{
    match report_of(alloc, router, end, ended) {
        Ok(text) => match write_all(out, text.as_slice()) {
            Ok(()) => Ok(()),
            Err(_) => Err(Stop::Write),
        },
        Err(_) => Err(Stop::Memory),
    }
}
