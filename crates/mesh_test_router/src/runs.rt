//! Runs, and the tables that they are tried over.
use crate::calls::{HELLO, TC, link_is_heard, packet_is_taken};
use crate::frames::steps::{Step, goes_right};
use crate::frames::{full, hears, lone, row};
use mesh_core::Core;
use mesh_expire::{Bases, IndexedBases, NoBases, PlainBases};
use std::alloc::{AllocError, Global};
use std::process::Abort;
use std::test::Fail;

/// What is done.
#[derive(Clone, Copy)]
pub(crate) enum Run {
    // what happens to the routers that settings tell, with what must come of each step
    Frames(&'static [u8], &'static [Step]),
    // a packet of one message is taken
    Taken(&'static [u8]),
    // a link is heard
    Link,
}

/// What is shown, and the run that shows it.
pub(crate) type Case = (&'static str, Run);

/// Whether a run comes to what it must.
fn is_right_over<B: Bases>(alloc: Global, run: Run) -> Result<bool, AllocError> {
    match run {
        Run::Frames(settings, steps) => goes_right::<Core<B>>(alloc, settings, steps),
        Run::Taken(frame) => packet_is_taken::<B>(alloc, frame),
        Run::Link => link_is_heard::<B::Links>(alloc),
    }
}

fn over_lists(alloc: Global, run: Run) -> Result<bool, AllocError> {
    is_right_over::<PlainBases>(alloc, run)
}

fn over_indexes(alloc: Global, run: Run) -> Result<bool, AllocError> {
    is_right_over::<IndexedBases>(alloc, run)
}

fn over_nothing(alloc: Global, run: Run) -> Result<bool, AllocError> {
    is_right_over::<NoBases>(alloc, run)
}

/// Plain lists, indexed tables, or tables that hold nothing.
#[derive(Clone, Copy)]
enum Over {
    Lists,
    Indexes,
    Nothing,
}

/// The same over those tables.
fn is_right(alloc: Global, over: Over, run: Run) -> Result<bool, AllocError> {
    match over {
        Over::Lists => over_lists(alloc, run),
        Over::Indexes => over_indexes(alloc, run),
        Over::Nothing => over_nothing(alloc, run),
    }
}

/// Tells the first case that goes wrong.
fn all_hold(rt: &impl Abort, alloc: Global, over: Over, cases: &[Case]) -> Result<(), AllocError> {
    for (name, run) in cases {
        assert!(rt; is_right(alloc, over, *run)?, "{name}");
    }
    Ok(())
}

/// Calls that a router doesn't make.
static CALLS: [Case; 3] = [
    ("a HELLO is taken", Run::Taken(HELLO)),
    ("a TC is taken and expires", Run::Taken(TC)),
    ("a link is heard", Run::Link),
];

#[test]
fn cases_hold_over_plain_lists(rt: HostRuntime) -> Result<(), Fail> {
    all_hold(&rt, rt.alloc(), Over::Lists, &CALLS)?;
    all_hold(&rt, rt.alloc(), Over::Lists, &row::CASES)?;
    Ok(())
}

#[test]
fn cases_hold_over_indexed_tables(rt: HostRuntime) -> Result<(), Fail> {
    all_hold(&rt, rt.alloc(), Over::Indexes, &lone::CASES)?;
    all_hold(&rt, rt.alloc(), Over::Indexes, &hears::CASES)?;
    Ok(())
}

#[test]
fn frames_fill_sets(rt: HostRuntime) -> Result<(), Fail> {
    all_hold(&rt, rt.alloc(), Over::Indexes, &full::CASES)?;
    Ok(())
}

#[test]
fn no_table_has_room(rt: HostRuntime) -> Result<(), Fail> {
    all_hold(&rt, rt.alloc(), Over::Nothing, &lone::WITHOUT_ROOM)?;
    Ok(())
}
