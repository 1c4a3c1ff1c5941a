//! The search for least walks: a frontier ordered by metric, then node, of which the least step is taken at each turn (RFC 7181, section
//! 19).
ghost use Rattle.std.specs.Prelude.{IsTrue, ◌↔◌, IfOk, IfSome, IfNone, OnOk, Contains, ◌≡◌, ◌≢◌, ◌+◌, ◌*◌, ◌<◌, ◌≤◌, ◌^◌, length, slice_index_or, Some, None};
ghost use Rattle.std.specs.List.{slice_range};
ghost use Rattle.std.specs.List.Sorted.{IsNonDecreasingBy};
ghost use Rattle.mesh_atoms.specs.declared.graphs.PathRow.{PathRow};
ghost use Rattle.mesh_atoms.specs.declared.graphs.Arc4.{Arc4};
ghost use Rattle.std.specs.BTreeMap.{get, values, IsOrdered};
ghost use Rattle.mesh_paths.specs.Paths.{HasCosts, IsCertificate};
ghost use Rattle.mesh_atoms.specs.Nodes.{net_cmp};
ghost use Rattle.mesh_paths.specs.Search.{number_of, number_from, IsRun, IsIndex, IsPart, PutsStep, IsSettledRow, IsKeyed, Settles, row_of};
ghost use Rattle.mesh_paths.specs.Reached.{HasAsGood, HasLedRows, IsMetIn};
ghost use Rattle.mesh_paths.specs.Frontier.{OffersArc, IsTaking, OffersAll, IsSearch, work_in};

use crate::certificate::is_as_good;
use mesh_atoms::{Arc4, Certificate, Graph, NetAddr, PathRow, Seq};
use std::alloc::{AllocError, Global};
use std::collections::{BTreeMap, BTreeSet};

// Arcs that stand together and leave one node: its number, their first place, and the place behind their last.
#[derive(Clone, Copy)]
pub(crate) struct ArcRun {
    pub(crate) number: u64,
    pub(crate) start: usize,
    pub(crate) end: usize,
}

// A step that may be taken: to a node, at a metric, by way of a parent.
#[derive(Clone, Copy, PartialEq, Eq, PartialOrd, Ord)]
pub(crate) struct SearchStep {
    pub(crate) metric: u64,
    pub(crate) node: NetAddr,
    pub(crate) parent: NetAddr,
}

/// Finds the least walks from that node (RFC 7181, section 19), as the certificate of the graph: a row for each node that
/// is reached, in ascending order. No arc may be free, and they are fewer than 2^32, so that each metric fits. Takes time
/// near n log n in the number n of arcs. Refuses only where an allocation fails.
pub fn search(alloc: Global, graph: &Graph, from: NetAddr) -> Result<Certificate, AllocError>
    requires costs { HasCosts graph.now }
    requires few { length graph.now.arcs < 2 ^ 32 }
    ensures certificate { IfOk result (λ certificate. IsCertificate graph.now from certificate) }
{
    let arcs = graph.arcs.as_slice();
    let runs = index_of(alloc, arcs)?;
    let reached = reach_nearest(alloc, arcs, runs.as_slice(), from)?;
    let rows = rows_in_order(alloc, &reached)?;
    Ok(Certificate { rows })
}

// The arcs as runs, in the order of the nodes that they leave.
fn index_of(alloc: Global, arcs: &[Arc4]) -> Result<Vec<ArcRun>, AllocError>
    ensures all { IfOk result (λ runs. IsIndex arcs.now runs.items) }
    ensures order { IfOk result (λ runs. IsNonDecreasingBy (λ run. run.number) runs.items) }
{
    let mut runs = runs_of(alloc, arcs)?;
    runs.sort_unstable_by_key(|run| run.number);
    Ok(runs)
}

// The arcs as runs, in their own order.
fn runs_of(alloc: Global, arcs: &[Arc4]) -> Result<Vec<ArcRun>, AllocError>
    ensures { IfOk result (λ runs. IsIndex arcs.now runs.items) }
{
    let mut runs = Vec::new(alloc);
    let mut start = 0;
    while start < arcs.len() {
        let run = run_at(arcs, start);
        runs.push(run)?;
        start = run.end;
    }
    Ok(runs)
}

// The arcs from a place on, as long as they leave one node.
fn run_at(arcs: &[Arc4], start: usize) -> ArcRun
    requires { start < length arcs.now }
    ensures run { IsRun arcs.now result }
    ensures start { result.start ≡ start }
    ensures more { start < result.end }
{
    let number = number_at(arcs, start);
    for place in start + 1..arcs.len() {
        if number_at(arcs, place) != number {
            return ArcRun {
                number,
                start,
                end: place,
            };
        }
    }
    ArcRun {
        number,
        start,
        end: arcs.len(),
    }
}

// The number of the node that the arc at a place leaves.
fn number_at(arcs: &[Arc4], place: usize) -> u64
    requires { place < length arcs.now }
    ensures { (d : Arc4) → number_from (slice_index_or arcs.now place d) ≡ result }
{
    number_of(arcs[place].from)
}

// A number for each node, in their order.
fn number_of(node: NetAddr) -> u64
    ensures { result ≡ number_of node }
{
    64 * u64::from(node.addr.0) + u64::from(node.prefix)
}

// Takes the least step of the frontier, until none waits. A step that a better one to its node has followed is passed over.
fn reach_nearest(
    alloc: Global,
    arcs: &[Arc4],
    runs: &[ArcRun],
    from: NetAddr,
) -> Result<BTreeMap<NetAddr, PathRow>, AllocError>
    requires costs { (arc : Arc4) → Contains arcs.now arc → 1 ≤ arc.metric }
    requires few { length arcs.now < 2 ^ 32 }
    requires index { IsIndex arcs.now runs.now }
    requires order { IsNonDecreasingBy (λ run. run.number) runs.now }
    ensures rows { IfOk result (λ reached. HasLedRows reached arcs.now from) }
    ensures met { IfOk result (λ reached. (arc : Arc4) → Contains arcs.now arc → IsMetIn reached arc) }
{
    let mut reached = BTreeMap::new(alloc);
    let mut frontier = BTreeSet::new(alloc);
    let start = SearchStep {
        metric: 0,
        node: from,
        parent: from,
    };
    settle(&mut reached, start)?;
    put_step(&mut frontier, start)?;
    while let Some(step) = frontier.pop_first() {
        if let Some(first) = latest(&reached, step) {
            offer_arcs(&mut reached, &mut frontier, arcs, runs, from, first)?;
        }
    }
    Ok(reached)
}

// The row of the step's node, unless a better one has followed the step.
fn latest(reached: &BTreeMap<NetAddr, PathRow>, step: SearchStep) -> Option<PathRow>
    ensures row { IfSome result (λ row. get net_cmp reached.now step.node ≡ Some row) }
    ensures passed { IfNone result (get net_cmp reached.now step.node ≢ Some (row_of step)) }
{
    let Some(row) = row_at(reached, step.node) else {
        return None;
    };
    if is_by(&row, step) {
        return Some(row);
    }
    None
}

// Whether the row has the step's metric and parent.
fn is_by(row: &PathRow, step: SearchStep) -> bool
    ensures { IsTrue result ↔ ((row.now.metric ≡ step.metric) × (row.now.parent ≡ step.parent)) }
{
    row.metric == step.metric && has_parent(row, step.parent)
}

// Whether the row's parent is that node.
fn has_parent(row: &PathRow, node: NetAddr) -> bool
    ensures { IsTrue result ↔ (row.now.parent ≡ node) }
{
    row.parent == node
}

// Settles the step as a row.
pub(crate) fn settle(
    settled: &mut BTreeMap<NetAddr, PathRow>,
    step: SearchStep,
) -> Result<(), AllocError>
    requires fresh { get net_cmp settled.old step.node ≡ None }
    requires keyed { IsKeyed settled.old }
    ensures settled { OnOk result (Settles (IsSettledRow settled.old) (row_of step) (IsSettledRow settled.new)) }
    ensures keyed { OnOk result (IsKeyed settled.new) }
{
    let SearchStep {
        metric,
        node,
        parent,
    } = step;
    settled.insert(
        node,
        PathRow {
            node,
            metric,
            parent,
        },
    )?;
    Ok(())
}

// The settled rows, in the order of nodes.
pub(crate) fn rows_in_order(
    alloc: Global,
    settled: &BTreeMap<NetAddr, PathRow>,
) -> Result<Seq<PathRow>, AllocError>
    ensures all { IfOk result (λ rows. rows ≡ values settled.now) }
    ensures ordered { IfOk result (λ rows. IsOrdered net_cmp settled.now) }
{
    let mut rows = Seq::new(alloc);
    for row in settled.values() {
        rows.push(*row)?;
    }
    Ok(rows)
}

// Offers the arcs that leave the row's node.
fn offer_arcs(
    reached: &mut BTreeMap<NetAddr, PathRow>,
    frontier: &mut BTreeSet<SearchStep>,
    arcs: &[Arc4],
    runs: &[ArcRun],
    from: NetAddr,
    first: PathRow,
) -> Result<(), AllocError>
    requires costs { (arc : Arc4) → Contains arcs.now arc → 1 ≤ arc.metric }
    requires few { length arcs.now < 2 ^ 32 }
    requires index { IsIndex arcs.now runs.now }
    requires order { IsNonDecreasingBy (λ run. run.number) runs.now }
    requires taking { IsTaking reached.old arcs.now from first frontier.old.keys }
    ensures search { OnOk result (IsSearch reached.new arcs.now from frontier.new.keys) }
    ensures work { OnOk result (work_in reached.new arcs.now frontier.new.keys ≤ work_in reached.old arcs.now frontier.old.keys) }
{
    let part = leaving(runs, number_of(first.node));
    for run in part {
        offer_run(reached, frontier, arcs, *run, from, first)?;
    }
    Ok(())
}

// The runs of that number. Takes time near log n in the number n of runs.
fn leaving(runs: &[ArcRun], number: u64) -> &[ArcRun]
    requires { IsNonDecreasingBy (λ run. run.number) runs.now }
    ensures { IsPart runs.now number result.now }
{
    let start = runs.partition_point(|run| run.number < number);
    let rest = &runs[start..];
    let end = rest.partition_point(|run| run.number <= number);
    &rest[..end]
}

// Offers the arcs of a run, which leave the row's node.
fn offer_run(
    reached: &mut BTreeMap<NetAddr, PathRow>,
    frontier: &mut BTreeSet<SearchStep>,
    arcs: &[Arc4],
    run: ArcRun,
    from: NetAddr,
    first: PathRow,
) -> Result<(), AllocError>
    requires costs { (arc : Arc4) → Contains arcs.now arc → 1 ≤ arc.metric }
    requires few { length arcs.now < 2 ^ 32 }
    requires run { IsRun arcs.now run }
    requires number { run.number ≡ number_of first.node }
    requires taking { IsTaking reached.old arcs.now from first frontier.old.keys }
    ensures { OnOk result (OffersAll reached.old frontier.old.keys arcs.now from first (slice_range arcs.now run.start run.end) reached.new frontier.new.keys) }
{
    let part = &arcs[run.start..run.end];
    for arc in part {
        offer_arc(reached, frontier, first, *arc)?;
    }
    Ok(())
}

// Puts what the arc offers from the row into the map and its step into the frontier, unless a row is as good.
fn offer_arc(
    reached: &mut BTreeMap<NetAddr, PathRow>,
    frontier: &mut BTreeSet<SearchStep>,
    first: PathRow,
    arc: Arc4,
) -> Result<(), AllocError>
    requires small { first.metric + 2 ^ 32 ≤ 2 ^ 64 }
    ensures { OnOk result (OffersArc reached.old frontier.old.keys first arc reached.new frontier.new.keys) }
{
    let step = SearchStep {
        metric: first.metric + u64::from(arc.metric),
        node: arc.to,
        parent: arc.from,
    };
    let row = PathRow {
        node: step.node,
        metric: step.metric,
        parent: step.parent,
    };
    if has_as_good(reached, &row) {
        return Ok(());
    }
    reached.insert(row.node, row)?;
    put_step(frontier, step)?;
    Ok(())
}

// Puts a step into the frontier.
fn put_step(frontier: &mut BTreeSet<SearchStep>, step: SearchStep) -> Result<(), AllocError>
    ensures { OnOk result (PutsStep frontier.old.keys step frontier.new.keys) }
{
    frontier.insert(step)?;
    Ok(())
}

// The row at a node.
fn row_at(reached: &BTreeMap<NetAddr, PathRow>, node: NetAddr) -> Option<PathRow>
    ensures { result ≡ get net_cmp reached.now node }
{
    reached.get(&node).copied()
}

// Whether the row's node has one that is as good.
fn has_as_good(reached: &BTreeMap<NetAddr, PathRow>, row: &PathRow) -> bool
    ensures { IsTrue result ↔ HasAsGood reached.now row.now.node row.now.metric row.now.parent }
{
    match row_at(reached, row.node) {
        Some(before) => is_as_good(&before, u128::from(row.metric), row.parent),
        None => false,
    }
}
