//! The test of a certificate: whether its rows are those of the least walks (RFC 7181, section 19).
ghost use Rattle.std.specs.Prelude.{IsTrue, ◌↔◌, IfSome, IfNone, Contains, ◌≡◌, ◌≢◌, ◌+◌};
ghost use Rattle.mesh_atoms.specs.declared.graphs.PathRow.{PathRow};
ghost use Rattle.mesh_atoms.specs.declared.graphs.Arc4.{Arc4};
ghost use Rattle.mesh_atoms.specs.Nodes.{IsBefore};
ghost use Rattle.mesh_paths.specs.Paths.{HasCosts, AreAscendingRows, IsCertificate, IsOneCertificate, EveryGraphHasCertificate};
ghost use Rattle.mesh_paths.specs.Tree.{IsOffered, MeetsRow, IsStart, IsReached, IsAsGood, IsArcMet, IsStep, IsClosed, IsGrounded, IsTree};

use mesh_atoms::{Arc4, Certificate, Graph, NetAddr, PathRow};

/// Says yes exactly where the rows are all nodes that a walk from that node reaches, in ascending order, each with the
/// least metric of a walk to it and, of the nodes that may stand before it on a least walk, the least (RFC 7181, section
/// 19). No arc may be free. Takes no memory, and time in proportion to rows times rows and arcs together.
pub fn check(graph: &Graph, from: NetAddr, certificate: &Certificate) -> bool
    requires costs { HasCosts graph.now }
    ensures exact { IsTrue result ↔ IsCertificate graph.now from certificate.now }
{
    is_tree(graph.arcs.as_slice(), from, certificate.rows.as_slice())
}

// Whether the rows ascend, hold what is offered at its best, and hold nothing else.
fn is_tree(arcs: &[Arc4], from: NetAddr, rows: &[PathRow]) -> bool
    ensures { IsTrue result ↔ IsTree arcs.now from rows.now }
{
    if !is_ascending(rows) {
        return false;
    }
    if !is_closed(arcs, from, rows) {
        return false;
    }
    is_grounded(arcs, from, rows)
}

// Whether each row stands before the next in the order of nodes.
fn is_ascending(rows: &[PathRow]) -> bool
    ensures { IsTrue result ↔ AreAscendingRows rows.now }
{
    for i in 1..rows.len() {
        if !is_before(&rows[i - 1], &rows[i]) {
            return false;
        }
    }
    true
}

// Whether the row's node is the lesser.
fn is_before(row: &PathRow, next: &PathRow) -> bool
    ensures { IsTrue result ↔ IsBefore row.now.node next.now.node }
{
    row.node < next.node
}

// Whether the rows hold, at its best, what the start and the arcs from their nodes offer.
fn is_closed(arcs: &[Arc4], from: NetAddr, rows: &[PathRow]) -> bool
    requires ascending { AreAscendingRows rows.now }
    ensures { IsTrue result ↔ IsClosed arcs.now from rows.now }
{
    if !is_met(rows, from, 0, from) {
        return false;
    }
    for arc in arcs {
        if !is_arc_met(arc, rows) {
            return false;
        }
    }
    true
}

// Whether what the arc offers is met, if it leads from a row's node.
fn is_arc_met(arc: &Arc4, rows: &[PathRow]) -> bool
    requires ascending { AreAscendingRows rows.now }
    ensures { IsTrue result ↔ IsArcMet rows.now arc.now }
{
    match row_of(rows, arc.from) {
        Some(row) => is_met(rows, arc.to, cost_by(row, arc), row.node),
        None => true,
    }
}

// The metric at which the arc offers its end.
fn cost_by(row: &PathRow, arc: &Arc4) -> u128
    ensures { result ≡ row.now.metric + arc.now.metric }
{
    u128::from(row.metric) + u128::from(arc.metric)
}

// Whether a row has the node at a lesser metric, or at the same metric with a parent that is no greater.
fn is_met(rows: &[PathRow], node: NetAddr, metric: u128, parent: NetAddr) -> bool
    requires ascending { AreAscendingRows rows.now }
    ensures { IsTrue result ↔ MeetsRow rows.now node metric parent }
{
    match row_of(rows, node) {
        Some(row) => is_as_good(row, metric, parent),
        None => false,
    }
}

// The row of a node.
fn row_of<'a>(rows: &'a [PathRow], node: NetAddr) -> Option<&'a PathRow>
    ensures found { IfSome result (λ row. Contains rows.now row.now × (row.now.node ≡ node)) }
    ensures none { IfNone result ((row : PathRow) → Contains rows.now row → row.node ≢ node) }
{
    for row in rows {
        if row.node == node {
            return Some(row);
        }
    }
    None
}

// Whether the row has a lesser metric, or the same and a parent that is no greater.
pub(crate) fn is_as_good(row: &PathRow, metric: u128, parent: NetAddr) -> bool
    ensures { IsTrue result ↔ IsAsGood row.now metric parent }
{
    u128::from(row.metric) < metric || u128::from(row.metric) == metric && row.parent <= parent
}

// Whether each row is the start's, or is offered by an arc from another.
fn is_grounded(arcs: &[Arc4], from: NetAddr, rows: &[PathRow]) -> bool
    requires ascending { AreAscendingRows rows.now }
    ensures { IsTrue result ↔ IsGrounded arcs.now from rows.now }
{
    for row in rows {
        if !is_offered(arcs, from, rows, row) {
            return false;
        }
    }
    true
}

// Whether the row is that of the start, or some arc from a row's node offers it.
fn is_offered(arcs: &[Arc4], from: NetAddr, rows: &[PathRow], row: &PathRow) -> bool
    requires ascending { AreAscendingRows rows.now }
    ensures { IsTrue result ↔ IsOffered arcs.now from rows.now row.now }
{
    if is_start(from, row) {
        return true;
    }
    is_reached(arcs, rows, row)
}

// Whether the row is that of the start.
fn is_start(from: NetAddr, row: &PathRow) -> bool
    ensures { IsTrue result ↔ IsStart from row.now.node row.now.metric row.now.parent }
{
    row.node == from && row.metric == 0 && row.parent == from
}

// Whether some arc from the row of its parent offers the row.
fn is_reached(arcs: &[Arc4], rows: &[PathRow], row: &PathRow) -> bool
    requires ascending { AreAscendingRows rows.now }
    ensures { IsTrue result ↔ IsReached arcs.now rows.now row.now }
{
    match row_of(rows, row.parent) {
        Some(parent) => has_arc(arcs, parent, row),
        None => false,
    }
}

// Whether some arc from the parent's node offers the row.
fn has_arc(arcs: &[Arc4], parent: &PathRow, row: &PathRow) -> bool
    ensures { IsTrue result ↔ ((arc : Arc4) × Contains arcs.now arc × IsStep parent.now row.now arc) }
{
    for arc in arcs {
        if is_step(arc, parent, row) {
            return true;
        }
    }
    false
}

// Whether the arc from the parent's node offers the row.
fn is_step(arc: &Arc4, parent: &PathRow, row: &PathRow) -> bool
    ensures { IsTrue result ↔ IsStep parent.now row.now arc.now }
{
    if !is_from(arc, parent.node) {
        return false;
    }
    if !is_to(arc, row.node) {
        return false;
    }
    is_sum(parent, arc, row)
}

// Whether the arc leaves the node.
pub(crate) fn is_from(arc: &Arc4, node: NetAddr) -> bool
    ensures { IsTrue result ↔ (arc.now.from ≡ node) }
{
    arc.from == node
}

// Whether the arc leads to the node.
fn is_to(arc: &Arc4, node: NetAddr) -> bool
    ensures { IsTrue result ↔ (arc.now.to ≡ node) }
{
    arc.to == node
}

// Whether the row's metric is the parent's and the arc's together.
fn is_sum(parent: &PathRow, arc: &Arc4, row: &PathRow) -> bool
    ensures { IsTrue result ↔ (parent.now.metric + arc.now.metric ≡ row.now.metric) }
{
    cost_by(parent, arc) == u128::from(row.metric)
}

/// Does nothing: its clause says that any two certificates of a graph from one node have the same rows.
pub fn one_certificate()
    ensures { IsOneCertificate }
{}

/// Does nothing: its clause says that a graph has a certificate from each node, where no arc is free. It may have any number
/// of arcs, of any metrics.
pub fn every_graph_has_certificate()
    ensures { EveryGraphHasCertificate }
{}
