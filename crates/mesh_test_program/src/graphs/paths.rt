//! The test of a certificate, which the program doesn't call.
ghost use Rattle.std.specs.Prelude.{IfOk, ◌≡◌, ◌<◌, ◌^◌, length};
ghost use Rattle.mesh_paths.specs.Paths.{HasCosts};

use mesh_atoms::{Addr4, NetAddr, Seq};
use mesh_paths::{Arc4, Graph, check, search};
use std::alloc::{AllocError, Global};
use std::test::Fail;

// A number below 100 stands for a router's address, and 100 more for the network of that number and prefix 31.
fn node(number: u32) -> NetAddr {
    if number < 100 {
        NetAddr::of(Addr4(number), 32)
    } else {
        NetAddr::of(Addr4(number - 100), 31)
    }
}

fn arc_of(from: u32, to: u32, metric: u32) -> Arc4
    ensures { result.metric ≡ metric }
{
    Arc4 {
        from: node(from),
        to: node(to),
        metric,
    }
}

// The graph of those arcs, without the free ones.
fn graph_of(alloc: Global, arcs: &[(u32, u32, u32)]) -> Result<Graph, AllocError>
    requires few { length arcs.now < 2 ^ 32 }
    ensures costs { IfOk result (λ graph. HasCosts graph) }
    ensures few { IfOk result (λ graph. length graph.arcs < 2 ^ 32) }
{
    let mut costly = Seq::new(alloc);
    for &(from, to, metric) in arcs {
        if metric == 0 {
            continue;
        }
        costly.push(arc_of(from, to, metric))?;
    }
    Ok(Graph { arcs: costly })
}

// Arcs as from, to and metric: a dear and a cheap way, two equal ones, parallel arcs, a cycle, and a network beside its gateway's address.
static ARCS: [(u32, u32, u32); 11] = [
    (1, 2, 1),
    (1, 3, 1),
    (2, 4, 10),
    (3, 4, 2),
    (4, 5, 3),
    (4, 5, 1),
    (2, 6, 2),
    (3, 6, 2),
    (6, 1, 1),
    (6, 102, 4),
    (7, 8, 1),
];

// Whether what is found from node 1 is a certificate, and none from node 2.
fn is_certified(alloc: Global, graph: &Graph) -> Result<bool, AllocError>
    requires costs { HasCosts graph.now }
    requires few { length graph.now.arcs < 2 ^ 32 }
{
    let found = search(alloc, graph, node(1))?;
    Ok(check(graph, node(1), &found) && !check(graph, node(2), &found))
}

fn is_right(alloc: Global, arcs: &[(u32, u32, u32)]) -> Result<bool, AllocError> {
    if arcs.len() >= 1000 {
        return Ok(false);
    }
    let graph = graph_of(alloc, arcs)?;
    is_certified(alloc, &graph)
}

#[test]
fn a_certificate_is_of_its_start(rt: HostRuntime) -> Result<(), Fail> {
    assert!(rt; is_right(rt.alloc(), &ARCS)?);
    Ok(())
}
