//! The choice of relays on worked graphs.
use mesh_atoms::{Addr4, Direct, Far, Near, NeighbourGraph, Seq};
use mesh_relay::{choose, covers, has_distinct_ids, irredundant};
use std::alloc::{AllocError, Global};
use std::test::Fail;

/// What is shown; neighbours as id, cost and willingness; direct entries as address and cost; far entries as neighbour, address and cost;
/// and the relays that are chosen.
struct Case<'a> {
    name: &'a str,
    near: &'a [(u32, u32, u8)],
    direct: &'a [(u32, u32)],
    far: &'a [(u32, u32, u32)],
    relays: &'a [u32],
}

fn near_of(alloc: Global, rows: &[(u32, u32, u8)]) -> Result<Seq<Near>, AllocError> {
    let mut near = Seq::new(alloc);
    for &(id, cost, will) in rows {
        near.push(Near {
            id: Addr4(id),
            cost,
            will,
        })?;
    }
    Ok(near)
}

fn direct_of(alloc: Global, rows: &[(u32, u32)]) -> Result<Seq<Direct>, AllocError> {
    let mut direct = Seq::new(alloc);
    for &(addr, cost) in rows {
        direct.push(Direct {
            addr: Addr4(addr),
            cost,
        })?;
    }
    Ok(direct)
}

fn far_of(alloc: Global, rows: &[(u32, u32, u32)]) -> Result<Seq<Far>, AllocError> {
    let mut far = Seq::new(alloc);
    for &(via, addr, cost) in rows {
        far.push(Far {
            via: Addr4(via),
            addr: Addr4(addr),
            cost,
        })?;
    }
    Ok(far)
}

fn graph_of(
    alloc: Global,
    near: &[(u32, u32, u8)],
    direct: &[(u32, u32)],
    far: &[(u32, u32, u32)],
) -> Result<NeighbourGraph, AllocError> {
    Ok(NeighbourGraph {
        near: near_of(alloc, near)?,
        direct: direct_of(alloc, direct)?,
        far: far_of(alloc, far)?,
    })
}

/// Whether the relays are these, in that order.
fn are_numbered(relays: &[Addr4], numbers: &[u32]) -> bool {
    if relays.len() != numbers.len() {
        return false;
    }
    for place in 0..relays.len() {
        if relays[place].0 != numbers[place] {
            return false;
        }
    }
    true
}

/// Whether the relays are these, cover, and are irredundant.
fn are_right(graph: &NeighbourGraph, relays: &[Addr4], numbers: &[u32]) -> bool {
    are_numbered(relays, numbers) && covers(graph, relays) && irredundant(graph, relays)
}

fn chooses(alloc: Global, graph: &NeighbourGraph, numbers: &[u32]) -> Result<bool, AllocError> {
    if !has_distinct_ids(graph) {
        return Ok(false);
    }
    let relays = choose(alloc, graph)?;
    Ok(are_right(graph, relays.as_slice(), numbers))
}

static WORKED: [Case; 6] = [
    Case {
        name: "a direct entry is dearer",
        near: &[(1, 1, 7), (2, 1, 7)],
        direct: &[(9, 3)],
        far: &[(1, 9, 1), (2, 9, 1)],
        relays: &[1],
    },
    Case {
        name: "a third of willingness 15 leads nowhere",
        near: &[(1, 1, 7), (2, 1, 7), (3, 1, 15)],
        direct: &[],
        far: &[(1, 9, 1), (2, 9, 1)],
        relays: &[1, 3],
    },
    Case {
        name: "near costs differ: 5 + 1 and 1 + 3",
        near: &[(1, 5, 7), (2, 1, 7)],
        direct: &[],
        far: &[(1, 9, 1), (2, 9, 3)],
        relays: &[2],
    },
    Case {
        name: "one neighbour makes up for two",
        near: &[(1, 1, 7), (2, 1, 7), (3, 1, 7), (4, 1, 7)],
        direct: &[],
        far: &[(1, 23, 1), (3, 22, 1), (4, 22, 1), (4, 23, 1)],
        relays: &[4],
    },
    Case {
        name: "the same with its lists turned",
        near: &[(4, 1, 7), (3, 1, 7), (2, 1, 7), (1, 1, 7)],
        direct: &[],
        far: &[(4, 23, 1), (4, 22, 1), (3, 22, 1), (1, 23, 1)],
        relays: &[4],
    },
    Case {
        name: "costs of nothing, and an address with two direct entries",
        near: &[(1, 0, 7), (2, 0, 7)],
        direct: &[(9, 1), (9, 0)],
        far: &[(1, 9, 0), (1, 8, 0), (2, 8, 0)],
        relays: &[1],
    },
];

/// The same of the graph of a case.
fn goes_right(alloc: Global, case: &Case) -> Result<bool, AllocError> {
    let graph = graph_of(alloc, case.near, case.direct, case.far)?;
    chooses(alloc, &graph, case.relays)
}

#[test]
fn worked_graphs(rt: HostRuntime) -> Result<(), Fail> {
    for case in &WORKED {
        assert!(rt; goes_right(rt.alloc(), case)?, "{}", case.name);
    }
    Ok(())
}
