//! The deadlock that edges show.
ghost use Rattle.std.specs.Prelude.{◌≡◌, ◌++◌, ◌∷◌, [], IfOk};
ghost use Rattle.lt_requests.specs.Walks.{waits_of, edge_between, edges_along, cycle_of};

use crate::cycle::{Cycle, Edge};
use lt_waits::WaitGraph;
use std::alloc::{AllocError, Global};

/// The least closed walk through the transaction, as the edges that it goes along.
pub(crate) fn cycle_in(alloc: Global, edges: &[Edge], txn: u64) -> Result<Option<Cycle>, AllocError>
    ensures { IfOk result (λ found. found ≡ cycle_of edges.now txn) }
{
    let graph = graph_of(alloc, edges)?;
    match graph.cycle_from(txn)? {
        Some(walk) => {
            let along = edges_on(alloc, edges, &walk)?;
            Ok(Some(Cycle::of(along)))
        }
        None => Ok(None),
    }
}

/// Who waits for whom by these edges.
fn graph_of(alloc: Global, edges: &[Edge]) -> Result<WaitGraph, AllocError>
    ensures { IfOk result (λ graph. graph ≡ waits_of edges.now) }
{
    let mut graph = WaitGraph::new(alloc);
    for edge in edges {
        graph.add_edge(edge.waiter, edge.holder)?;
    }
    Ok(graph)
}

/// The edges that the walk goes along.
fn edges_on(alloc: Global, edges: &[Edge], walk: &[u64]) -> Result<Vec<Edge>, AllocError>
    ensures { IfOk result (λ along. along.items ≡ edges_along edges.now walk.now) }
{
    let mut along = Vec::new(alloc);
    let Some((first, rest)) = walk.split_first() else {
        return Ok(along);
    };
    let mut from = *first;
    for to in rest {
        if let Some(edge) = edge_between(edges, from, *to) {
            along.push(edge)?;
        }
        from = *to;
    }
    Ok(along)
}

/// The first edge from the one to the other.
fn edge_between(edges: &[Edge], waiter: u64, holder: u64) -> Option<Edge>
    ensures { result ≡ edge_between edges.now waiter holder }
{
    edges
        .iter()
        .copied()
        .find(|edge| edge.waiter == waiter && edge.holder == holder)
}
