//! Small graphs, each walk once.
use super::*;
use std::alloc::{AllocError, Global};
use std::test::Fail;

fn graph(alloc: Global, edges: &[(u64, u64)]) -> Result<WaitGraph, AllocError> {
    let mut graph = WaitGraph::new(alloc);
    for edge in edges {
        graph.add_edge(edge.0, edge.1)?;
    }
    Ok(graph)
}

#[test]
fn the_least_walk_of_two(rt: HostRuntime) -> Result<(), Fail> {
    let graph = graph(rt.alloc(), &[(1, 3), (3, 1), (1, 2), (2, 1)])?;
    let walk = graph.cycle_from(1)?.ok_or("a walk")?;
    assert_eq!(rt; walk.as_slice(), [1, 2, 1].as_slice());
    Ok(())
}

#[test]
fn a_closed_walk_of_others_is_none(rt: HostRuntime) -> Result<(), Fail> {
    let graph = graph(rt.alloc(), &[(1, 2), (2, 3), (3, 2)])?;
    assert!(rt; graph.cycle_from(1)?.is_none());
    let empty = WaitGraph::new(rt.alloc());
    assert!(rt; empty.cycle_from(1)?.is_none());
    Ok(())
}

#[test]
fn numbers_are_compared_as_numbers(rt: HostRuntime) -> Result<(), Fail> {
    let graph = graph(rt.alloc(), &[(1, 10), (10, 1), (1, 9), (9, 1)])?;
    let walk = graph.cycle_from(1)?.ok_or("a walk")?;
    assert_eq!(rt; walk.as_slice(), [1, 9, 1].as_slice());
    Ok(())
}

#[test]
fn fewer_edges_come_before_lesser_numbers(rt: HostRuntime) -> Result<(), Fail> {
    let graph = graph(
        rt.alloc(),
        &[(5, 1), (1, 2), (2, 5), (5, 9), (9, 5), (9, 9)],
    )?;
    let walk = graph.cycle_from(5)?.ok_or("a walk")?;
    assert_eq!(rt; walk.as_slice(), [5, 9, 5].as_slice());
    let own = graph.cycle_from(9)?.ok_or("a walk")?;
    assert_eq!(rt; own.as_slice(), [9, 9].as_slice());
    Ok(())
}
