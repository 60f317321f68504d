//! Searches and how they are counted.
//!
//! The tasks have no choices and so no route, on a floor without solids.
ghost use Rattle.std.specs.Prelude.{[]};

use crate::choices::idle;
use route_search::{Tally, find_first};
use std::alloc::{AllocError, Global};
use std::test::Fail;
use visibility_graph::Graph;

/// Whether an idle task has a route.
fn has_route(alloc: Global, tally: &mut Tally) -> Result<bool, AllocError> {
    let graph = Graph::empty(alloc);
    let task = idle(alloc);
    match find_first(alloc, graph.arena(), &[], &task, tally) {
        Ok(route) => Ok(route.is_some()),
        Err(error) => Err(error),
    }
}

/// The number of searches before and after one for an idle task, and whether that has a route.
fn counted(alloc: Global) -> Result<(u64, u64, bool), AllocError> {
    let mut tally = Tally::new();
    let before = tally.count();
    let routed = has_route(alloc, &mut tally)?;
    Ok((before, tally.count(), routed))
}

#[test]
fn counts_a_search(rt: HostRuntime) -> Result<(), Fail> {
    assert_eq!(rt; counted(rt.alloc())?, (0, 1, false));
    Ok(())
}
