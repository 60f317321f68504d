//! Counts of lines and crossings on small floors and a large one, and each call on graphs once.
use crate::small::{Sides, small_floor};
use std::alloc::{AllocError, Global};
use std::test::Fail;
use visibility_graph::Graph;

fn graph(alloc: Global, rects: &[Sides], anchors: &[(i64, i64)]) -> Result<Graph, AllocError> {
    let floor = small_floor(alloc, rects, anchors)?;
    Graph::build(alloc, &floor)
}

/// The number of lines and crossings of the graph.
fn size(alloc: Global, rects: &[Sides], anchors: &[(i64, i64)]) -> Result<u64, AllocError> {
    let graph = graph(alloc, rects, anchors)?;
    Ok(graph.arena().written())
}

type Counted = (&'static [Sides], &'static [(i64, i64)], u64);

const SQUARE: Sides = (0, 0, 10, 10);

const COUNTED: [Counted; 6] = [
    (&[], &[], 0),
    (&[SQUARE], &[], 4 + 4),
    (&[SQUARE, (-5, 100, 5, 110)], &[], 8 + 14),
    // A corridor of width 0, without an anchor in it and with one.
    (&[SQUARE, (0, 10, 10, 20)], &[], 5 + 6),
    (&[SQUARE, (0, 10, 10, 20)], &[(5, 10)], 6 + 7),
    // Equal solids, one within them, and one that touches them.
    (
        &[
            (0, 0, 30, 30),
            (0, 0, 30, 30),
            (10, 10, 20, 20),
            (30, 5, 40, 15),
        ],
        &[],
        7 + 10,
    ),
];

#[test]
fn counts_lines_and_crossings(rt: HostRuntime) -> Result<(), Fail> {
    for (place, &(rects, anchors, want)) in COUNTED.iter().enumerate() {
        assert_eq!(rt; size(rt.alloc(), rects, anchors)?, want, "in row {place}");
    }
    Ok(())
}

fn many_anchors(alloc: Global) -> Result<Vec<(i64, i64)>, AllocError> {
    (0..=255u8)
        .map(|number| (i64::from(number) * 100, i64::from(number) * 70))
        .collect(alloc)
}

#[test]
fn holds_many_anchors(rt: HostRuntime) -> Result<(), Fail> {
    let anchors = many_anchors(rt.alloc())?;
    let written = size(rt.alloc(), &[], anchors.as_slice());
    assert_eq!(rt; written.ok(), Some(512 + 65536));
    Ok(())
}
