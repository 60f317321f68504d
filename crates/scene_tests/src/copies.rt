//! Nodes and edges that are copied, and checkpoints that are changed.

use plane_geom::Point;
use scene_model::{Dirs, Edge, Node, Pin, Pins, Via};
use std::alloc::{AllocError, Global};

/// The only pin of the node.
const PIN: Pin = Pin {
    class: 7,
    dx: -3,
    dy: 4,
    dirs: Dirs {
        east: true,
        south: false,
        west: false,
        north: true,
    },
    cost: 5,
};

/// The checkpoints after a change.
const LEFT: [Point; 2] = [Point { x: 9, y: 9 }, Point { x: 2, y: 2 }];

/// A node with the pin.
fn node(alloc: Global) -> Result<Node, AllocError> {
    Ok(Node {
        id: i64::MIN,
        x: 1,
        y: 2,
        half_w: 3,
        half_h: 4,
        group: true,
        pins: Pins(vec![in alloc; PIN]?),
        origin: Some(6),
    })
}

/// Whether the node is as it was made.
fn is_the_node(node: &Node) -> bool {
    node.id == i64::MIN
        && node.group
        && node.origin == Some(6)
        && node.pins.as_slice() == [PIN].as_slice()
}

/// Whether the copy of the node is right.
fn copies_node(alloc: Global, node: &Node) -> bool {
    match node.copy(alloc) {
        Ok(copied) => is_the_node(&copied),
        Err(_) => false,
    }
}

/// Two checkpoints, after one was inserted between them and the first was removed.
fn changed(alloc: Global) -> Result<Via, AllocError> {
    let points = [Point { x: 1, y: 1 }, Point { x: 2, y: 2 }];
    let mut via = Via::from_slice(alloc, &points)?;
    via.insert(1, Point { x: 9, y: 9 })?;
    via.remove(0);
    Ok(via)
}

/// An edge with these checkpoints.
fn edge(via: Via) -> Edge {
    Edge {
        number: 8,
        from: 1,
        to: 2,
        from_class: 3,
        to_class: 4,
        via,
        origin: None,
        weight: 4,
    }
}

/// Whether the edge is as it was made.
fn is_the_edge(edge: &Edge) -> bool {
    edge.from == 1 && edge.to == 2 && edge.weight == 4 && edge.via.as_slice() == LEFT.as_slice()
}

/// Whether the copy of the edge is right.
fn copies_edge(alloc: Global, edge: &Edge) -> bool {
    match edge.copy(alloc) {
        Ok(copied) => is_the_edge(&copied),
        Err(_) => false,
    }
}

#[test]
fn copies_a_node(rt: HostRuntime) {
    let node = node(rt.alloc()).expect(&rt, "no memory for the node");
    assert!(rt; copies_node(rt.alloc(), &node));
}

#[test]
fn copies_an_edge(rt: HostRuntime) {
    let via = changed(rt.alloc()).expect(&rt, "no memory for the checkpoints");
    let edge = edge(via);
    assert!(rt; copies_edge(rt.alloc(), &edge));
    assert_eq!(rt; Via::new(rt.alloc()).as_slice().len(), 0);
}
