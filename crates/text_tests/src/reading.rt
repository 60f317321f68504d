//! A diagram in which much is passed over, and the scene that is read from it.

use diagram_read::{line_of, scene_of};
use gml_text::{Doc, parse};
use plane_geom::Point;
use scene_model::{Dirs, Pin};
use scene_store::Scene;
use std::alloc::Global;

/// A diagram in which much is ignored.
const SCENE: &str =
    "graph [ label 1 router 2 router [ buffer 2 nudge 0 penalty 1E0 penalty 3 ] node \"x\" \
node [ id -0 isGroup 0.9996 graphics [ x 0.0005 y -0.0005 w 20.0005 h -0.0004 ] pin [ class 7 x 0 y 0 ] ] \
foo [ node [ ] ] node [ isGroup 2 id 2 graphics [ x 1E2 y 0 ] ] edge [ target 2 source 0 sourcePin 7 \
via [ x 1 y 2 ] nudgeWeight 4 graphics 1 graphics [ Line [ point [ x 0 y 0 ] z 1 point 2 \
point [ y 3 x -2000000 ] ] Line 3 ] ] edge [ source 2 target 2 ] ]";

/// The pin of the scene.
const PIN: Pin = Pin {
    class: 7,
    dx: 0,
    dy: 0,
    dirs: Dirs::ALL,
    cost: 0,
};

/// The line of the scene.
const POINTS: [Point; 2] = [
    Point { x: 0, y: 0 },
    Point {
        x: -2_000_000_000,
        y: 3_000,
    },
];

/// The centre of a node of the scene, and the halves of its size.
fn box_of(scene: &Scene, id: i64) -> Option<(i64, i64, i64, i64)> {
    let node = scene.node(id)?;
    Some((node.x, node.y, node.half_w, node.half_h))
}

/// Whether a node of the scene is a group, and its place in the graph.
fn kind_of(scene: &Scene, id: i64) -> Option<(bool, Option<u32>)> {
    let node = scene.node(id)?;
    Some((node.group, node.origin))
}

/// Whether these are the pins of a node of the scene.
fn has_pins(scene: &Scene, id: i64, pins: &[Pin]) -> bool {
    match scene.node(id) {
        Some(node) => node.pins.as_slice() == pins,
        None => false,
    }
}

/// The ends of an edge of the scene, and the classes of its pins.
fn ends_of(scene: &Scene, number: u32) -> Option<(i64, i64, u32, u32)> {
    let edge = scene.edge(number)?;
    Some((edge.from, edge.to, edge.from_class, edge.to_class))
}

/// The weight of an edge of the scene, and its place in the graph.
fn weight_of(scene: &Scene, number: u32) -> Option<(u32, Option<u32>)> {
    let edge = scene.edge(number)?;
    Some((edge.weight, edge.origin))
}

/// Whether an edge of the scene has these checkpoints.
fn has_via(scene: &Scene, number: u32, via: &[Point]) -> bool {
    match scene.edge(number) {
        Some(edge) => edge.via.as_slice() == via,
        None => false,
    }
}

/// Whether the line of an edge of the scene has these points.
fn has_line(alloc: Global, doc: &Doc, scene: &Scene, points: &[Point]) -> bool {
    let Some(edge) = scene.edge(1) else {
        return false;
    };
    match line_of(alloc, doc, edge) {
        Ok(Some(line)) => line.0.as_slice() == points,
        _ => false,
    }
}

/// The settings of the scene, and its next edge's number.
fn settings_of(scene: &Scene) -> (i64, i64, i64, u32) {
    let settings = scene.settings();
    let next = scene.next_edge();
    (settings.penalty, settings.buffer, settings.nudge, next)
}

/// Whether the nodes of the scene are read correctly.
fn has_its_nodes(scene: &Scene) -> bool {
    box_of(scene, 0) == Some((1, -1, 10_001, 0))
        && box_of(scene, 2) == Some((100_000, 0, 15_000, 15_000))
        && kind_of(scene, 0) == Some((true, Some(4)))
        && kind_of(scene, 2) == Some((false, Some(6)))
        && has_pins(scene, 0, &[PIN])
}

/// Whether the edges of the scene are read correctly.
fn has_its_edges(scene: &Scene) -> bool {
    ends_of(scene, 1) == Some((0, 2, 7, 0))
        && ends_of(scene, 2) == Some((2, 2, 0, 0))
        && weight_of(scene, 1) == Some((4, Some(7)))
        && weight_of(scene, 2) == Some((1, Some(8)))
        && has_via(scene, 1, &[Point { x: 1_000, y: 2_000 }])
}

/// Whether the document's scene is read correctly.
fn is_right(alloc: Global, doc: &Doc, scene: &Scene) -> bool {
    settings_of(scene) == (1_000, 2_000, 0, 3)
        && has_its_nodes(scene)
        && has_its_edges(scene)
        && has_line(alloc, doc, scene, &POINTS)
}

/// Whether the document is read correctly.
fn is_read_right(alloc: Global, doc: &Doc) -> bool {
    match scene_of(alloc, doc) {
        Ok(scene) => is_right(alloc, doc, &scene),
        Err(_) => false,
    }
}

#[test]
fn reads_a_scene(rt: HostRuntime) {
    let read = parse(rt.alloc(), SCENE.as_bytes());
    let doc = read.expect(&rt, "the scene is no document");
    assert!(rt; is_read_right(rt.alloc(), &doc));
}
