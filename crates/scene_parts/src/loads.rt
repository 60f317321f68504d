//! Nodes and edges that are loaded from a diagram: their refusals, and how they are appended.
ghost use Rattle.std.specs.Prelude.{◌≡◌, ◌+◌, ◌≤◌, ◌<◌, None, OnOk, OnErr};
ghost use Rattle.scene_model.specs.Edits.{first_some};
ghost use Rattle.scene_model.specs.Loads.{edge_refusal, is_no_half, node_refusal, pin_refusals, via_refusals, with_edge, with_node};
ghost use Rattle.scene_model.specs.Scene.{node_with};
ghost use Rattle.scene_model.specs.Valid.{IsValid};

use crate::parts::Parts;
use plane_geom::Point;
use scene_model::{Edge, Node, Pin, SceneFault, is_off, is_outside};
use std::alloc::AllocError;

/// Whether no box has this half size.
fn is_no_half(half: i64) -> bool
    ensures { result ≡ is_no_half half }
{
    half < 0 || 1_000_000_000 < half
}

/// Why the pins are refused, of which the first has the number `place` at its node, where the scene
/// already has `count` pins.
fn refusal_of_pins(
    half_w: i64,
    half_h: i64,
    count: u32,
    place: u32,
    pins: &[Pin],
) -> Option<SceneFault>
    requires few { count ≤ 256 }
    requires early { place ≤ count + 1 }
    ensures { result ≡ first_some (pin_refusals half_w half_h count place pins.now) }
{
    let (&pin, rest) = pins.split_first()?;
    if pin.class == 0 || 65_535 < pin.class {
        return Some(SceneFault::OutOfRange { word: 3 });
    }
    if count >= 256 {
        return Some(SceneFault::TooMany { limit: 256 });
    }
    if is_outside(half_w, half_h, pin) {
        return Some(SceneFault::PinOutside { place });
    }
    refusal_of_pins(half_w, half_h, count + 1, place + 1, rest)
}

/// Why the checkpoints are refused, where the edge already has `own` checkpoints and the scene
/// `count`.
fn refusal_of_via(own: u32, count: u32, points: &[Point]) -> Option<SceneFault>
    requires own_few { own ≤ 4 }
    requires few { count ≤ 256 }
    ensures { result ≡ first_some (via_refusals own count points.now) }
{
    let (&point, rest) = points.split_first()?;
    if own >= 4 {
        return Some(SceneFault::TooMany { limit: 4 });
    }
    if count >= 256 {
        return Some(SceneFault::TooMany { limit: 256 });
    }
    if is_off(point.x, 0) {
        return Some(SceneFault::OutOfRange { word: 4 });
    }
    if is_off(point.y, 0) {
        return Some(SceneFault::OutOfRange { word: 5 });
    }
    refusal_of_via(own + 1, count + 1, rest)
}

impl Parts {
    /// Why the node is refused, or `None` if it is not.
    pub fn node_refusal(&self, node: &Node) -> Option<SceneFault>
        requires { IsValid self.now }
        ensures { result ≡ node_refusal node.now self.now }
    {
        if self.node(node.id).is_some() {
            return Some(SceneFault::NodeExists { id: node.id });
        }
        if self.nodes.len() >= 256 {
            return Some(SceneFault::TooMany { limit: 256 });
        }
        if is_no_half(node.half_w) {
            return Some(SceneFault::OutOfRange { word: 5 });
        }
        if is_no_half(node.half_h) {
            return Some(SceneFault::OutOfRange { word: 6 });
        }
        if is_off(node.x, node.half_w) {
            return Some(SceneFault::OutOfRange { word: 3 });
        }
        if is_off(node.y, node.half_h) {
            return Some(SceneFault::OutOfRange { word: 4 });
        }
        let count = self.pin_count() as u32;
        refusal_of_pins(node.half_w, node.half_h, count, 1, node.pins.as_slice())
    }

    /// Why the edge is refused, or `None` if it is not.
    pub fn edge_refusal(&self, edge: &Edge) -> Option<SceneFault>
        requires { IsValid self.now }
        ensures { result ≡ edge_refusal edge.now self.now }
    {
        if self.node(edge.from).is_none() {
            return Some(SceneFault::UnknownNode { id: edge.from });
        }
        if self.node(edge.to).is_none() {
            return Some(SceneFault::UnknownNode { id: edge.to });
        }
        if self.lacks_class(edge.from, edge.from_class) {
            return Some(SceneFault::UnknownPinClass {
                class: edge.from_class,
            });
        }
        if self.lacks_class(edge.to, edge.to_class) {
            return Some(SceneFault::UnknownPinClass {
                class: edge.to_class,
            });
        }
        if self.edges.len() >= 512 {
            return Some(SceneFault::TooMany { limit: 512 });
        }
        refusal_of_via(0, self.via_count() as u32, edge.via.as_slice())
    }

    /// Appends a node. The only error is out of memory, which leaves everything as it was.
    pub fn push_node(&mut self, node: Node) -> Result<(), AllocError>
        requires { node_with self.old node.id ≡ None }
        ensures ok { OnOk result (self.new ≡ with_node node self.old) }
        ensures err { OnErr result (self.new ≡ self.old) }
    {
        self.nodes.push(node)
    }

    /// Appends an edge; the next edge number becomes its number plus 1. The only error is out of
    /// memory, which leaves everything as it was.
    pub fn push_edge(&mut self, edge: Edge) -> Result<(), AllocError>
        requires valid { IsValid self.old }
        requires next { self.old.next_edge ≤ edge.number }
        requires low { edge.number < 4294967295 }
        ensures ok { OnOk result (self.new ≡ with_edge edge self.old) }
        ensures err { OnErr result (self.new ≡ self.old) }
    {
        let next = edge.number + 1;
        self.edges.push(edge)?;
        self.next_edge = next;
        Ok(())
    }
}
