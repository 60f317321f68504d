//! The edges of a diagram.
ghost use Rattle.std.specs.Prelude.{◌≡◌, ◌≤◌, [], codes, option_map};
ghost use Rattle.std.specs.Option.{option_copied};
ghost use Rattle.gml_text.specs.View.{content, pairs};
ghost use Rattle.diagram_read.specs.Checkpoints.{checkpoint_of};
ghost use Rattle.diagram_read.specs.Edges.{class_in, connector_in, end_node, loop_at, weight_in, weight_of, with_via};
ghost use Rattle.diagram_read.specs.Faults.{IsRead, IsReadInto, each};
ghost use Rattle.diagram_read.specs.Values.{value_at, values_at};

use crate::fault::{DiagramFault, Part};
use crate::values::{as_list, class_of, exact_at, has_key, id_at, value_at};
use gml_text::{Pair, Value};
use plane_geom::Point;
use scene_model::{Edge, Node, Via, is_off};
use scene_store::Scene;
use std::alloc::Global;

/// The most checkpoints of an edge.
const MOST_VIA_OF_EDGE: usize = 4;

/// The most checkpoints of a diagram.
const MOST_VIA: usize = 256;

/// An edge's list: its place among the edges, from 1, and its place among the pairs of the graph,
/// from 0.
#[derive(Clone, Copy)]
pub(crate) struct EdgeHead {
    pub(crate) place: u32,
    pub(crate) origin: u32,
}

/// An edge from a node to itself; nothing else of it is read.
pub(crate) fn loop_at(alloc: Global, head: EdgeHead, id: i64) -> Edge
    ensures { result ≡ loop_at head.place id head.origin }
{
    Edge {
        number: head.place,
        from: id,
        to: id,
        from_class: 0,
        to_class: 0,
        via: Via::new(alloc),
        origin: Some(head.origin),
        weight: 1,
    }
}

/// An edge between two nodes, if the edges before it have `before` checkpoints.
pub(crate) fn connector_in(
    alloc: Global,
    head: EdgeHead,
    before: usize,
    from: &Node,
    to: &Node,
    list: &[Pair],
) -> Result<Edge, DiagramFault>
    requires { before ≤ 256 }
    ensures { IsRead (connector_in head.place before from.now to.now (head.origin, pairs list.now)) result }
{
    let place = head.place;
    let bad_end = DiagramFault::BadEnd { place };
    let from_class = class_in(from, value_at(list, b"sourcePin")).ok_or(bad_end)?;
    let to_class = class_in(to, value_at(list, b"targetPin")).ok_or(bad_end)?;
    let via = via_in(alloc, place, before, list)?;
    let weight = weight_in(value_at(list, b"nudgeWeight")).ok_or(DiagramFault::BadWeight {
        place,
    })?;
    Ok(Edge {
        number: place,
        from: from.id,
        to: to.id,
        from_class,
        to_class,
        via,
        origin: Some(head.origin),
        weight,
    })
}

/// The node that the end with this key names.
pub(crate) fn end_at<'a>(scene: &'a Scene, list: &[Pair], key: &[u8]) -> Option<&'a Node>
    ensures { option_copied result ≡ end_node scene.now (value_at key.now (pairs list.now)) }
{
    scene.node(id_at(list, key)?)
}

/// The class of the pins that an end at the node may use; 0 if none is given.
fn class_in(node: &Node, value: Option<&Value>) -> Option<u32>
    ensures { result ≡ class_in node.now (option_map content (option_copied value.entry)) }
{
    let Some(value) = value else {
        return Some(0);
    };
    let class = class_of(value)?;
    if node.has_class(class) {
        Some(class)
    } else {
        None
    }
}

/// The weight of a connector, from 1 to 4; 1 if none is given.
fn weight_in(value: Option<&Value>) -> Option<u32>
    ensures { result ≡ weight_in (option_map content (option_copied value.entry)) }
{
    match value {
        None => Some(1),
        Some(Value::Number(bytes)) => weight_of(bytes.as_slice()),
        Some(Value::Text(_) | Value::List(_)) => None,
    }
}

/// The weight that the bytes spell: one digit from 1 to 4.
fn weight_of(bytes: &[u8]) -> Option<u32>
    ensures { result ≡ weight_of bytes.now }
{
    match bytes {
        [digit @ b'1'..=b'4'] => Some(u32::from(*digit - b'0')),
        _ => None,
    }
}

/// The checkpoints of an edge's list. `place` is that of the edge, and the edges before it have
/// `before` checkpoints.
fn via_in(alloc: Global, place: u32, before: usize, list: &[Pair]) -> Result<Via, DiagramFault>
    requires { before ≤ 256 }
    ensures { IsRead (each (with_via place before) [] (values_at (codes "via") (pairs list.now))) result }
{
    let mut via = Via::new(alloc);
    add_all_via(&mut via, place, before, list)?;
    Ok(via)
}

/// Appends the checkpoints of an edge's list.
fn add_all_via(via: &mut Via, place: u32, before: usize, list: &[Pair]) -> Result<(), DiagramFault>
    requires { before ≤ 256 }
    ensures { IsReadInto (each (with_via place before) via.old (values_at (codes "via") (pairs list.now))) via.new result }
{
    for pair in list {
        if has_key(pair, b"via") {
            add_via(via, place, before, &pair.value)?;
        }
    }
    Ok(())
}

/// Appends the checkpoint that a value describes.
fn add_via(via: &mut Via, place: u32, before: usize, value: &Value) -> Result<(), DiagramFault>
    requires { before ≤ 256 }
    ensures { IsReadInto (with_via place before via.old (content value.now)) via.new result }
{
    let count = via.as_slice().len();
    if count >= MOST_VIA_OF_EDGE || before + count >= MOST_VIA {
        return Err(DiagramFault::TooMany { part: Part::Via });
    }
    let point = checkpoint_of(value).ok_or(DiagramFault::BadVia { place })?;
    via.insert(count, point)?;
    Ok(())
}

/// The checkpoint that a value describes, if it is valid.
fn checkpoint_of(value: &Value) -> Option<Point>
    ensures { result ≡ checkpoint_of (content value.now) }
{
    let pairs = as_list(value)?;
    let point = Point {
        x: exact_at(pairs, b"x")?,
        y: exact_at(pairs, b"y")?,
    };
    if is_off(point.x, 0) || is_off(point.y, 0) {
        None
    } else {
        Some(point)
    }
}
