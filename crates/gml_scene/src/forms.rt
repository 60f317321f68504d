//! The forms in which numbers, points, lines, pins, settings, and whole nodes and edges are
//! written.
ghost use Rattle.std.specs.Prelude.{◌≡◌, codes, option_map, IfOk, OnOk};
ghost use Rattle.gml_text.specs.Tree.{◌then◌, list, text};
ghost use Rattle.gml_text.specs.View.{content, pairs};
ghost use Rattle.scene_model.specs.Letters.{letters};
ghost use Rattle.scene_model.specs.Valid.{IsNode};
ghost use Rattle.gml_scene.specs.Changes.{all_of, one};
ghost use Rattle.gml_scene.specs.Forms.{box_pairs, class_content, class_pairs, cost_pairs, edge_pair, id_content, label_pairs, length_content};
ghost use Rattle.gml_scene.specs.Forms.{line_content, line_pairs, node_pair, pin_pair, pin_pairs, point_pairs, settings_pairs, via_pair};

use crate::changes::push;
use crate::copies::bytes_of;
use fixed_milli::write_milli;
use gml_text::{Bytes, Pair, Value};
use plane_geom::Point;
use scene_model::{Dirs, Edge, Node, Pin, Settings};
use std::alloc::{AllocError, Global};

/// A length in units.
pub(crate) fn length_of(alloc: Global, length: i64) -> Result<Value, AllocError>
    ensures { IfOk result (λ v. content v ≡ length_content length) }
{
    let text = write_milli(alloc, length)?;
    Ok(Value::Number(bytes_of(alloc, text.as_bytes())?))
}

/// A class as a plain whole number.
pub(crate) fn class_of(alloc: Global, class: u32) -> Result<Value, AllocError>
    ensures { IfOk result (λ v. content v ≡ class_content class) }
{
    let text = format!(in alloc; "{class}")?;
    Ok(Value::Number(bytes_of(alloc, text.as_bytes())?))
}

/// An id as a plain whole number.
fn id_of(alloc: Global, id: i64) -> Result<Value, AllocError>
    ensures { IfOk result (λ v. content v ≡ id_content id) }
{
    let text = format!(in alloc; "{id}")?;
    Ok(Value::Number(bytes_of(alloc, text.as_bytes())?))
}

/// Appends a length.
fn push_length(
    alloc: Global,
    list: &mut Vec<Pair>,
    key: &[u8],
    length: i64,
) -> Result<(), AllocError>
    ensures { OnOk result (pairs list.new.items ≡ pairs list.old.items then one key.now (length_content length)) }
{
    push(alloc, list, key, length_of(alloc, length)?)
}

/// The two coordinates of a point.
fn point_of(alloc: Global, point: Point) -> Result<Value, AllocError>
    ensures { IfOk result (λ v. content v ≡ list (point_pairs point)) }
{
    let mut list = Vec::with_capacity(alloc, 2)?;
    push_length(alloc, &mut list, b"x", point.x)?;
    push_length(alloc, &mut list, b"y", point.y)?;
    Ok(Value::List(list))
}

/// A line of these points.
pub(crate) fn line_of(alloc: Global, points: &[Point]) -> Result<Value, AllocError>
    ensures { IfOk result (λ v. content v ≡ line_content points.now) }
{
    let mut list = Vec::with_capacity(alloc, points.len())?;
    for point in points {
        push(alloc, &mut list, b"point", point_of(alloc, *point)?)?;
    }
    Ok(Value::List(list))
}

/// Appends checkpoints.
pub(crate) fn push_via(
    alloc: Global,
    list: &mut Vec<Pair>,
    points: &[Point],
) -> Result<(), AllocError>
    ensures { OnOk result (pairs list.new.items ≡ pairs list.old.items then all_of via_pair points.now) }
{
    for point in points {
        push(alloc, list, b"via", point_of(alloc, *point)?)?;
    }
    Ok(())
}

/// The letters of the directions, in the order E, S, W, N.
pub fn letters_of(alloc: Global, dirs: Dirs) -> Result<Vec<u8>, AllocError>
    ensures { IfOk result (λ v. v.items ≡ letters dirs) }
{
    let mut letters = Vec::new(alloc);
    if dirs.east {
        letters.push(b'E')?;
    }
    if dirs.south {
        letters.push(b'S')?;
    }
    if dirs.west {
        letters.push(b'W')?;
    }
    if dirs.north {
        letters.push(b'N')?;
    }
    Ok(letters)
}

/// Appends the cost of a pin, if it is not 0.
fn push_cost(alloc: Global, list: &mut Vec<Pair>, cost: i64) -> Result<(), AllocError>
    ensures { OnOk result (pairs list.new.items ≡ pairs list.old.items then cost_pairs cost) }
{
    if cost == 0 {
        return Ok(());
    }
    push_length(alloc, list, b"cost", cost)
}

/// The list of a pin.
fn pin_of(alloc: Global, pin: Pin) -> Result<Value, AllocError>
    ensures { IfOk result (λ v. content v ≡ list (pin_pairs pin)) }
{
    let mut list = Vec::new(alloc);
    push(alloc, &mut list, b"class", class_of(alloc, pin.class)?)?;
    push_length(alloc, &mut list, b"x", pin.dx)?;
    push_length(alloc, &mut list, b"y", pin.dy)?;
    let letters = Bytes::from_vec(letters_of(alloc, pin.dirs)?);
    push(alloc, &mut list, b"dirs", Value::Text(letters))?;
    push_cost(alloc, &mut list, pin.cost)?;
    Ok(Value::List(list))
}

/// Appends pins.
pub(crate) fn push_pins(alloc: Global, list: &mut Vec<Pair>, pins: &[Pin]) -> Result<(), AllocError>
    ensures { OnOk result (pairs list.new.items ≡ pairs list.old.items then all_of pin_pair pins.now) }
{
    for pin in pins {
        push(alloc, list, b"pin", pin_of(alloc, *pin)?)?;
    }
    Ok(())
}

/// The centre and size of a node.
fn box_of(alloc: Global, node: &Node) -> Result<Value, AllocError>
    requires { IsNode node.now }
    ensures { IfOk result (λ v. content v ≡ list (box_pairs node.now)) }
{
    let mut list = Vec::new(alloc);
    push_length(alloc, &mut list, b"x", node.x)?;
    push_length(alloc, &mut list, b"y", node.y)?;
    push_length(alloc, &mut list, b"w", 2 * node.half_w)?;
    push_length(alloc, &mut list, b"h", 2 * node.half_h)?;
    Ok(Value::List(list))
}

/// Appends a label, if it is not empty.
fn push_label(alloc: Global, list: &mut Vec<Pair>, label: &[u8]) -> Result<(), AllocError>
    ensures { OnOk result (pairs list.new.items ≡ pairs list.old.items then label_pairs label.now) }
{
    if label.is_empty() {
        return Ok(());
    }
    push(alloc, list, b"label", Value::Text(bytes_of(alloc, label)?))
}

/// Appends a whole node.
pub(crate) fn push_node(
    alloc: Global,
    list: &mut Vec<Pair>,
    node: &Node,
    label: &[u8],
) -> Result<(), AllocError>
    requires { IsNode node.now }
    ensures { OnOk result (pairs list.new.items ≡ pairs list.old.items then node_pair label.now node.now) }
{
    let mut inner = Vec::new(alloc);
    push(alloc, &mut inner, b"id", id_of(alloc, node.id)?)?;
    push_label(alloc, &mut inner, label)?;
    push(alloc, &mut inner, b"graphics", box_of(alloc, node)?)?;
    push_pins(alloc, &mut inner, node.pins.as_slice())?;
    push(alloc, list, b"node", Value::List(inner))
}

/// Appends a class of an edge's end, if it is not 0.
fn push_class(alloc: Global, list: &mut Vec<Pair>, key: &[u8], class: u32) -> Result<(), AllocError>
    ensures { OnOk result (pairs list.new.items ≡ pairs list.old.items then class_pairs key.now class) }
{
    if class == 0 {
        return Ok(());
    }
    push(alloc, list, key, class_of(alloc, class)?)
}

/// Appends the `graphics` of a line, if there is one.
pub(crate) fn push_line(
    alloc: Global,
    list: &mut Vec<Pair>,
    line: Option<&[Point]>,
) -> Result<(), AllocError>
    ensures { OnOk result (pairs list.new.items ≡ pairs list.old.items then line_pairs (option_map (λ l. l.now) line.entry)) }
{
    let Some(points) = line else {
        return Ok(());
    };
    let mut graphics = Vec::new(alloc);
    push(alloc, &mut graphics, b"Line", line_of(alloc, points)?)?;
    push(alloc, list, b"graphics", Value::List(graphics))
}

/// Appends a whole edge.
pub(crate) fn push_edge(
    alloc: Global,
    list: &mut Vec<Pair>,
    edge: &Edge,
    label: &[u8],
    line: Option<&[Point]>,
) -> Result<(), AllocError>
    ensures { OnOk result (pairs list.new.items ≡ pairs list.old.items then edge_pair label.now (option_map (λ l. l.now) line.entry) edge.now) }
{
    let mut inner = Vec::new(alloc);
    push(alloc, &mut inner, b"source", id_of(alloc, edge.from)?)?;
    push(alloc, &mut inner, b"target", id_of(alloc, edge.to)?)?;
    push_label(alloc, &mut inner, label)?;
    push_class(alloc, &mut inner, b"sourcePin", edge.from_class)?;
    push_class(alloc, &mut inner, b"targetPin", edge.to_class)?;
    push_via(alloc, &mut inner, edge.via.as_slice())?;
    push_line(alloc, &mut inner, line)?;
    push(alloc, list, b"edge", Value::List(inner))
}

/// Appends a `router` with all settings.
pub(crate) fn push_router(
    alloc: Global,
    graph: &mut Vec<Pair>,
    settings: Settings,
) -> Result<(), AllocError>
    ensures { OnOk result (pairs graph.new.items ≡ pairs graph.old.items then one (codes "router") (list (settings_pairs settings))) }
{
    let mut inner = Vec::new(alloc);
    push_length(alloc, &mut inner, b"penalty", settings.penalty)?;
    push_length(alloc, &mut inner, b"buffer", settings.buffer)?;
    push_length(alloc, &mut inner, b"nudge", settings.nudge)?;
    push(alloc, graph, b"router", Value::List(inner))
}
