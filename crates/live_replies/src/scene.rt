//! What is said of the scene: how much it has, its settings, its boxes with their pins, and its connectors with their
//! checkpoints.
ghost use Rattle.std.specs.Prelude.{◌≡◌, ◌++◌, All, IfOk, OnOk, codes};
ghost use Rattle.std.specs.List.{flat_map};
ghost use Rattle.fixed_milli.specs.Milli.{milli_text};
ghost use Rattle.scene_model.specs.Valid.{IsNode};
ghost use Rattle.drawing.specs.Drawing.{edited_scene};
ghost use Rattle.live_replies.specs.Scene.{box_line, box_lines, checkpoint_line, classes_text, connector_line, connector_lines, cost_text, counts_line};
ghost use Rattle.live_replies.specs.Scene.{ends_text, group_text, ids_text, lengths_text, pin_line, place_text, scene_lines, settings_line, size_of};
ghost use Rattle.live_replies.specs.Texts.{ok_line};

use crate::line::{push_corner, push_milli, push_numbered, push_ok, push_with_id};
use drawing::Drawing;
use gml_scene::letters_of;
use plane_geom::Point;
use report_text::{Routed, push_routed};
use scene_model::{Edge, Node, Pin, Settings};
use scene_store::Scene;
use std::alloc::{AllocError, Global};

/// Appends the line that says how many boxes and connectors there are.
fn push_counts(out: &mut Vec<u8>, scene: &Scene) -> Result<(), AllocError>
    ensures { OnOk result (out.new.items ≡ out.old.items ++ counts_line scene.now) }
{
    push_numbered(out, b"scene ", scene.nodes().len() as u64)?;
    push_numbered(out, b" ", scene.edges().len() as u64)?;
    out.push(b'\n')?;
    Ok(())
}

/// Appends the penalty of a bend and the buffer around boxes.
fn push_costs(out: &mut Vec<u8>, settings: &Settings) -> Result<(), AllocError>
    ensures { OnOk result (out.new.items ≡ out.old.items ++ lengths_text settings.now.penalty settings.now.buffer) }
{
    push_milli(out, settings.penalty)?;
    push_milli(out, settings.buffer)
}

/// Appends the wanted distance of runs that were nudged apart.
fn push_nudge(out: &mut Vec<u8>, settings: &Settings) -> Result<(), AllocError>
    ensures { OnOk result (out.new.items ≡ out.old.items ++ (codes " " ++ milli_text settings.now.nudge)) }
{
    push_milli(out, settings.nudge)
}

/// Appends the line of the settings.
fn push_settings(out: &mut Vec<u8>, settings: &Settings) -> Result<(), AllocError>
    ensures { OnOk result (out.new.items ≡ out.old.items ++ settings_line settings.now) }
{
    out.extend_from_slice(b"settings")?;
    push_costs(out, settings)?;
    push_nudge(out, settings)?;
    out.push(b'\n')?;
    Ok(())
}

/// Appends the line of a pin.
fn push_pin(alloc: Global, out: &mut Vec<u8>, pin: &Pin) -> Result<(), AllocError>
    ensures { OnOk result (out.new.items ≡ out.old.items ++ pin_line pin.now) }
{
    let offset = Point {
        x: pin.dx,
        y: pin.dy,
    };
    let letters = letters_of(alloc, pin.dirs)?;
    push_numbered(out, b"pin ", u64::from(pin.class))?;
    push_corner(out, &offset)?;
    out.extend_from_slice(b" ")?;
    out.extend_from_slice(&letters)?;
    out.push(b'\n')?;
    Ok(())
}

/// Appends the line of each pin.
fn push_pins(alloc: Global, out: &mut Vec<u8>, pins: &[Pin]) -> Result<(), AllocError>
    ensures { OnOk result (out.new.items ≡ out.old.items ++ flat_map pin_line pins.now) }
{
    for pin in pins {
        push_pin(alloc, out, pin)?;
    }
    Ok(())
}

/// Appends that a box is a group, if it is one.
fn push_group(out: &mut Vec<u8>, is_group: bool) -> Result<(), AllocError>
    ensures { OnOk result (out.new.items ≡ out.old.items ++ group_text is_group) }
{
    if is_group {
        out.extend_from_slice(b" group")
    } else {
        Ok(())
    }
}

/// Appends the centre of a box.
fn push_centre(out: &mut Vec<u8>, node: &Node) -> Result<(), AllocError>
    ensures { OnOk result (out.new.items ≡ out.old.items ++ lengths_text node.now.x node.now.y) }
{
    push_milli(out, node.x)?;
    push_milli(out, node.y)
}

/// Appends the id of a box, and its centre.
fn push_place(out: &mut Vec<u8>, node: &Node) -> Result<(), AllocError>
    ensures { OnOk result (out.new.items ≡ out.old.items ++ place_text node.now) }
{
    push_with_id(out, b"box ", node.id)?;
    push_centre(out, node)
}

/// Appends the whole size of a box.
fn push_size(out: &mut Vec<u8>, node: &Node) -> Result<(), AllocError>
    requires { IsNode node.now }
    ensures { OnOk result (out.new.items ≡ out.old.items ++ size_of node.now) }
{
    let size = Point {
        x: 2 * node.half_w,
        y: 2 * node.half_h,
    };
    push_corner(out, &size)
}

/// Appends the line of a box.
fn push_box_line(out: &mut Vec<u8>, node: &Node) -> Result<(), AllocError>
    requires { IsNode node.now }
    ensures { OnOk result (out.new.items ≡ out.old.items ++ box_line node.now) }
{
    push_place(out, node)?;
    push_size(out, node)?;
    push_group(out, node.group)?;
    out.push(b'\n')?;
    Ok(())
}

/// Appends the lines of a box and of its pins.
fn push_box(alloc: Global, out: &mut Vec<u8>, node: &Node) -> Result<(), AllocError>
    requires { IsNode node.now }
    ensures { OnOk result (out.new.items ≡ out.old.items ++ box_lines node.now) }
{
    push_box_line(out, node)?;
    push_pins(alloc, out, node.pins.as_slice())
}

/// Appends the lines of each box.
fn push_boxes(alloc: Global, out: &mut Vec<u8>, nodes: &[Node]) -> Result<(), AllocError>
    requires { All IsNode nodes.now }
    ensures { OnOk result (out.new.items ≡ out.old.items ++ flat_map box_lines nodes.now) }
{
    for node in nodes {
        push_box(alloc, out, node)?;
    }
    Ok(())
}

/// Appends what the route of a connector costs, if it has one.
fn push_cost(out: &mut Vec<u8>, cost: Option<u64>) -> Result<(), AllocError>
    ensures { OnOk result (out.new.items ≡ out.old.items ++ cost_text cost) }
{
    match cost {
        Some(cost) => push_routed(out, &Routed::Cost(cost)),
        None => push_routed(out, &Routed::NoRoute),
    }
}

/// Appends the line of each checkpoint.
fn push_checkpoints(out: &mut Vec<u8>, via: &[Point]) -> Result<(), AllocError>
    ensures { OnOk result (out.new.items ≡ out.old.items ++ flat_map checkpoint_line via.now) }
{
    for point in via {
        push_checkpoint(out, point)?;
    }
    Ok(())
}

/// Appends the line of a checkpoint.
fn push_checkpoint(out: &mut Vec<u8>, point: &Point) -> Result<(), AllocError>
    ensures { OnOk result (out.new.items ≡ out.old.items ++ checkpoint_line point.now) }
{
    out.extend_from_slice(b"checkpoint")?;
    push_corner(out, point)?;
    out.push(b'\n')?;
    Ok(())
}

/// Appends the boxes at the ends of a connector.
fn push_ids(out: &mut Vec<u8>, edge: &Edge) -> Result<(), AllocError>
    ensures { OnOk result (out.new.items ≡ out.old.items ++ ids_text edge.now) }
{
    push_with_id(out, b" ", edge.from)?;
    push_with_id(out, b" ", edge.to)
}

/// Appends the classes of a connector's pins.
fn push_classes(out: &mut Vec<u8>, edge: &Edge) -> Result<(), AllocError>
    ensures { OnOk result (out.new.items ≡ out.old.items ++ classes_text edge.now) }
{
    push_numbered(out, b" ", u64::from(edge.from_class))?;
    push_numbered(out, b" ", u64::from(edge.to_class))
}

/// Appends the number of a connector, and its ends.
fn push_ends(out: &mut Vec<u8>, edge: &Edge) -> Result<(), AllocError>
    ensures { OnOk result (out.new.items ≡ out.old.items ++ ends_text edge.now) }
{
    push_numbered(out, b"connector ", u64::from(edge.number))?;
    push_ids(out, edge)?;
    push_classes(out, edge)
}

/// Appends the line of a connector, with the cost of its route in the present scene.
fn push_edge_line(out: &mut Vec<u8>, drawing: &Drawing, edge: &Edge) -> Result<(), AllocError>
    ensures { OnOk result (out.new.items ≡ out.old.items ++ connector_line drawing.now.session.book edge.now) }
{
    push_ends(out, edge)?;
    out.extend_from_slice(b" ")?;
    push_cost(out, drawing.cost(edge.number))?;
    out.push(b'\n')?;
    Ok(())
}

/// Appends the lines of a connector and of its checkpoints.
fn push_edge(out: &mut Vec<u8>, drawing: &Drawing, edge: &Edge) -> Result<(), AllocError>
    ensures { OnOk result (out.new.items ≡ out.old.items ++ connector_lines drawing.now.session.book edge.now) }
{
    push_edge_line(out, drawing, edge)?;
    push_checkpoints(out, edge.via.as_slice())
}

/// Appends the lines of each connector.
fn push_edges(out: &mut Vec<u8>, drawing: &Drawing, edges: &[Edge]) -> Result<(), AllocError>
    ensures { OnOk result (out.new.items ≡ out.old.items ++ flat_map (connector_lines drawing.now.session.book) edges.now) }
{
    for edge in edges {
        push_edge(out, drawing, edge)?;
    }
    Ok(())
}

/// The text that reports the scene: that of the open transaction, if one is open, otherwise the present one.
pub(crate) fn scene_text(alloc: Global, drawing: &Drawing) -> Result<Vec<u8>, AllocError>
    ensures { IfOk result (λ text. text.items ≡ scene_lines (edited_scene drawing.now.session.world.working drawing.now.session.world.present) drawing.now.session.book ++ ok_line) }
{
    let scene = drawing.scene();
    let mut text = Vec::new(alloc);
    push_counts(&mut text, scene)?;
    push_settings(&mut text, &scene.settings())?;
    push_boxes(alloc, &mut text, scene.nodes())?;
    push_edges(&mut text, drawing, scene.edges())?;
    push_ok(&mut text)?;
    Ok(text)
}
