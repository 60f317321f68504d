//! The list of a node that is already in the diagram.
ghost use Rattle.std.specs.Prelude.{◌≡◌, codes, IfOk, OnOk};
ghost use Rattle.gml_text.specs.View.{content, pairs};
ghost use Rattle.scene_model.specs.Valid.{IsNode};
ghost use Rattle.gml_scene.specs.Changes.{change_inside, change_list};
ghost use Rattle.gml_scene.specs.Nodes.{node_again, put_box, put_length, put_pins};

use crate::changes::{list_place, put, remove_all};
use crate::copies::copy_pairs;
use crate::forms::{length_of, push_pins};
use gml_text::{Pair, Value};
use scene_model::{Node, Pin};
use std::alloc::{AllocError, Global};

/// Writes a length if it has changed.
pub(crate) fn put_length(
    alloc: Global,
    list: &mut Vec<Pair>,
    key: &[u8],
    was: i64,
    now: i64,
) -> Result<(), AllocError>
    ensures { OnOk result (pairs list.new.items ≡ put_length key.now was now (pairs list.old.items)) }
{
    if was == now {
        return Ok(());
    }
    put(alloc, list, key, length_of(alloc, now)?)
}

/// Writes centre and size if they have changed.
fn put_box(
    alloc: Global,
    graphics: &mut Vec<Pair>,
    was: &Node,
    node: &Node,
) -> Result<(), AllocError>
    requires was { IsNode was.now }
    requires node { IsNode node.now }
    ensures { OnOk result (pairs graphics.new.items ≡ put_box was.now node.now (pairs graphics.old.items)) }
{
    put_length(alloc, graphics, b"x", was.x, node.x)?;
    put_length(alloc, graphics, b"y", was.y, node.y)?;
    put_length(alloc, graphics, b"w", 2 * was.half_w, 2 * node.half_w)?;
    put_length(alloc, graphics, b"h", 2 * was.half_h, 2 * node.half_h)
}

/// The same in `value`, which is the value of a `graphics`.
fn put_box_in(alloc: Global, value: &mut Value, was: &Node, node: &Node) -> Result<(), AllocError>
    requires was { IsNode was.now }
    requires node { IsNode node.now }
    ensures { OnOk result (content value.new ≡ change_inside (put_box was.now node.now) (content value.old)) }
{
    let Value::List(graphics) = value else {
        return Ok(());
    };
    put_box(alloc, graphics, was, node)
}

/// The same in the first `graphics` that is a list.
fn put_graphics(
    alloc: Global,
    list: &mut Vec<Pair>,
    was: &Node,
    node: &Node,
) -> Result<(), AllocError>
    requires was { IsNode was.now }
    requires node { IsNode node.now }
    ensures { OnOk result (pairs list.new.items ≡ change_list (codes "graphics") (put_box was.now node.now) (pairs list.old.items)) }
{
    match list_place(list, b"graphics") {
        Some(index) => put_box_in(alloc, &mut list[index].value, was, node),
        None => Ok(()),
    }
}

/// Replaces all pins, appended at the end, if they have changed.
fn put_pins(
    alloc: Global,
    list: &mut Vec<Pair>,
    was: &[Pin],
    pins: &[Pin],
) -> Result<(), AllocError>
    ensures { OnOk result (pairs list.new.items ≡ put_pins was.now pins.now (pairs list.old.items)) }
{
    if was == pins {
        return Ok(());
    }
    remove_all(list, b"pin");
    push_pins(alloc, list, pins)
}

/// The pairs of a node that was read as `was` and is now `node`.
pub(crate) fn node_again(
    alloc: Global,
    was: &Node,
    node: &Node,
    list: &[Pair],
) -> Result<Vec<Pair>, AllocError>
    requires was { IsNode was.now }
    requires node { IsNode node.now }
    ensures { IfOk result (λ v. pairs v.items ≡ node_again was.now node.now (pairs list.now)) }
{
    let mut out = copy_pairs(alloc, list)?;
    put_graphics(alloc, &mut out, was, node)?;
    put_pins(alloc, &mut out, was.pins.as_slice(), node.pins.as_slice())?;
    Ok(out)
}
