//! The nodes of a diagram, without their pins.
ghost use Rattle.std.specs.Prelude.{◌≡◌, option_map};
ghost use Rattle.std.specs.Option.{option_copied};
ghost use Rattle.gml_text.specs.View.{content, pairs};
ghost use Rattle.diagram_read.specs.Nodes.{bare_node, boxed, is_group_mark, size_in};

use crate::fault::{DiagramFault, Part};
use crate::values::{in_range, inner_at, is_no_number, milli_of, number_at, value_at};
use fixed_milli::MilliFault;
use gml_text::{Pair, Value};
use scene_model::{Node, Pins, half, is_off};
use std::alloc::Global;

/// The width or height of a node that gives none.
const DEFAULT_SIZE: i64 = 30_000;

/// A node's list: its place among the nodes, from 1, its place among the pairs of the graph, from
/// 0, and its id.
#[derive(Clone, Copy)]
pub(crate) struct NodeHead {
    pub(crate) place: u32,
    pub(crate) origin: u32,
    pub(crate) id: i64,
}

/// The numbers in the `graphics` of a node.
#[derive(Clone, Copy)]
struct Numbers {
    x: Result<i64, MilliFault>,
    y: Result<i64, MilliFault>,
    w: Result<i64, MilliFault>,
    h: Result<i64, MilliFault>,
}

/// The node of a list, with the centre and the size of its `graphics`, and without its pins.
pub(crate) fn bare_node(alloc: Global, head: NodeHead, list: &[Pair]) -> Result<Node, DiagramFault>
    ensures { result ≡ bare_node head.place head.id (head.origin, pairs list.now) }
{
    let no_place = DiagramFault::NoPlace { place: head.place };
    let graphics = inner_at(list, b"graphics").ok_or(no_place)?;
    let x = value_at(graphics, b"x").ok_or(no_place)?;
    let y = value_at(graphics, b"y").ok_or(no_place)?;
    let numbers = Numbers {
        x: milli_of(x),
        y: milli_of(y),
        w: size_in(value_at(graphics, b"w")),
        h: size_in(value_at(graphics, b"h")),
    };
    boxed(alloc, head, list, numbers)
}

/// The node of a list with this centre and size, without its pins.
fn boxed(
    alloc: Global,
    head: NodeHead,
    list: &[Pair],
    numbers: Numbers,
) -> Result<Node, DiagramFault>
    ensures { result ≡ boxed head.place head.id (head.origin, pairs list.now) numbers.x numbers.y numbers.w numbers.h }
{
    let Numbers { x, y, w, h } = numbers;
    if is_no_number(x) || is_no_number(y) || is_no_number(w) || is_no_number(h) {
        return Err(DiagramFault::BadNumber {
            part: Part::Node,
            place: head.place,
        });
    }
    let out_of_range = DiagramFault::OutOfRange {
        part: Part::Node,
        place: head.place,
    };
    let x = in_range(x).ok_or(out_of_range)?;
    let y = in_range(y).ok_or(out_of_range)?;
    let w = in_range(w).ok_or(out_of_range)?;
    let h = in_range(h).ok_or(out_of_range)?;
    if w < 0 || h < 0 {
        return Err(out_of_range);
    }
    let half_w = half(w);
    let half_h = half(h);
    if is_off(x, half_w) || is_off(y, half_h) {
        return Err(out_of_range);
    }
    Ok(Node {
        id: head.id,
        x,
        y,
        half_w,
        half_h,
        group: is_mark(number_at(list, b"isGroup")),
        pins: Pins(Vec::new(alloc)),
        origin: Some(head.origin),
    })
}

/// A width or a height, which is 30 units if it is missing.
fn size_in(value: Option<&Value>) -> Result<i64, MilliFault>
    ensures { result ≡ size_in (option_map content (option_copied value.entry)) }
{
    match value {
        Some(value) => milli_of(value),
        None => Ok(DEFAULT_SIZE),
    }
}

/// Whether the number marks a group: it is read as one unit.
fn is_mark(number: Result<i64, MilliFault>) -> bool
    ensures { result ≡ is_group_mark number }
{
    match number {
        Ok(value) => value == 1_000,
        Err(_) => false,
    }
}
