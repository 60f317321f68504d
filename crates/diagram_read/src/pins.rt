//! The pins of a node's list.
ghost use Rattle.std.specs.Prelude.{◌≡◌, ◌≤◌, codes, option_map};
ghost use Rattle.std.specs.Option.{option_copied};
ghost use Rattle.gml_text.specs.View.{content, pairs};
ghost use Rattle.diagram_read.specs.Faults.{IsRead, IsReadInto, each};
ghost use Rattle.diagram_read.specs.Nodes.{with_pin};
ghost use Rattle.diagram_read.specs.Pins.{cost_in, dirs_in, pin_of};
ghost use Rattle.diagram_read.specs.Values.{values_at};

use crate::fault::{DiagramFault, Part};
use crate::values::{as_list, class_of, exact_at, has_key, in_range, milli_of, value_at};
use gml_text::{Pair, Value};
use scene_model::{Dirs, Node, Pin, is_outside};

/// The most pins of a diagram.
const MOST_PINS: usize = 256;

/// The node with the pins of its list. `place` is that of the node, and the nodes before it have
/// `before` pins.
pub(crate) fn with_pins(
    mut node: Node,
    place: u32,
    before: usize,
    list: &[Pair],
) -> Result<Node, DiagramFault>
    requires { before ≤ 256 }
    ensures { IsRead (each (with_pin place before) node (values_at (codes "pin") (pairs list.now))) result }
{
    add_pins(&mut node, place, before, list)?;
    Ok(node)
}

/// Appends the pins of a node's list.
fn add_pins(node: &mut Node, place: u32, before: usize, list: &[Pair]) -> Result<(), DiagramFault>
    requires { before ≤ 256 }
    ensures { IsReadInto (each (with_pin place before) node.old (values_at (codes "pin") (pairs list.now))) node.new result }
{
    for pair in list {
        if has_key(pair, b"pin") {
            add_pin(node, place, before, &pair.value)?;
        }
    }
    Ok(())
}

/// Appends the pin that a value describes to those of the node.
fn add_pin(node: &mut Node, place: u32, before: usize, value: &Value) -> Result<(), DiagramFault>
    requires { before ≤ 256 }
    ensures { IsReadInto (with_pin place before node.old (content value.now)) node.new result }
{
    if before + node.pins.as_slice().len() >= MOST_PINS {
        return Err(DiagramFault::TooMany { part: Part::Pin });
    }
    let pin = pin_of(node, value).ok_or(DiagramFault::BadPin { place })?;
    node.pins.push(pin)?;
    Ok(())
}

/// The pin of the node that a value describes, if it is valid.
fn pin_of(node: &Node, value: &Value) -> Option<Pin>
    ensures { result ≡ pin_of node.now (content value.now) }
{
    let pairs = as_list(value)?;
    let class = class_of(value_at(pairs, b"class")?)?;
    if class == 0 {
        return None;
    }
    let pin = Pin {
        class,
        dx: exact_at(pairs, b"x")?,
        dy: exact_at(pairs, b"y")?,
        dirs: dirs_in(value_at(pairs, b"dirs"))?,
        cost: cost_in(value_at(pairs, b"cost"))?,
    };
    if is_outside(node.half_w, node.half_h, pin) {
        None
    } else {
        Some(pin)
    }
}

/// The directions that a string gives, or all four if nothing is given.
fn dirs_in(value: Option<&Value>) -> Option<Dirs>
    ensures { result ≡ dirs_in (option_map content (option_copied value.entry)) }
{
    match value {
        None => Some(Dirs::ALL),
        Some(Value::Text(letters)) => Dirs::from_letters(letters.as_slice()),
        Some(Value::Number(_) | Value::List(_)) => None,
    }
}

/// The cost, from 0 to 10^9 thousandths; 0 if none is given.
fn cost_in(value: Option<&Value>) -> Option<i64>
    ensures { result ≡ cost_in (option_map content (option_copied value.entry)) }
{
    let Some(value) = value else {
        return Some(0);
    };
    let cost = in_range(milli_of(value))?;
    if cost < 0 || 1_000_000_000 < cost {
        return None;
    }
    Some(cost)
}
