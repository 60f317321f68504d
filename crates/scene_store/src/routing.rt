//! What routing needs of a scene: its floor, and the tasks of its connectors.
ghost use Rattle.std.specs.Prelude.{◌≡◌, ◌+◌, ◌++◌, [], ◌∷◌, length, map, if◌then◌else◌, Some, IsSome, IfSome, IfOk, OnOk, MatchResult, option_and_then, slice_get};
ghost use Rattle.std.specs.List.{flat_map};
ghost use Rattle.scene_model.specs.Routing.{anchors, centre_pin, choice, choices_of, choices_with, directions, floor_of, pins_of_class, port, solids, task_of};
ghost use Rattle.scene_model.specs.Scene.{connectors, edge_with, node_with};
ghost use Rattle.scene_model.specs.Valid.{AreSettings, IsNode, IsPlaced, IsValid};

use plane_geom::{Dir, Floor, Point, Points, Rect, Solids};
use scene_model::{Dirs, Node, Pin, Settings};
use scene_parts::Parts;
use std::alloc::{AllocError, Global};
use walk_model::{Choice, Choices, Task};

/// The point where the straight line from the place in the direction meets the edge of the
/// rectangle.
fn port(rect: Rect, place: Point, dir: Dir) -> Point
    ensures { result ≡ port rect place dir }
{
    match dir {
        Dir::East => Point {
            x: rect.right,
            y: place.y,
        },
        Dir::South => Point {
            x: place.x,
            y: rect.bottom,
        },
        Dir::West => Point {
            x: rect.left,
            y: place.y,
        },
        Dir::North => Point {
            x: place.x,
            y: rect.top,
        },
    }
}

/// A pin of the node with one of its directions.
fn choice(settings: Settings, node: &Node, pin: Pin, dir: Dir) -> Choice
    requires settings { AreSettings settings }
    requires node { IsNode node.now }
    requires pin { IsPlaced node.now pin }
    ensures { result ≡ choice settings.buffer node.now pin dir }
{
    let place = node.place_of(pin);
    Choice {
        node: node.id,
        pin: place,
        dir,
        port: port(node.buffered_rect(settings), place, dir),
        cost: pin.cost.unsigned_abs(),
    }
}

/// Appends the choice, if its direction is set.
fn push_if(choices: &mut Vec<Choice>, set: bool, choice: Choice) -> Result<(), AllocError>
    ensures { OnOk result (choices.new.items ≡ choices.old.items ++ (if set then choice ∷ [] else [])) }
{
    if set {
        choices.push(choice)?;
    }
    Ok(())
}

/// Appends the choices of the pin.
fn push_choices(
    settings: Settings,
    node: &Node,
    pin: Pin,
    choices: &mut Vec<Choice>,
) -> Result<(), AllocError>
    requires settings { AreSettings settings }
    requires node { IsNode node.now }
    requires pin { IsPlaced node.now pin }
    ensures { OnOk result (choices.new.items ≡ choices.old.items ++ map (choice settings.buffer node.now pin) (directions pin.dirs)) }
{
    let east = choice(settings, node, pin, Dir::East);
    let south = choice(settings, node, pin, Dir::South);
    let west = choice(settings, node, pin, Dir::West);
    let north = choice(settings, node, pin, Dir::North);
    push_if(choices, pin.dirs.east, east)?;
    push_if(choices, pin.dirs.south, south)?;
    push_if(choices, pin.dirs.west, west)?;
    push_if(choices, pin.dirs.north, north)?;
    Ok(())
}

/// The direction at the place among those that are set; if there are too few, how far past them the
/// place is.
fn dir_at(dirs: Dirs, place: usize) -> Result<Dir, usize>
    ensures { MatchResult result (λ dir. slice_get (directions dirs) place ≡ Some dir) (λ past. place ≡ length (directions dirs) + past) }
{
    let east = usize::from(dirs.east);
    let south = east + usize::from(dirs.south);
    let west = south + usize::from(dirs.west);
    let north = west + usize::from(dirs.north);
    if place < east {
        Ok(Dir::East)
    } else if place < south {
        Ok(Dir::South)
    } else if place < west {
        Ok(Dir::West)
    } else if place < north {
        Ok(Dir::North)
    } else {
        Err(place - north)
    }
}

/// The choice at the place among those of an end with the class at the node.
fn choice_of_class(settings: Settings, node: &Node, class: u32, place: usize) -> Option<Choice>
    requires settings { AreSettings settings }
    requires node { IsNode node.now }
    ensures { result ≡ slice_get (choices_of settings.buffer node.now (pins_of_class node.now class)) place }
{
    let mut place = place;
    for pin in node.pins_among(class) {
        if pin.class == class {
            match dir_at(pin.dirs, place) {
                Ok(dir) => return Some(choice(settings, node, *pin, dir)),
                Err(past) => place = past,
            }
        }
    }
    None
}

/// The choices of an end with the class at the node.
fn choices_of_class(
    alloc: Global,
    settings: Settings,
    node: &Node,
    class: u32,
) -> Result<Choices, AllocError>
    requires settings { AreSettings settings }
    requires node { IsNode node.now }
    ensures { IfOk result (λ c. c ≡ choices_of settings.buffer node.now (pins_of_class node.now class)) }
{
    let mut choices = Vec::new(alloc);
    for pin in node.pins_among(class) {
        if pin.class == class {
            push_choices(settings, node, *pin, &mut choices)?;
        }
    }
    Ok(Choices(choices))
}

/// Appends the choices of all pins of the node.
fn push_all_choices(
    settings: Settings,
    node: &Node,
    choices: &mut Vec<Choice>,
) -> Result<(), AllocError>
    requires settings { AreSettings settings }
    requires node { IsNode node.now }
    ensures { OnOk result (choices.new.items ≡ choices.old.items ++ choices_of settings.buffer node.now (centre_pin ∷ node.now.pins)) }
{
    push_choices(settings, node, Pin::CENTRE, choices)?;
    for pin in node.pins.as_slice() {
        push_choices(settings, node, *pin, choices)?;
    }
    Ok(())
}

/// The solids, in the order of the nodes.
pub(crate) fn solids(alloc: Global, parts: &Parts) -> Result<Solids, AllocError>
    requires { IsValid parts.now }
    ensures { IfOk result (λ s. s ≡ solids parts.now) }
{
    let mut solids = Vec::new(alloc);
    for node in parts.nodes() {
        if let Some(solid) = node.solid(parts.settings()) {
            solids.push(solid)?;
        }
    }
    Ok(Solids(solids))
}

/// The choices of all pins, in the order of nodes and pins.
fn all_choices(alloc: Global, parts: &Parts) -> Result<Vec<Choice>, AllocError>
    requires { IsValid parts.now }
    ensures { IfOk result (λ c. c.items ≡ flat_map (λ n. choices_of parts.now.settings.buffer n (centre_pin ∷ n.pins)) parts.now.nodes) }
{
    let mut choices = Vec::new(alloc);
    for node in parts.nodes() {
        push_all_choices(parts.settings(), node, &mut choices)?;
    }
    Ok(choices)
}

/// The ports of all pins, in the order of nodes and pins.
fn ports(alloc: Global, parts: &Parts) -> Result<Vec<Point>, AllocError>
    requires { IsValid parts.now }
    ensures { IfOk result (λ p. p.items ≡ flat_map (λ n. map (λ c. c.port) (choices_of parts.now.settings.buffer n (centre_pin ∷ n.pins))) parts.now.nodes) }
{
    let choices = all_choices(alloc, parts)?;
    let mut ports = Vec::with_capacity(alloc, choices.len())?;
    for choice in &choices {
        ports.push(choice.port)?;
    }
    Ok(ports)
}

/// Appends the checkpoints of all connectors.
fn push_checkpoints(parts: &Parts, points: &mut Vec<Point>) -> Result<(), AllocError>
    ensures { OnOk result (points.new.items ≡ points.old.items ++ flat_map (λ e. e.via) (connectors parts.now)) }
{
    for edge in parts.edges() {
        if edge.from != edge.to {
            points.extend_from_slice(edge.via.as_slice())?;
        }
    }
    Ok(())
}

/// The ports of all pins, and then the checkpoints of all connectors.
fn anchors(alloc: Global, parts: &Parts) -> Result<Points, AllocError>
    requires { IsValid parts.now }
    ensures { IfOk result (λ p. p ≡ anchors parts.now) }
{
    let mut anchors = ports(alloc, parts)?;
    push_checkpoints(parts, &mut anchors)?;
    Ok(Points::from_vec(anchors))
}

/// The floor of the scene.
pub(crate) fn floor(alloc: Global, parts: &Parts) -> Result<Floor, AllocError>
    requires { IsValid parts.now }
    ensures { IfOk result (λ f. f ≡ floor_of parts.now) }
{
    Ok(Floor {
        solids: solids(alloc, parts)?,
        anchors: anchors(alloc, parts)?,
    })
}

/// The choices of an end with the class at the node with the id.
fn choices_at(alloc: Global, parts: &Parts, id: i64, class: u32) -> Result<Choices, AllocError>
    requires valid { IsValid parts.now }
    requires there { IsSome (node_with parts.now id) }
    ensures { IfOk result (λ c. c ≡ choices_with parts.now.settings.buffer class (node_with parts.now id)) }
{
    let node = parts.node(id).unwrap();
    choices_of_class(alloc, parts.settings(), node, class)
}

/// The choice at the place among those of an end with the class at the node with the id.
fn choice_at(parts: &Parts, id: i64, class: u32, place: usize) -> Option<Choice>
    requires { IsValid parts.now }
    ensures { result ≡ slice_get (choices_with parts.now.settings.buffer class (node_with parts.now id)) place }
{
    choice_of_class(parts.settings(), parts.node(id)?, class, place)
}

/// The choice at the place among those of the source of the edge with the number.
pub(crate) fn start_at(parts: &Parts, number: u32, place: usize) -> Option<Choice>
    requires { IsValid parts.now }
    ensures { result ≡ option_and_then (λ e. slice_get (task_of parts.now e).starts place) (edge_with parts.now number) }
{
    let edge = parts.edge(number)?;
    choice_at(parts, edge.from, edge.from_class, place)
}

/// The choice at the place among those of the target of the edge with the number.
pub(crate) fn end_at(parts: &Parts, number: u32, place: usize) -> Option<Choice>
    requires { IsValid parts.now }
    ensures { result ≡ option_and_then (λ e. slice_get (task_of parts.now e).ends place) (edge_with parts.now number) }
{
    let edge = parts.edge(number)?;
    choice_at(parts, edge.to, edge.to_class, place)
}

/// The task of the edge with the number.
pub(crate) fn task(alloc: Global, parts: &Parts, number: u32) -> Result<Task, AllocError>
    requires valid { IsValid parts.now }
    requires there { IsSome (edge_with parts.now number) }
    ensures { IfOk result (λ t. IfSome (edge_with parts.now number) (λ e. t ≡ task_of parts.now e)) }
{
    let edge = parts.edge(number).unwrap();
    Ok(Task {
        starts: choices_at(alloc, parts, edge.from, edge.from_class)?,
        ends: choices_at(alloc, parts, edge.to, edge.to_class)?,
        via: Points::from_slice(alloc, edge.via.as_slice())?,
        penalty: parts.settings().penalty.unsigned_abs(),
    })
}
