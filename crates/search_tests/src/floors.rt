//! Graphs without solids on which a task may be searched.
ghost use Rattle.std.specs.Prelude.{◌≡◌, ◌≤◌, [], All, Contains, IfOk, IsTrue, length};
ghost use Rattle.plane_geom.specs.Floor.{IsFloor};
ghost use Rattle.plane_geom.specs.Point.{PointIsOnSheet};
ghost use Rattle.walk_model.specs.Floors.{HasAnchorsOf, IsFloorOf};

use plane_geom::{Floor, Point, Points, Solids};
use std::alloc::{AllocError, Global};
use std::test::Fail;
use visibility_graph::Graph;
use walk_model::{Choice, Task};

fn push_ports(ports: &mut Vec<Point>, choices: &[Choice]) -> Result<(), AllocError> {
    for choice in choices {
        ports.push(choice.port)?;
    }
    Ok(())
}

/// The ports and the checkpoints of the task.
fn anchors(alloc: Global, task: &Task) -> Result<Vec<Point>, AllocError> {
    let mut anchors = Vec::from_slice(alloc, task.via.as_slice())?;
    push_ports(&mut anchors, task.starts.as_slice())?;
    push_ports(&mut anchors, task.ends.as_slice())?;
    Ok(anchors)
}

/// The floor of the task, without solids.
fn floor(alloc: Global, task: &Task) -> Result<Floor, AllocError>
    ensures { IfOk result (λ f. f.solids ≡ []) }
{
    Ok(Floor {
        solids: Solids(Vec::new(alloc)),
        anchors: Points::from_vec(anchors(alloc, task)?),
    })
}

fn is_among(point: Point, anchors: &[Point]) -> bool
    ensures { IsTrue result → Contains anchors.now point }
{
    for anchor in anchors {
        if *anchor == point {
            return true;
        }
    }
    false
}

fn are_ports_among(choices: &[Choice], anchors: &[Point]) -> bool
    ensures { IsTrue result → All (λ c. Contains anchors.now c.port) choices.now }
{
    for choice in choices {
        if !is_among(choice.port, anchors) {
            return false;
        }
    }
    true
}

fn are_points_among(points: &[Point], anchors: &[Point]) -> bool
    ensures { IsTrue result → All (Contains anchors.now) points.now }
{
    for point in points {
        if !is_among(*point, anchors) {
            return false;
        }
    }
    true
}

fn has_anchors(floor: &Floor, task: &Task) -> bool
    ensures { IsTrue result → HasAnchorsOf floor.now task.now }
{
    let anchors = floor.anchors.as_slice();
    if !are_ports_among(task.starts.as_slice(), anchors) {
        return false;
    }
    are_ports_among(task.ends.as_slice(), anchors) && are_points_among(task.via.as_slice(), anchors)
}

fn are_on_sheet(points: &[Point]) -> bool
    ensures { IsTrue result → All PointIsOnSheet points.now }
{
    points.iter().all(|p| p.is_on_sheet())
}

/// Whether there are few anchors, all on the sheet.
fn are_anchors(anchors: &[Point]) -> bool
    ensures few { IsTrue result → length anchors.now ≤ 256 }
    ensures on_sheet { IsTrue result → All PointIsOnSheet anchors.now }
{
    anchors.len() <= 256 && are_on_sheet(anchors)
}

/// Whether a search accepts the floor.
fn is_floor(floor: &Floor) -> bool
    requires { floor.now.solids ≡ [] }
    ensures { IsTrue result → IsFloor floor.now }
{
    are_anchors(floor.anchors.as_slice())
}

/// The graph of the floor of the task.
fn built(alloc: Global, floor: &Floor, task: &Task) -> Result<Graph, Fail>
    requires { floor.now.solids ≡ [] }
    ensures floor { IfOk result (λ g. IsFloor g.floor) }
    ensures floor_of { IfOk result (λ g. IsFloorOf g.floor task.now) }
{
    if is_floor(floor) && has_anchors(floor, task) {
        Ok(Graph::build(alloc, floor)?)
    } else {
        Err(Fail::from("no floor"))
    }
}

/// The graph of the task, without solids.
pub fn graph(alloc: Global, task: &Task) -> Result<Graph, Fail>
    ensures floor { IfOk result (λ g. IsFloor g.floor) }
    ensures floor_of { IfOk result (λ g. IsFloorOf g.floor task.now) }
{
    let floor = floor(alloc, task)?;
    built(alloc, &floor, task)
}
