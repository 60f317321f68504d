//! Tasks by rows of numbers.
ghost use Rattle.std.specs.Prelude.{◌≡◌, ◌<◌, ◌≤◌, ◌^◌, All, IfOk, IsTrue};
ghost use Rattle.plane_geom.specs.Point.{PointIsOnSheet};
ghost use Rattle.walk_model.specs.Choice.{AreChoices, IsChoice};
ghost use Rattle.search_tests.specs.Idle.{idle_task};
ghost use Rattle.walk_model.specs.Legal.{IsTask};

use plane_geom::{Dir, Point, Points};
use std::alloc::{AllocError, Global};
use std::test::Fail;
use walk_model::{Choice, Choices, Task};

/// A choice of an end by its pin's coordinates, its direction, the number of steps of its stub
/// after the first, and its cost.
#[derive(Clone, Copy)]
pub struct Stub(pub i16, pub i16, pub Dir, pub u8, pub u8);

/// The description of a task: its choices, its checkpoints and the cost of a bend.
#[derive(Clone, Copy)]
pub struct Asked {
    pub starts: &'static [Stub],
    pub ends: &'static [Stub],
    pub via: &'static [(i16, i16)],
    pub penalty: u8,
}

pub fn point(x: i16, y: i16) -> Point
    ensures within { PointIsOnSheet result }
    ensures exact { result ≡ record { x = x; y = y } }
{
    Point {
        x: i64::from(x),
        y: i64::from(y),
    }
}

pub fn points(alloc: Global, places: &[(i16, i16)]) -> Result<Vec<Point>, AllocError>
    ensures { IfOk result (λ v. All PointIsOnSheet v.items) }
{
    let mut points = Vec::new(alloc);
    for &(x, y) in places {
        points.push(point(x, y))?;
    }
    Ok(points)
}

/// The choice of the node whose stub has `steps` steps.
fn choice(node: i64, x: i16, y: i16, dir: Dir, steps: u64, cost: u8) -> Choice
    requires some { 0 < steps }
    requires few { steps ≤ 256 }
    ensures { IsChoice result }
{
    let pin = point(x, y);
    Choice {
        node,
        pin,
        dir,
        port: pin.forward(dir, steps),
        cost: u64::from(cost),
    }
}

/// Whether the two choices are of one node, and have the same port if they are of one pin and in
/// one direction.
fn agree(a: &Choice, b: &Choice) -> bool
    ensures node { IsTrue result → a.now.node ≡ b.now.node }
    ensures port { IsTrue result → a.now.pin ≡ b.now.pin → a.now.dir ≡ b.now.dir → a.now.port ≡ b.now.port }
{
    a.node == b.node && (a.port == b.port || a.pin != b.pin || a.dir != b.dir)
}

fn agrees_with_each(choice: &Choice, others: &[Choice]) -> bool
    ensures node { IsTrue result → All (λ c. c.node ≡ choice.now.node) others.now }
    ensures port { IsTrue result → All (λ c. c.pin ≡ choice.now.pin → c.dir ≡ choice.now.dir → c.port ≡ choice.now.port) others.now }
{
    others.iter().all(|c| agree(c, choice))
}

/// The choices of the node at the stubs, except those that do not agree with earlier ones.
fn choices(alloc: Global, node: i64, stubs: &[Stub]) -> Result<Choices, AllocError>
    ensures { IfOk result AreChoices }
{
    let mut choices = Vec::new(alloc);
    for &Stub(x, y, dir, further, cost) in stubs {
        let next = choice(node, x, y, dir, 1 + u64::from(further), cost);
        if agrees_with_each(&next, &choices) {
            choices.push(next)?;
        }
    }
    Ok(Choices(choices))
}

/// The task from node 1 to node 2, whose lists may be too long.
fn any_task(alloc: Global, asked: Asked) -> Result<Task, AllocError>
    ensures starts { IfOk result (λ t. AreChoices t.starts) }
    ensures ends { IfOk result (λ t. AreChoices t.ends) }
    ensures via { IfOk result (λ t. All PointIsOnSheet t.via) }
    ensures penalty { IfOk result (λ t. t.penalty ≤ 10 ^ 9) }
{
    Ok(Task {
        starts: choices(alloc, 1, asked.starts)?,
        ends: choices(alloc, 2, asked.ends)?,
        via: Points::from_vec(points(alloc, asked.via)?),
        penalty: u64::from(asked.penalty),
    })
}

/// Whether a call accepts the task: it has few choices and checkpoints.
fn is_task(task: &Task) -> bool
    requires starts { AreChoices task.now.starts }
    requires ends { AreChoices task.now.ends }
    requires via { All PointIsOnSheet task.now.via }
    requires penalty { task.now.penalty ≤ 10 ^ 9 }
    ensures { IsTrue result → IsTask task.now }
{
    let starts = task.starts.as_slice().len();
    let ends = task.ends.as_slice().len();
    starts <= 1024 && ends <= 1024 && task.via.as_slice().len() <= 4
}

/// The task from node 1 to node 2.
pub fn task(alloc: Global, asked: Asked) -> Result<Task, Fail>
    ensures { IfOk result IsTask }
{
    let task = any_task(alloc, asked)?;
    if is_task(&task) {
        Ok(task)
    } else {
        Err(Fail::from("no task"))
    }
}

/// A task without choices and checkpoints, which has no legal walk.
pub fn idle(alloc: Global) -> Task
    ensures { result ≡ idle_task }
{
    Task {
        starts: Choices(Vec::new(alloc)),
        ends: Choices(Vec::new(alloc)),
        via: Points::new(alloc),
        penalty: 0,
    }
}
