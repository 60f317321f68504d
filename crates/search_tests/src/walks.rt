//! The costs of walks along lines and the checkpoints that they pass, the order of routes, and the
//! answer of a task.
ghost use Rattle.std.specs.Prelude.{◌≡◌, IfOk};
ghost use Rattle.walk_model.specs.Line.{IsOrthogonal};

use plane_geom::{Dir, Point, Points};
use std::alloc::{AllocError, Global};
use std::cmp::Ordering;
use std::test::Fail;
use walk_model::{Answer, Choice, Choices, Route, Task, compare_routes};

const PIN: Point = Point { x: 0, y: 0 };

const PORT: Point = Point { x: 14, y: 0 };

/// A short line that doubles back.
const BACK: [Point; 3] = [PIN, Point { x: 2, y: 0 }, Point { x: 1, y: 0 }];

fn route(alloc: Global, end: u32, points: [Point; 3]) -> Result<Route, AllocError>
    ensures { IfOk result (λ r. r.points ≡ points) }
{
    Ok(Route {
        start: 0,
        end,
        points: Points::from_slice(alloc, &points)?,
        cost: 7,
    })
}

/// The order of the routes along two lines, with these end choices, at the same cost.
fn compared(
    alloc: Global,
    a_end: u32,
    a: [Point; 3],
    b_end: u32,
    b: [Point; 3],
) -> Result<Ordering, AllocError>
    requires a_line { IsOrthogonal a }
    requires b_line { IsOrthogonal b }
{
    let first = route(alloc, a_end, a)?;
    let second = route(alloc, b_end, b)?;
    Ok(compare_routes(&first, &second))
}

/// The orders of routes of one cost.
fn orders(alloc: Global) -> Result<(Ordering, Ordering, Ordering, Ordering), AllocError> {
    let short = [PIN, Point { x: 2, y: 0 }, Point { x: 2, y: 1 }];
    let long = [PIN, Point { x: 2, y: 0 }, Point { x: 2, y: 2 }];
    let later = [PIN, Point { x: 0, y: 2 }, Point { x: 2, y: 2 }];
    Ok((
        // A list of steps that is the beginning of another comes first, whatever the end choices are.
        compared(alloc, 1, short, 0, long)?,
        // Both have two runs and the sum of run coordinates 2, and East comes before South.
        compared(alloc, 0, long, 0, later)?,
        // The lower sum of run coordinates comes first.
        compared(alloc, 0, long, 0, BACK)?,
        compared(alloc, 0, BACK, 0, BACK)?,
    ))
}

#[test]
fn orders_routes_of_one_cost(rt: HostRuntime) -> Result<(), Fail> {
    let orders = orders(rt.alloc())?;
    assert!(rt;
        orders
            == (
                Ordering::Less,
                Ordering::Less,
                Ordering::Greater,
                Ordering::Equal
            ),
        "{orders:?}"
    );
    Ok(())
}

const CHOICE: Choice = Choice {
    node: 1,
    pin: PIN,
    dir: Dir::East,
    port: PORT,
    cost: 0,
};

fn task(alloc: Global) -> Result<Task, AllocError> {
    Ok(Task {
        starts: Choices(Vec::from_slice(alloc, &[CHOICE])?),
        ends: Choices(Vec::new(alloc)),
        via: Points::from_slice(alloc, &[PORT])?,
        penalty: 50,
    })
}

fn copied_task(alloc: Global) -> Result<Task, AllocError> {
    let task = task(alloc)?;
    task.copy(alloc)
}

/// Whether it is the task above.
fn is_task(task: &Task) -> bool {
    let starts = task.starts.as_slice() == [CHOICE].as_slice();
    let via = task.via.as_slice() == [PORT].as_slice();
    starts && via && task.ends.as_slice().is_empty() && task.penalty == 50
}

#[test]
fn copies_a_task(rt: HostRuntime) -> Result<(), Fail> {
    let task = copied_task(rt.alloc())?;
    assert!(rt; is_task(&task));
    Ok(())
}

fn answer(alloc: Global) -> Result<Answer, AllocError> {
    let route = Route {
        start: 0,
        end: 0,
        points: Points::from_slice(alloc, &[PIN, PORT])?,
        cost: 14,
    };
    Ok(Answer {
        edge: 1,
        route: Some(route),
    })
}
