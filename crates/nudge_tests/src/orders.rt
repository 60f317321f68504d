//! The runs and the order of worked routes.
use bumpalo::Bump;
use plane_geom::Point;
use segment_order::{Run, line_order, runs_of};
use std::alloc::AllocError;
use std::cmp::Ordering;
use std::test::Fail;

/// The edge of a route, the index of one of its runs, and its corners by their coordinates.
type Drawn = (u32, usize, [(i64, i64); 5]);

/// Routes whose second run is on one line, or whose third one is if the route comes from the other
/// side, in their order on it: by coordinate, then by where they come from and go to, then by edge.
const HORIZONTAL: [Drawn; 11] = [
    (8, 1, [(0, -30), (0, 0), (100, 0), (100, -50), (50, -50)]),
    (9, 1, [(0, -30), (0, 0), (100, 0), (100, -50), (200, -50)]),
    (12, 2, [(200, -50), (100, -50), (100, 0), (0, 0), (0, -30)]),
    (6, 1, [(0, -30), (0, 0), (120, 0), (120, -50), (200, -50)]),
    (7, 1, [(0, -30), (0, 0), (100, 0), (60, 0), (60, 20)]),
    (5, 1, [(0, -30), (0, 0), (120, 0), (120, 70), (200, 70)]),
    (4, 1, [(0, -30), (0, 0), (100, 0), (100, 70), (200, 70)]),
    (3, 1, [(0, -30), (0, 0), (100, 0), (100, 90), (200, 90)]),
    (13, 1, [(0, -30), (0, 0), (100, 0), (100, 90), (200, 90)]),
    (
        1,
        1,
        [(-20, -30), (-20, 0), (100, 0), (100, -50), (200, -50)],
    ),
    (2, 1, [(0, 30), (0, 0), (100, 0), (100, -50), (200, -50)]),
];

const VERTICAL: [Drawn; 6] = [
    (6, 1, [(0, 0), (49, 0), (49, 80), (90, 80), (90, 100)]),
    (2, 1, [(0, 0), (50, 0), (50, 80), (20, 80), (20, 100)]),
    (3, 1, [(0, 0), (50, 0), (50, 90), (20, 90), (20, 100)]),
    (1, 1, [(0, 0), (50, 0), (50, 80), (90, 80), (90, 100)]),
    (4, 1, [(70, 0), (50, 0), (50, 90), (20, 90), (20, 100)]),
    (5, 2, [(20, 100), (20, 90), (50, 90), (50, 10), (70, 10)]),
];

fn at(place: (i64, i64)) -> Point {
    Point {
        x: place.0,
        y: place.1,
    }
}

fn runs<'a>(bump: &'a Bump, drawn: &Drawn) -> Result<Vec<Run, &'a Bump>, AllocError> {
    let [first, second, third, fourth, fifth] = drawn.2;
    let corners = [at(first), at(second), at(third), at(fourth), at(fifth)];
    runs_of(bump, drawn.0, &corners)
}

/// The order of the runs at these indices, where they are there.
fn order_of(a: &[Run], a_index: usize, b: &[Run], b_index: usize) -> Option<Ordering> {
    let a_run = a.get(a_index)?;
    let b_run = b.get(b_index)?;
    Some(line_order(a_run, a, b_run, b))
}

fn order_to(
    bump: &Bump,
    a: &[Run],
    a_index: usize,
    b: &Drawn,
) -> Result<Option<Ordering>, AllocError> {
    let b_runs = runs(bump, b)?;
    Ok(order_of(a, a_index, b_runs.as_slice(), b.1))
}

fn order_between(bump: &Bump, a: &Drawn, b: &Drawn) -> Result<Option<Ordering>, AllocError> {
    let a_runs = runs(bump, a)?;
    order_to(bump, a_runs.as_slice(), a.1, b)
}

/// Whether each run comes in the order of its line.
fn are_in_order(bump: &Bump, lines: &[Drawn]) -> Result<bool, AllocError> {
    for (i, a) in lines.iter().enumerate() {
        for (j, b) in lines.iter().enumerate() {
            if order_between(bump, a, b)? != Some(i.cmp(&j)) {
                return Ok(false);
            }
        }
    }
    Ok(true)
}

#[test]
fn orders_routes_on_a_line(rt: HostRuntime) -> Result<(), Fail> {
    let bump = Bump::new(rt.alloc());
    assert!(rt; are_in_order(&bump, &HORIZONTAL)?);
    assert!(rt; are_in_order(&bump, &VERTICAL)?);
    Ok(())
}
