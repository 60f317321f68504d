//! Worked phases: routes between solids, and the bundles of each way.
use crate::phases::checks::{
    are_few, are_of_different_edges, are_phase_routes, are_solids, is_nudge, may_all_move,
};
use crate::phases::rows::{
    Block, CHANNELS, Corner, Drawn, Leg, Placed, ROUND_BOXES, Row, Ruled, Wanted,
};
use bumpalo::Bump;
use channel_bundles::{PhaseRoute, RouteAnchors, RunBundle, bundles, few_bundles};
use plane_geom::{Dir, Point, Rect, Solid, Way};
use segment_order::Run;
use separation_model::{Item, Rule};
use std::alloc::{AllocError, Global};
use std::process::Abort;
use std::test::Fail;

mod checks;
mod rows;

fn point(corner: Corner) -> Point {
    Point {
        x: corner.0,
        y: corner.1,
    }
}

fn points<'a>(bump: &'a Bump, corners: &[Corner]) -> Result<Vec<Point, &'a Bump>, AllocError> {
    corners.iter().map(|c| point(*c)).collect(bump)
}

fn solid(block: Block) -> Solid {
    let Block(left, top, right, bottom) = block;
    Solid {
        node: 0,
        rect: Rect {
            left,
            top,
            right,
            bottom,
        },
    }
}

fn solids<'a>(bump: &'a Bump, blocks: &[Block]) -> Result<Vec<Solid, &'a Bump>, AllocError> {
    blocks.iter().map(|b| solid(*b)).collect(bump)
}

/// The run of the edge, with its number, from one point to the other. If both are equal, the row
/// gives the heading.
fn run(edge: u32, place: u32, heading: Dir, from: Point, to: Point) -> Run {
    let way = heading.way();
    let (start, end) = (from.along(way), to.along(way));
    Run {
        edge,
        place,
        way,
        heading,
        at: from.across(way),
        lo: start.min(end),
        hi: start.max(end),
    }
}

fn runs<'a>(bump: &'a Bump, drawn: &Drawn) -> Result<Vec<Run, &'a Bump>, AllocError> {
    let mut runs = Vec::with_capacity(bump, drawn.legs.len())?;
    let (mut place, mut from) = (0_u32, point(drawn.start));
    for Leg(heading, x, y) in drawn.legs {
        let to = Point { x: *x, y: *y };
        place = place.saturating_add(1);
        runs.push(run(drawn.edge, place, *heading, from, to))?;
        from = to;
    }
    Ok(runs)
}

fn route<'a>(bump: &'a Bump, drawn: &Drawn) -> Result<PhaseRoute<'a>, AllocError> {
    Ok(PhaseRoute {
        edge: drawn.edge,
        runs: runs(bump, drawn)?,
        anchors: RouteAnchors {
            source_port: point(drawn.source_port),
            target_port: point(drawn.target_port),
            via: points(bump, drawn.via)?,
        },
        weight: drawn.weight,
    })
}

/// Adds the route.
fn push_route<'a>(
    bump: &'a Bump,
    routes: &mut Vec<PhaseRoute<'a>, &'a Bump>,
    drawn: &Drawn,
) -> Result<(), AllocError> {
    let route = route(bump, drawn)?;
    routes.push(route)?;
    Ok(())
}

fn push_routes<'a>(
    bump: &'a Bump,
    routes: &mut Vec<PhaseRoute<'a>, &'a Bump>,
    drawn: &[Drawn],
) -> Result<(), AllocError> {
    for each in drawn {
        push_route(bump, routes, each)?;
    }
    Ok(())
}

/// The bundles of a phase, with all their rules and with few of them.
#[derive(Drop)]
struct Found<'a> {
    all: Vec<RunBundle<'a>, &'a Bump>,
    few: Vec<RunBundle<'a>, &'a Bump>,
}

/// The bundles of the routes between the solids, in the phase that moves the runs of the way.
fn bundles_if_allowed<'a>(
    rt: &impl Abort,
    alloc: Global,
    bump: &'a Bump,
    solids: &[Solid],
    routes: &[PhaseRoute<'_>],
    way: Way,
    nudge: i64,
) -> Result<Found<'a>, AllocError> {
    assert!(rt; are_solids(solids));
    assert!(rt; are_phase_routes(routes));
    assert!(rt; are_of_different_edges(routes));
    assert!(rt; may_all_move(routes, solids, way));
    assert!(rt; are_few(routes));
    assert!(rt; is_nudge(nudge));
    Ok(Found {
        all: bundles(alloc, bump, solids, routes, way, nudge)?,
        few: few_bundles(alloc, bump, solids, routes, way, nudge)?,
    })
}

fn is_placed(run: &Run, item: &Item, want: &Placed) -> bool {
    let found = Placed(
        run.edge,
        run.place,
        item.want,
        item.lo,
        item.hi,
        item.weight,
    );
    found == *want
}

/// Whether the bundle has exactly these runs with these items.
fn are_placed(found: &RunBundle<'_>, wanted: &[Placed]) -> bool {
    let pairs = found.runs.iter().zip(&found.bundle.items);
    found.runs.len() == wanted.len()
        && found.bundle.items.len() == wanted.len()
        && pairs
            .zip(wanted)
            .all(|((run, item), want)| is_placed(run, item, want))
}

fn is_ruled(rule: &Rule, want: &Ruled) -> bool {
    Ruled(rule.left, rule.right, rule.spaced) == *want
}

/// Whether the bundle has exactly these rules.
fn are_ruled(rules: &[Rule], wanted: &[Ruled]) -> bool {
    rules.len() == wanted.len()
        && rules
            .iter()
            .zip(wanted)
            .all(|(rule, want)| is_ruled(rule, want))
}

/// Whether two spaced rules lead from the left run of the rule to its right one.
fn has_middle(rules: &[Ruled], rule: &Ruled) -> bool {
    let Ruled(left, right, _) = *rule;
    rules.iter().any(|first| first.0 == left
        && first.2
        && rules.contains(&Ruled(first.1, right, true)))
}

/// Whether the rule is one of these.
fn is_among(rules: &[Rule], rule: &Ruled) -> bool {
    rules.iter().any(|found| is_ruled(found, rule))
}

/// Whether the bundle has of these rules exactly those without a middle.
fn has_few(rules: &[Rule], wanted: &[Ruled]) -> bool {
    let needed = wanted.iter().filter(|rule| !has_middle(wanted, rule));
    rules.len() == needed.count()
        && wanted
            .iter()
            .all(|rule| is_among(rules, rule) != has_middle(wanted, rule))
}

/// Whether the bundle has exactly these runs, and few of these rules.
fn is_few_of(found: &RunBundle<'_>, wanted: &Wanted) -> bool {
    let Wanted(items, rules) = wanted;
    are_placed(found, items) && has_few(&found.bundle.rules, rules)
}

fn are_few_of(found: &[RunBundle<'_>], wanted: &[Wanted]) -> bool {
    found.len() == wanted.len()
        && found
            .iter()
            .zip(wanted)
            .all(|(bundle, own)| is_few_of(bundle, own))
}

/// Whether the bundle has exactly these runs and rules, and wants the gap.
fn is_as_wanted(found: &RunBundle<'_>, wanted: &Wanted, nudge: i64) -> bool {
    let Wanted(items, rules) = wanted;
    found.bundle.wanted == nudge
        && are_placed(found, items)
        && are_ruled(&found.bundle.rules, rules)
}

fn are_as_wanted(found: &[RunBundle<'_>], wanted: &[Wanted], nudge: i64) -> bool {
    found.len() == wanted.len()
        && found
            .iter()
            .zip(wanted)
            .all(|(bundle, own)| is_as_wanted(bundle, own, nudge))
}

fn wanted(row: &Row, way: Way) -> &'static [Wanted] {
    match way {
        Way::Vertical => row.vertical,
        Way::Horizontal => row.horizontal,
    }
}

/// Whether the bundles of the routes are those of the row, and those with few rules leave out just
/// what has a middle.
fn stands(
    rt: &impl Abort,
    alloc: Global,
    bump: &Bump,
    row: &Row,
    way: Way,
    solids: &[Solid],
    routes: &[PhaseRoute<'_>],
) -> Result<bool, AllocError> {
    let found = bundles_if_allowed(rt, alloc, bump, solids, routes, way, row.nudge)?;
    let wanted = wanted(row, way);
    Ok(are_as_wanted(&found.all, wanted, row.nudge) && are_few_of(&found.few, wanted))
}

/// The same, with the routes of the row.
fn stands_with_routes<'a>(
    rt: &impl Abort,
    alloc: Global,
    bump: &'a Bump,
    row: &Row,
    way: Way,
    solids: &[Solid],
    routes: &mut Vec<PhaseRoute<'a>, &'a Bump>,
) -> Result<bool, AllocError> {
    push_routes(bump, routes, row.routes)?;
    stands(rt, alloc, bump, row, way, solids, routes.as_slice())
}

fn stands_between(
    rt: &impl Abort,
    alloc: Global,
    bump: &Bump,
    row: &Row,
    way: Way,
    solids: &[Solid],
) -> Result<bool, AllocError> {
    let mut routes = Vec::with_capacity(bump, row.routes.len())?;
    stands_with_routes(rt, alloc, bump, row, way, solids, &mut routes)
}

/// Whether the bundles of the row, of the runs of the way, are as expected.
fn row_stands(rt: &impl Abort, alloc: Global, row: &Row, way: Way) -> Result<bool, AllocError> {
    let bump = Bump::new(alloc);
    let solids = solids(&bump, row.solids)?;
    stands_between(rt, alloc, &bump, row, way, solids.as_slice())
}

/// Asserts that the bundles of each row, of either way, are as expected.
fn walk(rt: &impl Abort, alloc: Global, rows: &[Row]) -> Result<(), Fail> {
    for (place, row) in rows.iter().enumerate() {
        for way in [Way::Vertical, Way::Horizontal] {
            assert!(rt; row_stands(rt, alloc, row, way)?, "in row {place}: {way:?}");
        }
    }
    Ok(())
}

#[test]
fn bundles_runs_round_boxes(rt: HostRuntime) -> Result<(), Fail> {
    walk(&rt, rt.alloc(), &ROUND_BOXES)
}

#[test]
fn bundles_runs_in_channels(rt: HostRuntime) -> Result<(), Fail> {
    walk(&rt, rt.alloc(), &CHANNELS)
}
