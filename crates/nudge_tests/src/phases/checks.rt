//! Whether a phase accepts these routes between these solids.
ghost use Rattle.std.specs.Prelude.{◌≡◌, ◌≢◌, ◌↔◌, ℕ, ◌+◌, ◌-◌, ◌<◌, ◌≤◌, ◌<ℤ◌, ◌≤ℤ◌, All, AllPairs, EachIndex, IsTrue, length};
ghost use Rattle.plane_geom.specs.declared.point.Point.{Point};
ghost use Rattle.plane_geom.specs.declared.point.Way.{Way};
ghost use Rattle.plane_geom.specs.Along.{across};
ghost use Rattle.plane_geom.specs.Floor.{Holds, IsSolid};
ghost use Rattle.plane_geom.specs.Point.{IsCoordinate, PointIsOnSheet, opposite};
ghost use Rattle.segment_order.specs.Run.{IsRun, end_of_run, line_of_run, run_at, start_of_run};
ghost use Rattle.separation_model.specs.Bundle.{most_items};
ghost use Rattle.channel_bundles.specs.Route.{HasToLeave, HasToReach, IsFixed, IsPhaseRoute, runs_of_way};
ghost use Rattle.channel_bundles.specs.Limits.{IsReached, MayStandAt, Sweeps};
ghost use Rattle.nudge_tests.specs.Phases.{IsMovable};
ghost use Rattle.channel_bundles.specs.Links.{IsNudge};

use channel_bundles::PhaseRoute;
use plane_geom::{Dir, Point, Rect, Solid, Way, is_coordinate};
use segment_order::Run;

fn are_coordinates(first: i64, last: i64) -> bool
    ensures first { IsTrue result → IsCoordinate first }
    ensures last { IsTrue result → IsCoordinate last }
{
    is_coordinate(first) && is_coordinate(last)
}

fn is_rect_on_sheet(rect: Rect) -> bool
    ensures left { IsTrue result → IsCoordinate rect.left }
    ensures top { IsTrue result → IsCoordinate rect.top }
    ensures right { IsTrue result → IsCoordinate rect.right }
    ensures bottom { IsTrue result → IsCoordinate rect.bottom }
{
    are_coordinates(rect.left, rect.right) && are_coordinates(rect.top, rect.bottom)
}

fn has_inside(rect: Rect) -> bool
    ensures wide { IsTrue result → rect.left <ℤ rect.right }
    ensures high { IsTrue result → rect.top <ℤ rect.bottom }
{
    rect.left < rect.right && rect.top < rect.bottom
}

fn is_solid(solid: &Solid) -> bool
    ensures { IsTrue result → IsSolid solid.now }
{
    is_rect_on_sheet(solid.rect) && has_inside(solid.rect)
}

/// Whether a phase accepts each solid.
pub(super) fn are_solids(solids: &[Solid]) -> bool
    ensures { IsTrue result → All IsSolid solids.now }
{
    solids.iter().all(|s| is_solid(s))
}

/// Whether the numbers are on the sheet and do not fall.
fn is_range(lo: i64, hi: i64) -> bool
    ensures lo { IsTrue result → IsCoordinate lo }
    ensures hi { IsTrue result → IsCoordinate hi }
    ensures ordered { IsTrue result → lo ≤ℤ hi }
{
    are_coordinates(lo, hi) && lo <= hi
}

fn is_run_on_sheet(run: &Run) -> bool
    ensures at { IsTrue result → IsCoordinate run.now.at }
    ensures lo { IsTrue result → IsCoordinate run.now.lo }
    ensures hi { IsTrue result → IsCoordinate run.now.hi }
    ensures ordered { IsTrue result → run.now.lo ≤ℤ run.now.hi }
{
    is_coordinate(run.at) && is_range(run.lo, run.hi)
}

fn is_run(run: &Run) -> bool
    ensures { IsTrue result → IsRun run.now }
{
    run.way == run.heading.way() && is_run_on_sheet(run)
}

/// Whether the run is on the sheet, is of the edge, and has the number.
fn is_run_of(run: &Run, edge: u32, number: usize) -> bool
    ensures run { IsTrue result → IsRun run.now }
    ensures edge { IsTrue result → run.now.edge ≡ edge }
    ensures place { IsTrue result → run.now.place ≡ number }
{
    is_run(run) && run.edge == edge && run.place as usize == number
}

/// The run at the index, counted from 0.
fn run_of(runs: &[Run], k: usize) -> Run
    requires { k < length runs.now }
    ensures { result ≡ run_at runs.now k }
{
    runs[k]
}

/// Whether the runs are of the edge, and numbered from 1.
fn are_numbered(edge: u32, runs: &[Run]) -> bool
    ensures each { IsTrue result → EachIndex runs.now (λ k. IsRun (run_at runs.now k)) }
    ensures edges { IsTrue result → EachIndex runs.now (λ k. (run_at runs.now k).edge ≡ edge) }
    ensures places { IsTrue result → EachIndex runs.now (λ k. (run_at runs.now k).place ≡ k + 1) }
{
    for k in 0..runs.len() {
        let run = run_of(runs, k);
        if !is_run_of(&run, edge, k + 1) {
            return false;
        }
    }
    true
}

/// Whether the run begins where the one before it ends, with another heading.
fn goes_on(before: &Run, run: &Run) -> bool
    ensures joined { IsTrue result → end_of_run before.now ≡ start_of_run run.now }
    ensures turns { IsTrue result → before.now.heading ≢ run.now.heading }
{
    before.end() == run.start() && before.heading != run.heading
}

/// Whether each run begins where the one before it ends, with another heading.
fn are_joined(runs: &[Run]) -> bool
    ensures joined { IsTrue result → (k : ℕ) → k + 1 < length runs.now → end_of_run (run_at runs.now k) ≡ start_of_run (run_at runs.now (k + 1)) }
    ensures turns { IsTrue result → (k : ℕ) → k + 1 < length runs.now → (run_at runs.now k).heading ≢ (run_at runs.now (k + 1)).heading }
{
    for k in 1..runs.len() {
        let (before, run) = (run_of(runs, k - 1), run_of(runs, k));
        if !goes_on(&before, &run) {
            return false;
        }
    }
    true
}

fn are_on_sheet(points: &[Point]) -> bool
    ensures { IsTrue result → All PointIsOnSheet points.now }
{
    points.iter().all(|p| p.is_on_sheet())
}

fn is_phase_route(route: &PhaseRoute<'_>) -> bool
    ensures { IsTrue result → IsPhaseRoute route.now }
{
    let are_runs = !route.runs.is_empty()
        && are_numbered(route.edge, &route.runs)
        && are_joined(&route.runs);
    let anchors = &route.anchors;
    let are_within = are_on_sheet(&anchors.via)
        && anchors.source_port.is_on_sheet()
        && anchors.target_port.is_on_sheet();
    are_runs && are_within && 1 <= route.weight && route.weight <= 4
}

/// Whether a phase accepts each route.
pub(super) fn are_phase_routes(routes: &[PhaseRoute<'_>]) -> bool
    ensures { IsTrue result → All IsPhaseRoute routes.now }
{
    routes.iter().all(|r| is_phase_route(r))
}

fn is_of_none(edge: u32, routes: &[PhaseRoute<'_>]) -> bool
    ensures { IsTrue result → All (λ r. r.edge ≢ edge) routes.now }
{
    routes.iter().all(|r| r.edge != edge)
}

/// Whether the routes are of different edges.
pub(super) fn are_of_different_edges(routes: &[PhaseRoute<'_>]) -> bool
    ensures { IsTrue result → AllPairs (λ r s. r.edge ≢ s.edge) routes.now }
{
    for k in 0..routes.len() {
        if !is_of_none(routes[k].edge, &routes[..k]) {
            return false;
        }
    }
    true
}

fn has_few_runs(route: &PhaseRoute<'_>) -> bool
    ensures { IsTrue result → length route.now.runs.items ≤ 1000 }
{
    route.runs.len() <= 1000
}

fn have_few_runs(routes: &[PhaseRoute<'_>]) -> bool
    ensures { IsTrue result → All (λ r. length r.runs.items ≤ 1000) routes.now }
{
    routes.iter().all(|r| has_few_runs(r))
}

/// Whether there are few routes, of few runs each.
pub(super) fn are_few(routes: &[PhaseRoute<'_>]) -> bool
    ensures { IsTrue result → (way : Way) → length (runs_of_way way routes.now) ≤ most_items }
{
    routes.len() <= 1000 && have_few_runs(routes)
}

/// Whether the run has a part within the solid.
fn enters(run: &Run, solid: &Solid) -> bool
    ensures { IsTrue result ↔ Sweeps run.now.way solid.now.rect run.now.at run.now.at run.now.lo run.now.hi }
{
    let (at, lo, hi) = (run.at, run.lo, run.hi);
    match run.way {
        Way::Vertical => solid
            .rect
            .overlaps_area(Point { x: at, y: lo }, Point { x: at, y: hi }),
        Way::Horizontal => solid
            .rect
            .overlaps_area(Point { x: lo, y: at }, Point { x: hi, y: at }),
    }
}

fn is_clear(run: &Run, solids: &[Solid]) -> bool
    ensures { IsTrue result → All (λ s. Sweeps run.now.way s.rect run.now.at run.now.at run.now.lo run.now.hi → ⊥) solids.now }
{
    solids.iter().all(|s| !enters(run, s))
}

/// Whether one who travels in the direction has reached the point at the run.
fn has_reached(run: &Run, dir: Dir, p: Point) -> bool
    ensures { IsTrue result → IsReached dir (across run.now.way p) run.now.at }
{
    let at = p.across(run.way);
    match dir {
        Dir::East | Dir::South => at <= run.at,
        Dir::West | Dir::North => run.at <= at,
    }
}

/// The same, if it is needed.
fn has_reached_if(needed: bool, run: &Run, dir: Dir, p: Point) -> bool
    ensures { IsTrue result → IsTrue needed → IsReached dir (across run.now.way p) run.now.at }
{
    !needed || has_reached(run, dir, p)
}

/// Whether one who travels in the direction has reached each checkpoint on the neighbour at the
/// run.
fn has_reached_each(run: &Run, dir: Dir, via: &[Point], neighbour: &Run) -> bool
    ensures { IsTrue result → All (λ p. Holds (line_of_run neighbour.now) p → IsReached dir (across run.now.way p) run.now.at) via.now }
{
    via.iter()
        .all(|p| has_reached_if(neighbour.holds(*p), run, dir, *p))
}

/// Whether the run before extends as far as it has to.
fn is_reached_before(route: &PhaseRoute<'_>, k: usize) -> bool
    requires first { 0 < k }
    requires within { k < length route.now.runs.items }
    ensures { IsTrue result → (p : Point) → HasToReach route.now (k - 1) p →
        IsReached (run_at route.now.runs.items (k - 1)).heading (across (run_at route.now.runs.items k).way p) (run_at route.now.runs.items k).at }
{
    let (run, before) = (route.run(k), route.run(k - 1));
    let dir = before.heading;
    let port = has_reached_if(k == 1, &run, dir, route.anchors.source_port);
    let tip = has_reached_if(route.begins_at_tip(k - 1), &run, dir, before.start());
    let each = has_reached_each(&run, dir, &route.anchors.via, &before);
    port && tip && each
}

/// Whether the run after begins where it has to.
fn is_reached_after(route: &PhaseRoute<'_>, k: usize) -> bool
    requires { k + 1 < length route.now.runs.items }
    ensures { IsTrue result → (p : Point) → HasToLeave route.now (k + 1) p →
        IsReached (opposite (run_at route.now.runs.items (k + 1)).heading) (across (run_at route.now.runs.items k).way p) (run_at route.now.runs.items k).at }
{
    let (run, after) = (route.run(k), route.run(k + 1));
    let dir = after.heading.opposite();
    let is_last = k + 2 == route.runs.len();
    let port = has_reached_if(is_last, &run, dir, route.anchors.target_port);
    let tip = has_reached_if(route.ends_at_tip(k + 1), &run, dir, after.end());
    let each = has_reached_each(&run, dir, &route.anchors.via, &after);
    port && tip && each
}

/// Whether the run, which is not the first or the last, may stay at its coordinate.
fn may_stand(route: &PhaseRoute<'_>, solids: &[Solid], k: usize) -> bool
    requires { k < length route.now.runs.items }
    ensures { IsTrue result → MayStandAt solids.now route.now k (run_at route.now.runs.items k).at }
{
    if k == 0 || k + 1 == route.runs.len() {
        return false;
    }
    let run = route.run(k);
    is_coordinate(run.at)
        && is_clear(&run, solids)
        && is_reached_before(route, k)
        && is_reached_after(route, k)
}

/// Whether the run may stay at its coordinate, if it is movable and of the way.
fn may_stand_if_movable(route: &PhaseRoute<'_>, solids: &[Solid], way: Way, k: usize) -> bool
    requires { k < length route.now.runs.items }
    ensures { IsTrue result → (run_at route.now.runs.items k).way ≡ way → (IsFixed route.now k → ⊥) →
        MayStandAt solids.now route.now k (run_at route.now.runs.items k).at }
{
    if !route.is_of_way(k, way) {
        return true;
    }
    if route.is_fixed(k) {
        return true;
    }
    may_stand(route, solids, k)
}

fn may_move(route: &PhaseRoute<'_>, solids: &[Solid], way: Way) -> bool
    ensures { IsTrue result → IsMovable solids.now way route.now }
{
    for k in 0..route.runs.len() {
        if !may_stand_if_movable(route, solids, way, k) {
            return false;
        }
    }
    true
}

/// Whether each movable run of the way may stay at its coordinate.
pub(super) fn may_all_move(routes: &[PhaseRoute<'_>], solids: &[Solid], way: Way) -> bool
    ensures { IsTrue result → All (IsMovable solids.now way) routes.now }
{
    routes.iter().all(|r| may_move(r, solids, way))
}

pub(super) fn is_nudge(nudge: i64) -> bool
    ensures { IsTrue result → IsNudge nudge }
{
    0 <= nudge && nudge <= 1_000_000
}
