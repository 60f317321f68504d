//! How the runs of a phase move: those of its way to their coordinates, and the others with their
//! corners.
ghost use Rattle.std.specs.Prelude.{◌≡◌, ◌<◌, All, length, slice_get};
ghost use Rattle.channel_bundles.specs.Route.{is_way};
ghost use Rattle.separation_model.specs.Bundle.{IsBundle};
ghost use Rattle.nudge_phases.specs.Moved.{moved_run, stretch};
ghost use Rattle.nudge_phases.specs.Phase.{IsSolutionOf};
ghost use Rattle.nudge_phases.specs.Rising.{EdgesRise};
ghost use Rattle.nudge_phases.specs.Steps.{AreEach, CarriesOn, HasFollowed, HasPlaceOf, HaveFollowed, IsPutIfOwn, IsPutTo, coordinates, corner_at};

use channel_bundles::{PhaseRoute, RunBundle};
use plane_geom::{Dir, Way};
use segment_order::Run;
use separation_solve::Solution;

/// Moves the run at the index to the coordinate.
fn put_run(route: &mut PhaseRoute<'_>, k: usize, at: i64)
    requires { k < length route.old.runs.items }
    ensures { IsPutTo k at route.old route.new }
{
    route.runs[k].at = at;
}

/// Moves a run to the coordinate, in its route and at its place there.
fn put(routes: &mut [PhaseRoute<'_>], run: &Run, at: i64)
    requires edges { EdgesRise routes.old }
    requires there { HasPlaceOf routes.old run.now }
    ensures { AreEach (IsPutIfOwn run.now at) routes.old routes.new }
{
    if let Ok(found) = routes.binary_search_by_key(&run.edge, |route| route.edge) {
        put_run(&mut routes[found], run.place as usize - 1, at);
    }
}

/// Moves the runs of the bundle to the positions of its solution, rounded down.
pub(crate) fn put_bundle(
    routes: &mut [PhaseRoute<'_>],
    run_bundle: &RunBundle<'_>,
    solution: &Solution<'_>,
)
    requires edges { EdgesRise routes.old }
    requires there { All (HasPlaceOf routes.old) run_bundle.now.runs.items }
    requires bundle { IsBundle run_bundle.now.bundle }
    requires items { length run_bundle.now.runs.items ≡ length run_bundle.now.bundle.items.items }
    requires solved { IsSolutionOf run_bundle.now.bundle solution.now }
    ensures { CarriesOn run_bundle.now solution.now run_bundle.now.runs.items routes.old routes.new }
{
    for (item, run) in run_bundle.runs.iter().enumerate() {
        put(routes, run, solution.rounded_down(item));
    }
}

/// The run, stretched along from one coordinate to the other, in its heading.
fn stretched(run: &Run, from: i64, to: i64) -> Run
    ensures { result ≡ stretch run.now.heading run.now from to }
{
    let (lo, hi) = match run.heading {
        Dir::East | Dir::South => (from, to),
        Dir::West | Dir::North => (to, from),
    };
    Run { lo, hi, ..*run }
}

/// Whether the run is of the way.
fn is_of_way(run: &Run, way: Way) -> bool
    ensures { result ≡ is_way run.now.way way }
{
    run.way == way
}

/// The coordinate, along a neighbour, of the corner with the run at the index: the run's coordinate
/// if there is such a run and it is of the way, otherwise `old`.
fn corner(runs: &[Run], k: usize, way: Way, old: i64) -> i64
    ensures { result ≡ corner_at way (slice_get runs.now k) old }
{
    match runs.get(k) {
        Some(run) if is_of_way(run, way) => run.at,
        _ => old,
    }
}

/// The run at the index, stretched to its neighbours of the way, if it is of the other way.
fn followed(runs: &[Run], k: usize, way: Way) -> Run
    requires { k < length runs.now }
    ensures { result ≡ moved_run way runs.now (coordinates runs.now) k }
{
    let run = runs[k];
    if is_of_way(&run, way) {
        return run;
    }
    // There is no run before the first; the first itself is used instead, and is not of the way.
    let from = corner(runs, k.saturating_sub(1), way, run.start().along(run.way));
    let to = corner(runs, k + 1, way, run.end().along(run.way));
    stretched(&run, from, to)
}

/// Stretches the runs of the other way to their neighbours of the way.
fn follow(runs: &mut [Run], way: Way)
    ensures { HaveFollowed way runs.old runs.new }
{
    for k in 0..runs.len() {
        runs[k] = followed(runs, k, way);
    }
}

/// The same for all routes.
pub(crate) fn follow_all(routes: &mut [PhaseRoute<'_>], way: Way)
    ensures { AreEach (HasFollowed way) routes.old routes.new }
{
    for route in routes.iter_mut() {
        follow(&mut route.runs, way);
    }
}
