//! Routes with the same runs but for their edges share a leader, so that their runs are ordered without a walk along them.
ghost use Rattle.std.specs.Prelude.{◌≡◌, ◌↔◌, ◌<◌, IsTrue, length};
ghost use Rattle.channel_bundles.specs.Leaders.{GoAlike, runs_at, without_edge};

use crate::route::PhaseRoute;
use segment_order::Run;

/// The most runs of a route that is not compared with others: a walk along these costs less.
const FEW_RUNS: usize = 16;

/// Whether the two runs are the same but for their edges.
pub(crate) fn is_same_but_for_edge(a: &Run, b: &Run) -> bool
    ensures { IsTrue result ↔ (without_edge a.now ≡ without_edge b.now) }
{
    if a.place != b.place || a.way != b.way || a.heading != b.heading {
        return false;
    }
    a.at == b.at && a.lo == b.lo && a.hi == b.hi
}

/// The runs of the route at the index; past the end, none.
pub(crate) fn runs_at<'r>(routes: &'r [PhaseRoute<'_>], at: usize) -> &'r [Run]
    ensures { result.now ≡ runs_at routes.now at }
{
    match routes.get(at) {
        Some(route) => &route.runs,
        None => &[],
    }
}

/// Whether two routes have the same runs but for their edges.
fn go_alike(a: &[Run], b: &[Run]) -> bool
    ensures { IsTrue result → GoAlike a.now b.now }
{
    if a.len() != b.len() {
        return false;
    }
    for k in 0..a.len() {
        if !is_same_but_for_edge(&a[k], &b[k]) {
            return false;
        }
    }
    true
}

/// The index of the first route that goes as the one at the index. A route with few runs leads
/// itself.
pub(crate) fn leader_of(routes: &[PhaseRoute<'_>], at: usize) -> usize
    requires { at < length routes.now }
    ensures { GoAlike (runs_at routes.now result) (runs_at routes.now at) }
{
    if runs_at(routes, at).len() > FEW_RUNS {
        for earlier in 0..at {
            if go_alike(runs_at(routes, earlier), runs_at(routes, at)) {
                return earlier;
            }
        }
    }
    at
}
