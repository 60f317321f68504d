//! All paths that routes share.
ghost use Rattle.std.specs.Prelude.{◌≡◌, ◌<◌, ◌+◌, ◌^◌, All, Contains, IfOk};
ghost use Rattle.shared_paths.specs.Listed.{AreRoutes, AreSharedPaths, KeepsItsSide};
ghost use Rattle.shared_paths.specs.Paths.{side_of};
ghost use Rattle.shared_paths.specs.Starts.{IsPathFrom, IsStart};

use crate::path::{EdgeRuns, End, SharedPath};
use crate::start::{Start, starts};
use segment_order::Side;
use std::alloc::{AllocError, Global};
use std::collections::BTreeSet;

/// The hand that the ends of a path agree on.
fn side_of(back: End, ahead: End) -> Option<Side>
    ensures { result ≡ side_of back ahead }
{
    match (back, ahead) {
        (End::Tie, End::Tie) => None,
        (End::Parts(side), End::Tie) | (End::Tie, End::Parts(side)) => Some(side),
        (End::Parts(side), End::Parts(other)) if side == other => Some(side),
        (End::Parts(_), End::Parts(_)) => None,
    }
}

/// The number of the run at the index, counted from 1.
fn run_number(index: usize) -> u32
    requires { index + 1 < 2 ^ 32 }
    ensures { result ≡ index + 1 }
{
    index as u32 + 1
}

/// The path that begins there.
fn path_from(routes: &[EdgeRuns], start: &Start) -> SharedPath
    requires routes { AreRoutes routes.now }
    requires start { IsStart routes.now start.now }
    ensures { IsPathFrom routes.now start.now result }
{
    let both = start.routes(routes);
    let first = start.pair();
    let last = both.last(first);
    let back = both.end(false, first);
    let ahead = both.end(true, last);
    SharedPath {
        a: routes[start.a].edge,
        b: routes[start.b].edge,
        first: run_number(first.a),
        last: run_number(last.a),
        b_first: run_number(first.b),
        b_last: run_number(last.b),
        back,
        ahead,
        side: side_of(back, ahead),
    }
}

/// The paths that begin at the starts, which are all there are.
fn paths_from(
    alloc: Global,
    routes: &[EdgeRuns],
    starts: &BTreeSet<Start>,
) -> Result<Vec<SharedPath>, AllocError>
    requires routes { AreRoutes routes.now }
    requires starts { All (IsStart routes.now) starts.now.keys }
    requires all { (s : Start) → IsStart routes.now s → Contains starts.now.keys s }
    ensures { IfOk result (λ paths. AreSharedPaths routes.now paths.items) }
{
    let mut paths = Vec::new(alloc);
    for start in starts {
        paths.push(path_from(routes, start))?;
    }
    Ok(paths)
}

/// The paths that two of the routes share, ordered by the two routes and then along them.
///
/// Its only error is out of memory.
pub fn shared(alloc: Global, routes: &[EdgeRuns]) -> Result<Vec<SharedPath>, AllocError>
    requires { AreRoutes routes.now }
    ensures paths { IfOk result (λ paths. AreSharedPaths routes.now paths.items) }
    // A path that has a side keeps to it at each of its pairs.
    ensures sides { IfOk result (λ paths. (p : AreSharedPaths routes.now paths.items) →
        All (KeepsItsSide routes.now) p.paired) }
{
    let starts = starts(alloc, routes)?;
    paths_from(alloc, routes, &starts)
}
