//! The runs of all routes, line by line.
ghost use Rattle.std.specs.Prelude.{◌≡◌, ◌<◌, ℕ, All, AllPairs, Contains, IfOk, length};
ghost use Rattle.shared_paths.specs.Listed.{route_at};
ghost use Rattle.shared_paths.specs.Crossings.{is_vertical};
ghost use Rattle.shared_paths.specs.Starts.{BeginsFirst, IsStretch, stretch_of};

use crate::path::EdgeRuns;
use plane_geom::Way;
use segment_order::Run;
use std::alloc::{AllocError, Global};

pub(crate) fn is_vertical(way: Way) -> bool
    ensures { result ≡ is_vertical way }
{
    way == Way::Vertical
}

/// A whole vertical or horizontal line of the plane.
#[derive(Clone, Copy, Debug, PartialEq, Eq, PartialOrd, Ord)]
pub(crate) struct WholeLine {
    pub(crate) is_vertical: bool,
    pub(crate) at: i64,
}

/// A run as a stretch of its line, with the index of its route and its own index there.
///
/// Stretches are ordered by their line, then by where they begin.
#[derive(Clone, Copy, Debug, PartialEq, Eq, PartialOrd, Ord)]
pub(crate) struct Stretch {
    pub(crate) line: WholeLine,
    pub(crate) lo: i64,
    pub(crate) hi: i64,
    pub(crate) route: usize,
    pub(crate) index: usize,
}

impl Stretch {
    ghost use Rattle.std.specs.Prelude.{◌<ℤ◌, ◌↔◌, IsTrue};
    ghost use Rattle.shared_paths.specs.Starts.{as_stretch};

    /// The run as a stretch.
    fn of(run: &Run, route: usize, index: usize) -> Stretch
        ensures { result ≡ as_stretch run.now route index }
    {
        Stretch {
            line: WholeLine {
                is_vertical: is_vertical(run.way),
                at: run.at,
            },
            lo: run.lo,
            hi: run.hi,
            route,
            index,
        }
    }

    /// Whether this stretch goes on past the beginning of the other, on the same line.
    pub(crate) fn reaches(&self, later: &Stretch) -> bool
        ensures { IsTrue result ↔
            ((self.now.line ≡ later.now.line) × (later.now.lo <ℤ self.now.hi)) }
    {
        self.line == later.line && later.lo < self.hi
    }
}

/// Adds the runs of the route at the index.
fn add_stretches(
    found: &mut Vec<Stretch>,
    routes: &[EdgeRuns],
    route: usize,
) -> Result<(), AllocError>
    requires within { route < length routes.now }
    requires so_far { All (IsStretch routes.now) found.old.items }
    ensures each { IfOk result (λ _. All (IsStretch routes.now) found.new.items) }
    ensures kept { IfOk result (λ _. (s : Stretch) →
        Contains found.old.items s → Contains found.new.items s) }
    ensures all { IfOk result (λ _. (m : ℕ) → m < length (route_at routes.now route).runs →
        Contains found.new.items (stretch_of routes.now route m)) }
{
    for (index, run) in routes[route].runs.as_slice().iter().enumerate() {
        found.push(Stretch::of(run, route, index))?;
    }
    Ok(())
}

/// The runs of all routes.
fn all_stretches(alloc: Global, routes: &[EdgeRuns]) -> Result<Vec<Stretch>, AllocError>
    ensures each { IfOk result (λ found. All (IsStretch routes.now) found.items) }
    ensures all { IfOk result (λ found. (k m : ℕ) →
        k < length routes.now → m < length (route_at routes.now k).runs →
        Contains found.items (stretch_of routes.now k m)) }
{
    let mut found = Vec::new(alloc);
    for route in 0..routes.len() {
        add_stretches(&mut found, routes, route)?;
    }
    Ok(found)
}

/// The runs of all routes, in order.
pub(crate) fn stretches(alloc: Global, routes: &[EdgeRuns]) -> Result<Vec<Stretch>, AllocError>
    ensures each { IfOk result (λ found. All (IsStretch routes.now) found.items) }
    ensures all { IfOk result (λ found. (k m : ℕ) →
        k < length routes.now → m < length (route_at routes.now k).runs →
        Contains found.items (stretch_of routes.now k m)) }
    ensures order { IfOk result (λ found. AllPairs BeginsFirst found.items) }
{
    let mut found = all_stretches(alloc, routes)?;
    found.sort_unstable();
    Ok(found)
}
