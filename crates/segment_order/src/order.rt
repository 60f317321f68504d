//! The order of runs on a line.
ghost use Rattle.std.specs.Prelude.{◌≡◌, ◌≢◌, ◌⊎◌, ◌++◌, ◌∷◌, [], List};
ghost use Rattle.std.specs.Cmp.{IsTotalOrder};
ghost use Rattle.std.specs.Cmp.Lexicographic.{slice_cmp};
ghost use Rattle.std.specs.declared.cmp.Ordering.TheVariants.{Equal};
ghost use Rattle.plane_geom.specs.declared.point.Dir.{Dir};
ghost use Rattle.plane_geom.specs.Along.{rising};
ghost use Rattle.segment_order.specs.declared.run.Run.{Run};
ghost use Rattle.segment_order.specs.Ray.{EndsAtOnlyStop, entries_of, entry_cmp, ray};
ghost use Rattle.segment_order.specs.Order.{compare_keys, key_of};

use crate::ray::{Entry, Ray};
use crate::run::Run;
use plane_geom::{Dir, Way};
use std::cmp::Ordering;

/// Compares two rays by the first entries that differ; later ones are not read. What they have in
/// common at their start is passed first, which is faster than entry by entry.
fn compare_rays(a: Ray<'_>, b: Ray<'_>) -> Ordering
    ensures { result ≡ slice_cmp entry_cmp (entries_of a.entry) (entries_of b.entry) }
{
    let (mut a, mut b) = a.past_common(b);
    loop {
        let (x, a_next) = a.split();
        let (y, b_next) = b.split();
        let order = x.compare(y);
        if order != Ordering::Equal {
            return order;
        }
        let (Some(a_left), Some(b_left)) = (a_next, b_next) else {
            return order;
        };
        a = a_left;
        b = b_left;
    }
}

/// The direction in which the coordinates rise along lines of the way.
fn rising(way: Way) -> Dir
    ensures { result ≡ rising way }
{
    match way {
        Way::Vertical => Dir::South,
        Way::Horizontal => Dir::East,
    }
}

/// Compares two runs on a line: by coordinate, by their two rays, by edge and by place.
///
/// A ray follows the route away from its run. The first ray leaves the run at the end with the
/// smaller coordinate. `a_route` and `b_route` are all runs of the routes of `a` and `b`, in order.
/// Takes no memory.
pub fn line_order(a: &Run, a_route: &[Run], b: &Run, b_route: &[Run]) -> Ordering
    ensures { result ≡ compare_keys (key_of a_route.now a.now) (key_of b_route.now b.now) }
{
    let a_on = rising(a.way);
    let b_on = rising(b.way);
    let (a_back, b_back) = (a_on.opposite(), b_on.opposite());
    a.at.cmp(&b.at)
        .then_with(|| compare_rays(
            Ray::leaving(a, a_route, a_back),
            Ray::leaving(b, b_route, b_back),
        ))
        .then_with(|| compare_rays(
            Ray::leaving(a, a_route, a_on),
            Ray::leaving(b, b_route, b_on),
        ))
        .then(a.edge.cmp(&b.edge))
        .then(a.place.cmp(&b.place))
}

/// The first entry of the ray that leaves the run in the direction: where it turns, or that it stops.
///
/// The run comes with all runs of its route, in order. Takes no memory.
pub fn first_entry(run: &Run, route: &[Run], dir: Dir) -> Entry
    ensures { (more : List Entry) × (ray route.now run.now dir ≡ result ∷ more) }
{
    let (entry, _) = Ray::leaving(run, route, dir).split();
    entry
}

/// The order of runs is total and transitive, and runs that differ in edge or place never tie.
pub fn one_order()
    ensures total { IsTotalOrder compare_keys }
    ensures no_ties { (a b : Run) (a_route b_route : List Run) → (a.edge ≢ b.edge) ⊎ (a.place ≢ b.place) →
        compare_keys (key_of a_route a) (key_of b_route b) ≢ Equal }
{}

/// Each ray ends with its only stop, so none continues where another ends.
pub fn rays_stop()
    ensures stop { (route : List Run) (r : Run) (d : Dir) → EndsAtOnlyStop (ray route r d) }
    ensures no_prefix { (a b : List Entry) → EndsAtOnlyStop a → EndsAtOnlyStop b → (more : List Entry) → b ≡ a ++ more → more ≡ [] }
{}
