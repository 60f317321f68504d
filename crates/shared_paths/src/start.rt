//! Where shared paths begin.
ghost use Rattle.std.specs.Prelude.{◌≡◌, ◌<◌, ◌<ℤ◌, ◌+◌, ◌∷◌, ℕ, All, AllPairs, Contains};
ghost use Rattle.std.specs.Prelude.{IfOk, Some, drop, length, slice_index_or};
ghost use Rattle.shared_paths.specs.Listed.{AreRoutes, route_at};
ghost use Rattle.shared_paths.specs.Views.{view};
ghost use Rattle.shared_paths.specs.Starts.{BeginsFirst, IsStart, IsStretch};
ghost use Rattle.shared_paths.specs.Starts.{pair_of, start_from, start_of};

use crate::pair::{Pair, Routes};
use crate::path::EdgeRuns;
use crate::stretch::{Stretch, stretches};
use std::alloc::{AllocError, Global};
use std::collections::BTreeSet;

/// Where a shared path begins: at a run of one route and a run of a later one, by the indices of the
/// routes in the list and of the runs in their routes.
#[derive(Clone, Copy, Debug, PartialEq, Eq, PartialOrd, Ord)]
pub(crate) struct Start {
    pub(crate) a: usize,
    pub(crate) b: usize,
    pub(crate) first: usize,
    pub(crate) b_first: usize,
}

impl Start {
    /// The start at two stretches, that of the earlier route first; none if both are of one route.
    fn of(one: &Stretch, other: &Stretch) -> Option<Start>
        ensures { result ≡ start_of one.now other.now }
    {
        if one.route < other.route {
            Some(Start::at(one, other))
        } else if other.route < one.route {
            Some(Start::at(other, one))
        } else {
            None
        }
    }

    /// The start at a stretch of the one route and a stretch of the other.
    fn at(one: &Stretch, other: &Stretch) -> Start
        ensures { result ≡ start_from one.now other.now }
    {
        Start {
            a: one.route,
            b: other.route,
            first: one.index,
            b_first: other.index,
        }
    }

    /// The first pair.
    pub(crate) fn pair(&self) -> Pair
        ensures { view result ≡ pair_of self.now }
    {
        Pair {
            a: self.first,
            b: self.b_first,
        }
    }

    /// The two routes.
    pub(crate) fn routes<'a>(&self, routes: &'a [EdgeRuns]) -> Routes<'a>
        requires a { self.now.a < length routes.now }
        requires b { self.now.b < length routes.now }
        ensures a { result.a.now ≡ (route_at routes.entry.now self.now.a).runs }
        ensures b { result.b.now ≡ (route_at routes.entry.now self.now.b).runs }
    {
        Routes {
            a: routes[self.a].runs.as_slice(),
            b: routes[self.b].runs.as_slice(),
        }
    }
}

/// Adds the start at the two stretches, if a path begins there.
fn add_start(
    found: &mut BTreeSet<Start>,
    routes: &[EdgeRuns],
    one: &Stretch,
    later: &Stretch,
) -> Result<(), AllocError>
    requires routes { AreRoutes routes.now }
    requires one { IsStretch routes.now one.now }
    requires later { IsStretch routes.now later.now }
    requires order { BeginsFirst one.now later.now }
    requires reaches { (one.now.line ≡ later.now.line) × (later.now.lo <ℤ one.now.hi) }
    requires so_far { All (IsStart routes.now) found.old.keys }
    ensures each { IfOk result (λ _. All (IsStart routes.now) found.new.keys) }
    ensures kept { IfOk result (λ _. (s : Start) →
        Contains found.old.keys s → Contains found.new.keys s) }
    ensures here { IfOk result (λ _. (s : Start) →
        start_of one.now later.now ≡ Some s → IsStart routes.now s → Contains found.new.keys s) }
{
    let Some(start) = Start::of(one, later) else {
        return Ok(());
    };
    if !start.routes(routes).goes_on(false, start.pair()) {
        found.insert(start)?;
    }
    Ok(())
}

/// Adds the starts at the one stretch and a later one.
fn add_starts(
    found: &mut BTreeSet<Start>,
    routes: &[EdgeRuns],
    one: &Stretch,
    later: &[Stretch],
) -> Result<(), AllocError>
    requires routes { AreRoutes routes.now }
    requires one { IsStretch routes.now one.now }
    requires later { All (IsStretch routes.now) later.now }
    requires order { AllPairs BeginsFirst (one.now ∷ later.now) }
    requires so_far { All (IsStart routes.now) found.old.keys }
    ensures each { IfOk result (λ _. All (IsStart routes.now) found.new.keys) }
    ensures kept { IfOk result (λ _. (s : Start) →
        Contains found.old.keys s → Contains found.new.keys s) }
    ensures all { IfOk result (λ _. (s : Start) (x : Stretch) → Contains later.now x →
        start_of one.now x ≡ Some s → IsStart routes.now s → Contains found.new.keys s) }
{
    for other in later {
        // Those after it begin no earlier.
        if !one.reaches(other) {
            return Ok(());
        }
        add_start(found, routes, one, other)?;
    }
    Ok(())
}

/// The starts at any two of the stretches, which are in order.
fn starts_among(
    alloc: Global,
    routes: &[EdgeRuns],
    stretches: &[Stretch],
) -> Result<BTreeSet<Start>, AllocError>
    requires routes { AreRoutes routes.now }
    requires stretches { All (IsStretch routes.now) stretches.now }
    requires order { AllPairs BeginsFirst stretches.now }
    ensures each { IfOk result (λ found. All (IsStart routes.now) found.keys) }
    ensures all { IfOk result (λ found. (s : Start) (i : ℕ) (x y : Stretch) →
        i < length stretches.now → slice_index_or stretches.now i x ≡ x →
        Contains (drop (i + 1) stretches.now) y →
        start_of x y ≡ Some s → IsStart routes.now s → Contains found.keys s) }
{
    let mut found = BTreeSet::new(alloc);
    for (place, one) in stretches.iter().enumerate() {
        add_starts(&mut found, routes, one, &stretches[place + 1..])?;
    }
    Ok(found)
}

/// The starts of all shared paths.
pub(crate) fn starts(alloc: Global, routes: &[EdgeRuns]) -> Result<BTreeSet<Start>, AllocError>
    requires { AreRoutes routes.now }
    ensures each { IfOk result (λ found. All (IsStart routes.now) found.keys) }
    ensures all { IfOk result (λ found. (s : Start) →
        IsStart routes.now s → Contains found.keys s) }
{
    let stretches = stretches(alloc, routes)?;
    starts_among(alloc, routes, &stretches)
}
