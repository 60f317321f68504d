//! The bundles of a phase.
ghost use Rattle.std.specs.Prelude.{◌≡◌, ◌≢◌, ◌+◌, ◌<◌, ◌≤◌, All, AllPairs, IfOk, length, map, take};
ghost use Rattle.plane_geom.specs.Floor.{IsSolid};
ghost use Rattle.separation_model.specs.Bundle.{IsBundle, most_items};
ghost use Rattle.channel_bundles.specs.declared.route.PhaseRoute.{PhaseRoute};
ghost use Rattle.channel_bundles.specs.Route.{IsPhaseRoute, runs_of_way};
ghost use Rattle.channel_bundles.specs.Limits.{MayMove};
ghost use Rattle.channel_bundles.specs.Classes.{Rise};
ghost use Rattle.channel_bundles.specs.Links.{IsMember, IsNudge};
ghost use Rattle.channel_bundles.specs.Few.{AreFewBundles};
ghost use Rattle.channel_bundles.specs.Bundles.{AreBundles, AreInOrder, members_at};
ghost use Rattle.channel_bundles.specs.Listed.{AreListedOf, IsListed};
ghost use Rattle.channel_bundles.specs.declared.channel.Listing.TheVariants as listings;
ghost use Rattle.channel_bundles.specs.Placed.{AreRising, IsPlaced, pairs_of, standings_of};
ghost use Rattle.channel_bundles.specs.Walls.{AreWalls};

use crate::bare::bundle_with;
use crate::leaders::{is_same_but_for_edge, leader_of, runs_at};
use crate::links::{linked_classes, rules_of};
use crate::member::Member;
use crate::route::PhaseRoute;
use crate::shares::few_bundles_of;
use crate::walls::Walls;
use bumpalo::Bump;
use plane_geom::{Solid, Way};
use segment_order::{Run, line_order};
use separation_model::Bundle;
use std::alloc::{AllocError, Global};
use std::cmp::Ordering;

/// Runs that links join, in their order on the line, with the separation constraints on them.
///
/// The bundle's items are the runs, in this order. All lists are in the caller's arena.
#[derive(Debug, Drop)]
pub struct RunBundle<'a> {
    pub bundle: Bundle<'a>,
    pub runs: Vec<Run, &'a Bump>,
}

/// Which links are rules of a bundle: all, or few whose chains stand for all.
#[derive(Clone, Copy)]
enum Listing {
    All,
    Few,
}

/// A run with its limits, its route, and the index of a route with the same runs but for its edge.
#[derive(Clone, Copy)]
struct Placed<'r, 'p> {
    route: &'r PhaseRoute<'p>,
    leader: usize,
    member: Member,
}

impl Placed<'_, '_> {
    ghost use Rattle.segment_order.specs.Order.{compare_keys};
    ghost use Rattle.channel_bundles.specs.Placed.{key_of_placed};

    /// Compares two runs by their order on the line. The routes of their leaders are walked, and none
    /// where the two runs have one leader and are at the same place.
    fn compare(&self, other: &Placed<'_, '_>, routes: &[PhaseRoute<'_>]) -> Ordering
        ensures { result ≡ compare_keys (key_of_placed routes.now self.now) (key_of_placed routes.now other.now) }
    {
        let (a, b) = (&self.member.run, &other.member.run);
        let at = a.at.cmp(&b.at);
        if at != Ordering::Equal {
            return at;
        }
        if self.leader == other.leader && is_same_but_for_edge(a, b) {
            return a.edge.cmp(&b.edge);
        }
        line_order(
            a,
            runs_at(routes, self.leader),
            b,
            runs_at(routes, other.leader),
        )
    }
}

/// Appends the runs of the way of the route at the index.
fn add_runs<'r, 'p>(
    placed: &mut Vec<Placed<'r, 'p>>,
    walls: &Walls<'_, '_>,
    routes: &'r [PhaseRoute<'p>],
    at: usize,
    way: Way,
) -> Result<(), AllocError>
    requires walls { AreWalls way walls.now }
    requires routes { All IsPhaseRoute routes.now }
    requires movable { All (MayMove walls.now.solids.now way) routes.now }
    requires at { at < length routes.now }
    requires so_far { All (IsPlaced walls.now.solids.now routes.now) placed.old.items }
    requires before { pairs_of placed.old.items ≡ runs_of_way way (take at routes.now) }
    ensures each { IfOk result (λ _. All (IsPlaced walls.now.solids.now routes.now) placed.new.items) }
    ensures runs { IfOk result (λ _. pairs_of placed.new.items ≡ runs_of_way way (take (at + 1) routes.now)) }
{
    let route = &routes[at];
    let leader = leader_of(routes, at);
    for k in 0..route.runs.len() {
        if route.is_of_way(k, way) {
            placed.push(Placed {
                route,
                leader,
                member: route.member(walls, k),
            })?;
        }
    }
    Ok(())
}

/// How many runs of the way the routes have: so much room the list of them takes.
fn count_of_way(routes: &[PhaseRoute<'_>], way: Way) -> usize {
    let mut count = 0usize;
    for route in routes {
        let own = route.runs.iter().filter(|run| run.way == way).count();
        count = count.saturating_add(own);
    }
    count
}

/// The runs of the way of all routes.
fn runs_of<'r, 'p>(
    alloc: Global,
    walls: &Walls<'_, '_>,
    routes: &'r [PhaseRoute<'p>],
    way: Way,
) -> Result<Vec<Placed<'r, 'p>>, AllocError>
    requires walls { AreWalls way walls.now }
    requires routes { All IsPhaseRoute routes.now }
    requires movable { All (MayMove walls.now.solids.now way) routes.now }
    ensures each { IfOk result (λ placed. All (IsPlaced walls.now.solids.now routes.now) placed.items) }
    ensures runs { IfOk result (λ placed. pairs_of placed.items ≡ runs_of_way way routes.now) }
{
    let mut placed = Vec::with_capacity(alloc, count_of_way(routes, way))?;
    for at in 0..routes.len() {
        add_runs(&mut placed, walls, routes, at, way)?;
    }
    Ok(placed)
}

/// The runs of the way of all routes, in their order on the line.
fn runs_in_order<'r, 'p>(
    alloc: Global,
    walls: &Walls<'_, '_>,
    routes: &'r [PhaseRoute<'p>],
    way: Way,
) -> Result<Vec<Placed<'r, 'p>>, AllocError>
    requires walls { AreWalls way walls.now }
    requires routes { All IsPhaseRoute routes.now }
    requires movable { All (MayMove walls.now.solids.now way) routes.now }
    ensures order { IfOk result (λ placed. AreInOrder walls.now.solids.now routes.now way (standings_of placed.items)) }
    ensures each { IfOk result (λ placed. All (IsPlaced walls.now.solids.now routes.now) placed.items) }
{
    let mut placed = runs_of(alloc, walls, routes, way)?;
    placed.sort_unstable_by(|a, b| a.compare(b, routes));
    Ok(placed)
}

/// The runs without their routes.
fn own_members<'a>(
    bump: &'a Bump,
    placed: &[Placed<'_, '_>],
) -> Result<Vec<Member, &'a Bump>, AllocError>
    ensures { IfOk result (λ members. members.items ≡ map (λ p. p.member) placed.now) }
{
    placed.iter().map(|p| p.member).collect(bump)
}

/// The runs at the given places.
fn chosen<'a>(
    bump: &'a Bump,
    members: &[Member],
    places: &[usize],
) -> Result<Vec<Member, &'a Bump>, AllocError>
    requires { All (λ i. i < length members.now) places.now }
    ensures { IfOk result (λ found. found.items ≡ members_at members.now places.now) }
{
    let mut found = Vec::with_capacity(bump, places.len())?;
    for place in places {
        found.push(members[*place])?;
    }
    Ok(found)
}

/// The bundle of the runs at the given places, which rise, with all their links as rules.
fn class_bundle<'a>(
    bump: &'a Bump,
    members: &[Member],
    places: &[usize],
    nudge: i64,
) -> Result<RunBundle<'a>, AllocError>
    requires members { All IsMember members.now }
    requires few { length members.now ≤ most_items }
    requires nudge { IsNudge nudge }
    requires within { All (λ i. i < length members.now) places.now }
    requires places { Rise places.now }
    ensures { IfOk result (λ b. IsListed listings.All nudge (members_at members.now places.now) b) }
{
    let runs = chosen(bump, members, places)?;
    let rules = rules_of(bump, &runs, nudge)?;
    bundle_with(bump, members, places, rules, nudge)
}

/// The bundles of the runs, each with all its links as rules.
fn all_bundles_of<'a>(
    alloc: Global,
    bump: &'a Bump,
    members: &[Member],
    nudge: i64,
) -> Result<Vec<RunBundle<'a>, &'a Bump>, AllocError>
    requires members { All IsMember members.now }
    requires few { length members.now ≤ most_items }
    requires rising { AreRising members.now }
    requires nudge { IsNudge nudge }
    ensures { IfOk result (λ found. AreListedOf listings.All nudge members.now found.items) }
{
    let classes = linked_classes(alloc, bump, members, nudge)?;
    let mut found = Vec::with_capacity(bump, classes.len())?;
    for class in &classes {
        found.push(class_bundle(bump, members, class, nudge)?)?;
    }
    Ok(found)
}

/// The bundles of the runs, which are in their order on the line.
fn bundles_of<'a>(
    alloc: Global,
    bump: &'a Bump,
    members: &[Member],
    nudge: i64,
    listing: Listing,
) -> Result<Vec<RunBundle<'a>, &'a Bump>, AllocError>
    requires members { All IsMember members.now }
    requires few { length members.now ≤ most_items }
    requires rising { AreRising members.now }
    requires nudge { IsNudge nudge }
    ensures bundles { IfOk result (λ found. AreListedOf listing nudge members.now found.items) }
    ensures each { IfOk result (λ found. All (λ b. IsBundle b.bundle) found.items) }
{
    match listing {
        Listing::All => all_bundles_of(alloc, bump, members, nudge),
        Listing::Few => few_bundles_of(alloc, bump, members, nudge),
    }
}

/// The bundles of a phase, in the order of their first runs.
fn listed_bundles<'a>(
    alloc: Global,
    bump: &'a Bump,
    solids: &[Solid],
    routes: &[PhaseRoute<'_>],
    way: Way,
    nudge: i64,
    listing: Listing,
) -> Result<Vec<RunBundle<'a>, &'a Bump>, AllocError>
    requires solids { All IsSolid solids.now }
    requires routes { All IsPhaseRoute routes.now }
    requires edges { AllPairs (λ r s. r.edge ≢ s.edge) routes.now }
    requires movable { All (MayMove solids.now way) routes.now }
    requires few { length (runs_of_way way routes.now) ≤ most_items }
    requires nudge { IsNudge nudge }
    ensures all { listing ≡ listings.All → IfOk result (λ found. AreBundles solids.now routes.now way nudge found.items) }
    ensures few { listing ≡ listings.Few → IfOk result (λ few. AreFewBundles solids.now routes.now way nudge few.items) }
    ensures each { IfOk result (λ found. All (λ b. IsBundle b.bundle) found.items) }
{
    let walls = Walls::new(bump, solids, way)?;
    let placed = runs_in_order(alloc, &walls, routes, way)?;
    let members = own_members(bump, &placed)?;
    // The runs need their routes no more.
    drop(placed);
    bundles_of(alloc, bump, &members, nudge, listing)
}

/// The bundles of a phase, in the order of their first runs. The only error is out of memory.
///
/// They are in the arena. Most of what is needed on the way is in `alloc`, and is given back.
///
/// A phase moves the runs of one way. The routes are of different edges, all on the sheet, and have
/// weights from 1 to 4; there are at most 850,000,000 runs of the way, and the wanted nudge is from
/// 0 to 1,000,000 thousandths. Each movable run may stay at its coordinate: no part of it is in a
/// solid, and both its neighbours keep the points that they have to keep.
pub fn bundles<'a>(
    alloc: Global,
    bump: &'a Bump,
    solids: &[Solid],
    routes: &[PhaseRoute<'_>],
    way: Way,
    nudge: i64,
) -> Result<Vec<RunBundle<'a>, &'a Bump>, AllocError>
    requires solids { All IsSolid solids.now }
    requires routes { All IsPhaseRoute routes.now }
    requires edges { AllPairs (λ r s. r.edge ≢ s.edge) routes.now }
    requires movable { All (MayMove solids.now way) routes.now }
    requires few { length (runs_of_way way routes.now) ≤ most_items }
    requires nudge { IsNudge nudge }
    ensures bundles { IfOk result (λ found. AreBundles solids.now routes.now way nudge found.items) }
    ensures each { IfOk result (λ found. All (λ b. IsBundle b.bundle) found.items) }
{
    listed_bundles(alloc, bump, solids, routes, way, nudge, Listing::All)
}

/// The bundles of a phase, as `bundles`, each with few of its rules, whose chains stand for all.
/// The only error is out of memory.
///
/// The widest gap and the least positions of a bundle are those that it has with all its rules.
/// The conditions are those of `bundles`.
pub fn few_bundles<'a>(
    alloc: Global,
    bump: &'a Bump,
    solids: &[Solid],
    routes: &[PhaseRoute<'_>],
    way: Way,
    nudge: i64,
) -> Result<Vec<RunBundle<'a>, &'a Bump>, AllocError>
    requires solids { All IsSolid solids.now }
    requires routes { All IsPhaseRoute routes.now }
    requires edges { AllPairs (λ r s. r.edge ≢ s.edge) routes.now }
    requires movable { All (MayMove solids.now way) routes.now }
    requires few { length (runs_of_way way routes.now) ≤ most_items }
    requires nudge { IsNudge nudge }
    ensures bundles { IfOk result (λ few. AreFewBundles solids.now routes.now way nudge few.items) }
    ensures each { IfOk result (λ few. All (λ b. IsBundle b.bundle) few.items) }
{
    listed_bundles(alloc, bump, solids, routes, way, nudge, Listing::Few)
}
