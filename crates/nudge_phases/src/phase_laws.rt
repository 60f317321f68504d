//! The laws of both phases, as functions with an empty body: a caller cites one by a call.
ghost use Rattle.std.specs.Prelude.{◌≡◌, ◌≢◌, ℕ, ◌+◌, ◌<◌, ◌≤◌, ℤ, ◌<ℤ◌, List, Some, length, All, AllPairs, slice_get};
ghost use Rattle.plane_geom.specs.declared.point.Point.{Point};
ghost use Rattle.plane_geom.specs.declared.point.Way.{Way};
ghost use Rattle.plane_geom.specs.declared.point.Way.TheVariants.{Vertical, Horizontal};
ghost use Rattle.plane_geom.specs.declared.rect.Solid.{Solid};
ghost use Rattle.segment_order.specs.declared.run.Run.{Run};
ghost use Rattle.segment_order.specs.Run.{AreRunsOf, point_at_index, runs_along};
ghost use Rattle.separation_model.specs.Bundle.{IsBundle, most_items};
ghost use Rattle.channel_bundles.specs.declared.route.PhaseRoute.{PhaseRoute};
ghost use Rattle.channel_bundles.specs.declared.channel.RunBundle.{RunBundle};
ghost use Rattle.channel_bundles.specs.Route.{IsPhaseRoute, runs_of_way};
ghost use Rattle.channel_bundles.specs.Links.{IsNudge};
ghost use Rattle.channel_bundles.specs.Limits.{MayMove};
ghost use Rattle.channel_bundles.specs.Bundles.{AreBundles};
ghost use Rattle.walk_model.specs.declared.route.WrittenRoute.{WrittenRoute};
ghost use Rattle.walk_model.specs.declared.task.Choice.{Choice};
ghost use Rattle.walk_model.specs.Choice.{IsChoice};
ghost use Rattle.walk_model.specs.Legal.{IsLegal};
ghost use Rattle.walk_model.specs.Line.{Draws, IsStraightLine};
ghost use Rattle.walk_model.specs.Walk.{Walk};
ghost use Rattle.nudge_phases.specs.LegalRuns.{IsLegalAlong, walk_along};
ghost use Rattle.nudge_phases.specs.Alike.{AreAlike};
ghost use Rattle.nudge_phases.specs.Apart.{KeepsApart};
ghost use Rattle.nudge_phases.specs.Lines.{IsNudged, KeepsLegal};
ghost use Rattle.nudge_phases.specs.Phase.{IsPhase};
ghost use Rattle.nudge_phases.specs.Ready.{AreRaw, AreWalked, HoldsPorts, IsReady};

/// A route that is legal along its runs may stay as it is, in either phase.
pub fn legal_routes_may_stay()
    ensures { (solids : List Solid) (route : PhaseRoute) (way : Way) (s e : Choice) →
        AreRunsOf route.edge route.runs.items → HoldsPorts route →
        IsLegalAlong solids route.anchors.via.items s route.runs.items e →
        MayMove solids way route }
{}

/// The runs through the corners of a line: the walk along them is the line's, and where
/// neighbouring corners differ they all have some length.
pub fn runs_go_along_lines()
    ensures walk { (edge : ℕ) (points : List Point) (w : Walk) →
        1 < length points → Draws points w → walk_along (runs_along edge 1 points) ≡ w }
    ensures long { (edge : ℕ) (points : List Point) → IsStraightLine points →
        ((k : ℕ) → k + 1 < length points → point_at_index points k ≢ point_at_index points (k + 1)) →
        All (λ (r : Run). r.lo <ℤ r.hi) (runs_along edge 1 points) }
{}

/// The ports of a legal walk along runs that all have some length lie on the first run and on the
/// last one.
pub fn legal_walks_hold_ports()
    ensures { (solids : List Solid) (route : PhaseRoute) (s e : Choice) →
        AreRunsOf route.edge route.runs.items → IsChoice s → IsChoice e →
        All (λ (r : Run). r.lo <ℤ r.hi) route.runs.items →
        s.port ≡ route.anchors.source_port → e.port ≡ route.anchors.target_port →
        IsLegal solids route.anchors.via.items s (walk_along route.runs.items) e → HoldsPorts route }
{}

/// The result of phase x for raw routes is accepted by phase y: the routes are ready and of
/// different edges (`ready`, `edges`), and where the walk of a raw route is legal, its runs may
/// stay as they are in both phases (`stay`).
pub fn phase_y_accepts()
    ensures ready { (solids : List Solid) (raw : List PhaseRoute) (nudge : ℤ) (after : List PhaseRoute) →
        IsPhase solids raw Vertical nudge after → AreRaw raw → All IsReady after }
    ensures edges { (solids : List Solid) (raw : List PhaseRoute) (nudge : ℤ) (after : List PhaseRoute) →
        IsPhase solids raw Vertical nudge after → AreRaw raw → AllPairs (λ r s. r.edge ≢ s.edge) after }
    ensures stay { (solids : List Solid) (raw : List PhaseRoute) (nudge : ℤ) (after : List PhaseRoute) →
        IsPhase solids raw Vertical nudge after → AreRaw raw →
        (k : ℕ) (route moved : PhaseRoute) → slice_get raw k ≡ Some route → slice_get after k ≡ Some moved →
        (s e : Choice) → IsChoice s → IsChoice e →
        s.port ≡ route.anchors.source_port → e.port ≡ route.anchors.target_port →
        IsLegal solids route.anchors.via.items s (walk_along route.runs.items) e →
        MayMove solids Vertical route × MayMove solids Horizontal moved }
{}

/// Where the walk of a raw route is legal, so is the walk that its written line draws.
pub fn nudged_lines_are_legal()
    ensures { (solids : List Solid) (raw : List PhaseRoute) (nudge : ℤ) (lines : List WrittenRoute) →
        IsNudged solids raw nudge lines → AreRaw raw → KeepsLegal solids raw lines }
{}

/// Both phases keep every separation of their runs.
pub fn nudged_lines_keep_apart()
    ensures { (solids : List Solid) (raw : List PhaseRoute) (nudge : ℤ) (lines : List WrittenRoute)
        (nudged : IsNudged solids raw nudge lines) → AreRaw raw →
        KeepsApart nudged.x × KeepsApart nudged.y }
{}

/// Routes of different edges have exactly one list of bundles in a phase, if a solver accepts each
/// of them.
pub fn one_list_of_bundles()
    ensures { (solids : List Solid) (routes : List PhaseRoute) (way : Way) (nudge : ℤ) (found others : List RunBundle) →
        AreBundles solids routes way nudge found → AreBundles solids routes way nudge others →
        All IsPhaseRoute routes → AllPairs (λ r s. r.edge ≢ s.edge) routes →
        All (λ (b : RunBundle). IsBundle b.bundle) found → AreAlike found others }
{}

/// Both phases have exactly one result: for raw routes that follow legal walks there is one list of
/// written lines.
pub fn one_nudged()
    ensures { (solids : List Solid) (raw : List PhaseRoute) (nudge : ℤ) (lines others : List WrittenRoute) →
        IsNudged solids raw nudge lines → IsNudged solids raw nudge others →
        AreWalked solids raw → IsNudge nudge → lines ≡ others }
{}

/// A solver accepts the bundles of a phase whose movable runs may stay as they are.
pub fn bundles_may_be_solved()
    ensures { (solids : List Solid) (routes : List PhaseRoute) (way : Way) (nudge : ℤ) (found : List RunBundle) →
        AreBundles solids routes way nudge found → All IsPhaseRoute routes → All (MayMove solids way) routes →
        length (runs_of_way way routes) ≤ most_items → IsNudge nudge → All (λ (b : RunBundle). IsBundle b.bundle) found }
{}
