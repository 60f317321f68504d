//! The laws that relate legal walks to legal runs. No public clause cites this module.
ghost use Rattle.std.specs.Prelude.{ℕ, ◌-◌, ◌≤◌, ◌<ℤ◌, List, Some, length, All};
ghost use Rattle.plane_geom.specs.declared.point.Point.{Point};
ghost use Rattle.plane_geom.specs.declared.rect.Solid.{Solid};
ghost use Rattle.segment_order.specs.declared.run.Run.{Run};
ghost use Rattle.segment_order.specs.Run.{AreRunsOf};
ghost use Rattle.walk_model.specs.declared.task.Choice.{Choice};
ghost use Rattle.walk_model.specs.Choice.{IsChoice, stub_length};
ghost use Rattle.walk_model.specs.Legal.{IsFree, IsLegal};
ghost use Rattle.nudge_phases.specs.LegalRuns.{IsLegalAlong, walk_along};

/// A legal walk along at least three runs that all have some length is legal along its runs.
pub fn legal_walks_are_legal_along_runs()
    ensures { (solids : List Solid) (via : List Point) (s : Choice) (runs : List Run) (e : Choice) (edge : ℕ) →
        AreRunsOf edge runs → IsChoice s → IsChoice e → 3 ≤ length runs → All (λ (r : Run). r.lo <ℤ r.hi) runs →
        IsLegal solids via s (walk_along runs) e → IsLegalAlong solids via s runs e }
{}

/// A walk along legal runs is legal, where its stubs are free. A run may have no length.
pub fn legal_runs_make_legal_walks()
    ensures { (solids : List Solid) (via : List Point) (s : Choice) (runs : List Run) (e : Choice) (edge : ℕ) →
        AreRunsOf edge runs → IsChoice s → IsChoice e → IsLegalAlong solids via s runs e →
        IsFree solids (Some s.node) (walk_along runs) 0 (stub_length s) →
        IsFree solids (Some e.node) (walk_along runs) (length (walk_along runs).steps - stub_length e)
        (length (walk_along runs).steps) →
        IsLegal solids via s (walk_along runs) e }
{}
