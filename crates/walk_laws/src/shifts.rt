//! The laws of moving a run of a legal walk by one step.
ghost use Rattle.std.specs.Prelude.{◌≡◌, ◌+◌, ◌≤◌, List, [], ◌∷◌, ◌++◌};
ghost use Rattle.plane_geom.specs.declared.rect.Solid.{Solid};
ghost use Rattle.plane_geom.specs.Point.{forward, opposite};
ghost use Rattle.walk_laws.specs.Shifts.{HasInnerRun, InnerRun, IsFreeTo, JoinsOrLeans, cut_short, line_of_run, moved_back, moved_on, with_steps};
ghost use Rattle.walk_model.specs.Legal.{IsTask};
ghost use Rattle.walk_model.specs.Order.{IsLegalTriple, Triple, triple_cost};
ghost use Rattle.walk_model.specs.Walk.{after};
ghost use Rattle.walk_model.specs.declared.task.Task.{Task};

/// A run between two equal steps that shares no point with a closed side to where the walk comes
/// from, and holds no checkpoint, can be moved there by one: the walk stays legal and costs no
/// more. It gets fewer runs, or leans by what the run was moved.
pub fn runs_can_be_moved_back()
    ensures legal { (solids : List Solid) (task : Task) (t : Triple) (r : InnerRun) → IsTask task → HasInnerRun solids task t r →
        r.behind ≡ r.before → IsFreeTo solids task.via (opposite r.before) (line_of_run t r) →
        IsLegalTriple solids task (with_steps t (moved_back r)) }
    ensures cost { (solids : List Solid) (task : Task) (t : Triple) (r : InnerRun) → HasInnerRun solids task t r →
        r.behind ≡ r.before → triple_cost task (with_steps t (moved_back r)) ≤ triple_cost task t }
    ensures order { (solids : List Solid) (task : Task) (t : Triple) (r : InnerRun) → HasInnerRun solids task t r →
        r.behind ≡ r.before → JoinsOrLeans t r.along (moved_back r)
        (after t.walk.start (r.front ++ r.before ∷ [])) (after t.walk.start r.front) }
{}

/// A run between two equal steps that shares no point with a closed side to where the walk goes on,
/// and holds no checkpoint, can be moved there by one: the walk stays legal and costs no more. It
/// gets fewer runs, or leans by what the run was moved.
pub fn runs_can_be_moved_on()
    ensures legal { (solids : List Solid) (task : Task) (t : Triple) (r : InnerRun) → IsTask task → HasInnerRun solids task t r →
        r.behind ≡ r.before → IsFreeTo solids task.via r.before (line_of_run t r) →
        IsLegalTriple solids task (with_steps t (moved_on r)) }
    ensures cost { (solids : List Solid) (task : Task) (t : Triple) (r : InnerRun) → HasInnerRun solids task t r →
        r.behind ≡ r.before → triple_cost task (with_steps t (moved_on r)) ≤ triple_cost task t }
    ensures order { (solids : List Solid) (task : Task) (t : Triple) (r : InnerRun) → HasInnerRun solids task t r →
        r.behind ≡ r.before → JoinsOrLeans t r.along (moved_on r)
        (after t.walk.start (r.front ++ r.before ∷ []))
        (forward r.before 1 (after t.walk.start (r.front ++ r.before ∷ []))) }
{}

/// A run between two opposite steps that shares no point with a closed side to where the walk comes
/// from, and holds no checkpoint, can be moved there by one without these steps: the walk stays
/// legal and costs less.
pub fn detours_can_be_cut_short()
    ensures legal { (solids : List Solid) (task : Task) (t : Triple) (r : InnerRun) → IsTask task → HasInnerRun solids task t r →
        r.behind ≡ opposite r.before → IsFreeTo solids task.via (opposite r.before) (line_of_run t r) →
        IsLegalTriple solids task (with_steps t (cut_short r)) }
    ensures cost { (solids : List Solid) (task : Task) (t : Triple) (r : InnerRun) → HasInnerRun solids task t r →
        r.behind ≡ opposite r.before → triple_cost task (with_steps t (cut_short r)) + 2 ≤ triple_cost task t }
{}
