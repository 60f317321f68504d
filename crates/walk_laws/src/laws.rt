//! The laws, each the contract of a function with an empty body.
ghost use Rattle.std.specs.Prelude.{◌≡◌, ℕ, ◌+◌, ◌-◌, ◌*◌, ◌≤◌, List, length, take, drop, replicate, All, Contains};
ghost use Rattle.plane_geom.specs.declared.floor.Floor.{Floor};
ghost use Rattle.plane_geom.specs.declared.floor.Line.{Line};
ghost use Rattle.plane_geom.specs.Floor.{Holds, IsCrossing, IsFreePiece, IsKept};
ghost use Rattle.plane_geom.specs.declared.rect.Solid.{Solid};
ghost use Rattle.plane_geom.specs.Point.{distance, heading};
ghost use Rattle.walk_model.specs.Choice.{stub_length};
ghost use Rattle.walk_model.specs.Cost.{runs};
ghost use Rattle.walk_model.specs.Legal.{IsTask};
ghost use Rattle.walk_model.specs.Floors.{IsFloorOf};
ghost use Rattle.walk_laws.specs.Lines.{DoublesBackAtCheckpoints, GoesAlongLines, IsInOneLeg};
ghost use Rattle.walk_laws.specs.Sides.{AreRunsHeldTo};
ghost use Rattle.walk_model.specs.Order.{IsFirst, Triple};
ghost use Rattle.walk_model.specs.Walk.{point_at};
ghost use Rattle.walk_model.specs.declared.task.Task.{Task};

/// Between its ports a first walk goes along kept lines and bends at crossings.
pub fn first_walks_go_along_lines()
    ensures { (floor : Floor) (task : Task) (t : Triple) → IsTask task → IsFloorOf floor task →
        (first : IsFirst floor.solids task t) →
        GoesAlongLines floor t.walk (stub_length first.legal.start) (length t.walk.steps - stub_length first.legal.end) }
{}

/// The checkpoints of a task that has a first walk are crossings.
pub fn checkpoints_are_crossings()
    ensures { (floor : Floor) (task : Task) (t : Triple) → IsTask task → IsFloorOf floor task →
        IsFirst floor.solids task t → All (IsCrossing floor) task.via }
{}

/// Between two points of one free piece that a first walk passes in one leg, it is straight.
pub fn one_run_per_free_piece()
    ensures { (floor : Floor) (task : Task) (t : Triple) → IsTask task →
        (first : IsFirst floor.solids task t) → (i j : ℕ) →
        IsInOneLeg t.walk (stub_length first.legal.start) (length t.walk.steps - stub_length first.legal.end) task.via i j →
        (l : Line) → IsFreePiece floor l → Holds l (point_at t.walk i) → Holds l (point_at t.walk j) →
        take (j - i) (drop i t.walk.steps)
        ≡ replicate (distance (point_at t.walk i) (point_at t.walk j)) (heading (point_at t.walk i) (point_at t.walk j)) }
{}

/// A first walk has at most one run on each kept line for each leg, in addition to the runs of the
/// two stubs.
pub fn first_walks_have_few_runs()
    ensures { (floor : Floor) (task : Task) (t : Triple) (lines : List Line) → IsTask task → IsFloorOf floor task →
        IsFirst floor.solids task t → All (IsKept floor) lines → ((l : Line) → IsKept floor l → Contains lines l) →
        runs t.walk.steps ≤ 2 + (length task.via + 1) * length lines }
{}

/// Each run of a first walk that begins after the start port and ends before the end port holds a
/// checkpoint, or shares a point with a closed side of a solid on its whole line.
///
/// The solid lies on the side from which the walk reaches the run; where the walk goes on after
/// the run in the direction in which it came, on the side of the lesser coordinate.
pub fn runs_are_held_to_a_side()
    ensures { (solids : List Solid) (task : Task) (t : Triple) → IsTask task → (first : IsFirst solids task t) →
        AreRunsHeldTo solids task.via t.walk (stub_length first.legal.start)
        (length t.walk.steps - stub_length first.legal.end) }
{}

/// Where a first walk doubles back between its ports, there is a checkpoint.
pub fn doublings_back_are_at_checkpoints()
    ensures { (solids : List Solid) (task : Task) (t : Triple) → IsTask task → (first : IsFirst solids task t) →
        DoublesBackAtCheckpoints task.via t.walk (stub_length first.legal.start)
        (length t.walk.steps - stub_length first.legal.end) }
{}
