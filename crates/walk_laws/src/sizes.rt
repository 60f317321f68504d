//! The number of runs of a first walk, its greatest cost, and that its route is a line on the
//! sheet.
ghost use Rattle.std.specs.Prelude.{◌≡◌, ℕ, ◌+◌, ◌*◌, ◌^◌, ◌<◌, ◌≤◌, List, length, All, Contains};
ghost use Rattle.plane_geom.specs.declared.floor.Floor.{Floor};
ghost use Rattle.plane_geom.specs.declared.floor.Line.{Line};
ghost use Rattle.plane_geom.specs.declared.point.Dir.{Dir};
ghost use Rattle.plane_geom.specs.declared.point.Way.{Way};
ghost use Rattle.plane_geom.specs.declared.point.Way.TheVariants.{Vertical, Horizontal};
ghost use Rattle.plane_geom.specs.Floor.{IsFloor, IsKept};
ghost use Rattle.plane_geom.specs.Point.{PointIsOnSheet};
ghost use Rattle.walk_laws.specs.Runs.{runs_of_way};
ghost use Rattle.walk_model.specs.Cost.{runs};
ghost use Rattle.walk_model.specs.Floors.{IsFloorOf};
ghost use Rattle.walk_model.specs.Legal.{IsTask};
ghost use Rattle.walk_model.specs.Line.{IsOrthogonal};
ghost use Rattle.walk_model.specs.Order.{IsFirst, IsRouteOf, Triple, triple_cost};
ghost use Rattle.walk_model.specs.Walk.{point_at};
ghost use Rattle.walk_model.specs.declared.route.Route.{Route};
ghost use Rattle.walk_model.specs.declared.task.Task.{Task};

/// The runs of both ways are all runs.
pub fn both_ways_are_all_runs()
    ensures { (steps : List Dir) → runs_of_way Vertical steps + runs_of_way Horizontal steps ≡ runs steps }
{}

/// A first walk has at most one run of a way on each kept line of this way for each leg, in
/// addition to the runs of the two stubs.
pub fn first_walks_have_few_runs_of_a_way()
    ensures { (floor : Floor) (task : Task) (t : Triple) (way : Way) (lines : List Line) → IsTask task →
        IsFloorOf floor task → IsFirst floor.solids task t → All (IsKept floor) lines →
        ((l : Line) → IsKept floor l → l.way ≡ way → Contains lines l) →
        runs_of_way way t.walk.steps ≤ 2 + (length task.via + 1) * length lines }
{}

/// All points of a first walk are on the sheet.
pub fn first_walks_stay_on_sheet()
    ensures { (floor : Floor) (task : Task) (t : Triple) → IsTask task → IsFloorOf floor task →
        IsFirst floor.solids task t → (k : ℕ) → PointIsOnSheet (point_at t.walk k) }
{}

/// On a floor within the limits a first walk has at most 1,644,802 runs of each way and 3,289,602
/// in all, and costs less than 3 * 10^17 thousandths of a GML unit, the connection costs of its
/// choices included.
pub fn first_walks_are_small()
    ensures each_way { (floor : Floor) (task : Task) (t : Triple) → IsFloor floor → IsTask task →
        IsFloorOf floor task → IsFirst floor.solids task t → (way : Way) → runs_of_way way t.walk.steps ≤ 1644802 }
    ensures in_all { (floor : Floor) (task : Task) (t : Triple) → IsFloor floor → IsTask task →
        IsFloorOf floor task → IsFirst floor.solids task t → runs t.walk.steps ≤ 3289602 }
    ensures cost { (floor : Floor) (task : Task) (t : Triple) → IsFloor floor → IsTask task →
        IsFloorOf floor task → IsFirst floor.solids task t → triple_cost task t < 3 * 10 ^ 17 }
{}

/// So the route of a first walk is a line that a call accepts, and its cost fits its type.
pub fn first_routes_are_small()
    ensures orthogonal { (floor : Floor) (task : Task) (t : Triple) (r : Route) → IsFloor floor → IsTask task →
        IsFloorOf floor task → IsFirst floor.solids task t → IsRouteOf task r t → IsOrthogonal r.points }
    ensures few { (floor : Floor) (task : Task) (t : Triple) (r : Route) → IsFloor floor → IsTask task →
        IsFloorOf floor task → IsFirst floor.solids task t → IsRouteOf task r t → length r.points ≤ 3289603 }
    ensures cost { (floor : Floor) (task : Task) (t : Triple) (r : Route) → IsFloor floor → IsTask task →
        IsFloorOf floor task → IsFirst floor.solids task t → IsRouteOf task r t → r.cost < 3 * 10 ^ 17 }
{}
