//! The law of what is known, the contract of a function with an empty body.
ghost use Rattle.std.specs.Prelude.{◌≡◌, List, Some};
ghost use Rattle.exit_spread.specs.Propagating.{IsOfferable};
ghost use Rattle.exit_spread.specs.Known.{known};
ghost use Rattle.exit_spread.specs.Searching.{IsSpread};
ghost use Rattle.exit_spread.specs.Ways.{IsWayAhead};
ghost use Rattle.exit_spread.specs.declared.spread.Spread.{Spread};
ghost use Rattle.line_arena.specs.Arena.{StandsAt};
ghost use Rattle.line_lists.specs.Lists.{AreListsOf, Lists, number_of};
ghost use Rattle.move_model.specs.Ahead.{ahead};
ghost use Rattle.move_model.specs.Ways.{GoesAlongWay, HasRest, Leg, steps_of_way};
ghost use Rattle.move_model.specs.declared.ahead.Ahead.{Ahead};
ghost use Rattle.move_model.specs.declared.place.Place.{Place};
ghost use Rattle.plane_geom.specs.declared.point.Point.{Point};
ghost use Rattle.search_problem.specs.Problems.{IsReady};
ghost use Rattle.search_problem.specs.declared.problem.Problem.{Problem};
ghost use Rattle.walk_model.specs.Order.{IsFirst, Triple};

/// After a spread, what is known to lie ahead of a place is ahead on some way from it. At each
/// place on the way of a first walk it is exactly what is ahead of that walk.
pub fn first_walks_are_known()
    ensures attained { (p : Problem) (lists : Lists) (s : Spread) → IsReady p → AreListsOf p.arena.now lists →
        IsSpread p (number_of lists) s → (x : Place) (at : Point) (v : Ahead) → StandsAt p.arena.now x.crossing at →
        known p (number_of lists) s x at ≡ Some v → IsWayAhead p x at v }
    ensures small { (p : Problem) (lists : Lists) (s : Spread) → IsReady p → AreListsOf p.arena.now lists →
        IsSpread p (number_of lists) s → (x : Place) (at : Point) (v : Ahead) → StandsAt p.arena.now x.crossing at →
        known p (number_of lists) s x at ≡ Some v → IsOfferable v }
    ensures along { (p : Problem) (lists : Lists) (s : Spread) → IsReady p → AreListsOf p.arena.now lists →
        IsSpread p (number_of lists) s → (t : Triple) → IsFirst p.solids.now p.task.now t →
        (along : GoesAlongWay p.solids.now p.arena.now p.task.now t) → (x : Place) (at : Point) (rest : List Leg) →
        HasRest p.solids.now p.arena.now p.task.now t along x at rest →
        known p (number_of lists) s x at
        ≡ Some (ahead p.task.now.penalty x.heading at (steps_of_way rest along.end) along.end.cost) }
{}
