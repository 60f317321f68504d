//! What is known to lie ahead of a place.
ghost use Rattle.std.specs.Prelude.{◌≡◌, ◌≤◌, None, All, Contains, length};
ghost use Rattle.line_arena.specs.Arena.{StandsAt};
ghost use Rattle.line_lists.specs.Lists.{AreListsOf, number_of};
ghost use Rattle.plane_geom.specs.declared.point.Point.{Point as PointOf};
ghost use Rattle.search_problem.specs.Problems.{IsReady};
ghost use Rattle.plane_geom.specs.Point.{PointIsOnSheet};
ghost use Rattle.exit_rows.specs.Exits.{IsSmallKept};
ghost use Rattle.exit_rows.specs.Rows.{HasRow, kept_in};
ghost use Rattle.exit_spread.specs.Known.{ahead_by, known, known_by_line, known_onwards, known_towards};
ghost use Rattle.exit_spread.specs.Searching.{IsSearching};

use crate::propagate::turned;
use crate::spread::Spread;
use exit_rows::lesser;
use line_lists::LineLists;
use move_model::{Ahead, Place, Stretch};
use plane_geom::{Dir, Point, Way};
use search_problem::{Ending, NOTHING, Problem};
use side_touches::reach;

/// What is ahead of the place by the stub of the ending, if the walk ends there.
fn ahead_by(problem: &Problem<'_>, place: &Place, ending: &Ending) -> Ahead
    requires ready { IsReady problem.now }
    requires ending { Contains problem.now.endings.items ending.now }
    ensures { result ≡ ahead_by problem.now place.now ending.now }
{
    let stub = Stretch {
        from: ending.port,
        dir: ending.dir,
        steps: ending.rest,
    };
    NOTHING.behind(place.heading, stub, problem.task.penalty)
}

impl Spread {
    /// What is known to lie ahead of the place, which is at the point, in the direction, by the line
    /// with that number.
    fn ahead_by_line(
        &self,
        problem: &Problem<'_>,
        place: &Place,
        at: Point,
        line: usize,
        dir: Dir,
    ) -> Option<Ahead>
        requires ready { IsReady problem.now }
        requires at { PointIsOnSheet at }
        requires room { HasRow self.now.rows place.now.stage line }
        requires small { All IsSmallKept (kept_in self.now.rows place.now.stage line dir) }
        ensures { result ≡ known_by_line problem.now self.now place.now at line dir }
    {
        let ahead = self
            .rows
            .ahead_along(place.stage, line, dir, reach(dir, at))?;
        Some(turned(place.heading, at, dir, problem.task.penalty, ahead))
    }

    /// What is known to lie ahead of the place in the direction.
    pub fn ahead_towards(
        &self,
        problem: &Problem<'_>,
        lists: &LineLists,
        place: &Place,
        dir: Dir,
    ) -> Option<Ahead>
        requires ready { IsReady problem.now }
        requires lists { AreListsOf problem.now.arena.now lists.now }
        requires searching { IsSearching problem.now (number_of lists.now) self.now None None }
        requires stage { place.now.stage ≤ length problem.now.task.now.via }
        requires here { (at : PointOf) × StandsAt problem.now.arena.now place.now.crossing at }
        ensures { (at : PointOf) → StandsAt problem.now.arena.now place.now.crossing at → result ≡ known_towards problem.now (number_of lists.now) self.now place.now at dir }
    {
        let at = problem.arena.point(place.crossing);
        let line = lists.line_of(problem.arena.index(place.crossing), dir.way());
        self.ahead_by_line(problem, place, at, line, dir)
    }

    /// What is known to lie ahead of the place in all directions.
    fn ahead_onwards(
        &self,
        problem: &Problem<'_>,
        lists: &LineLists,
        place: &Place,
    ) -> Option<Ahead>
        requires ready { IsReady problem.now }
        requires lists { AreListsOf problem.now.arena.now lists.now }
        requires searching { IsSearching problem.now (number_of lists.now) self.now None None }
        requires stage { place.now.stage ≤ length problem.now.task.now.via }
        requires here { (at : PointOf) × StandsAt problem.now.arena.now place.now.crossing at }
        ensures { (at : PointOf) → StandsAt problem.now.arena.now place.now.crossing at → result ≡ known_onwards problem.now (number_of lists.now) self.now place.now at }
    {
        let at = problem.arena.point(place.crossing);
        let index = problem.arena.index(place.crossing);
        let row = lists.line_of(index, Way::Horizontal);
        let column = lists.line_of(index, Way::Vertical);
        let east = self.ahead_by_line(problem, place, at, row, Dir::East);
        let south = self.ahead_by_line(problem, place, at, column, Dir::South);
        let west = self.ahead_by_line(problem, place, at, row, Dir::West);
        let north = self.ahead_by_line(problem, place, at, column, Dir::North);
        lesser(lesser(lesser(east, south), west), north)
    }

    /// What is known to lie ahead of the place.
    pub fn ahead_of(&self, problem: &Problem<'_>, lists: &LineLists, place: &Place) -> Option<Ahead>
        requires ready { IsReady problem.now }
        requires lists { AreListsOf problem.now.arena.now lists.now }
        requires searching { IsSearching problem.now (number_of lists.now) self.now None None }
        requires stage { place.now.stage ≤ length problem.now.task.now.via }
        requires here { (at : PointOf) × StandsAt problem.now.arena.now place.now.crossing at }
        ensures { (at : PointOf) → StandsAt problem.now.arena.now place.now.crossing at → result ≡ known problem.now (number_of lists.now) self.now place.now at }
    {
        let mut least = self.ahead_onwards(problem, lists, place);
        if place.stage as usize != problem.task.via.as_slice().len() {
            return least;
        }
        for ending in &problem.endings {
            if ending.crossing == place.crossing {
                least = lesser(least, Some(ahead_by(problem, place, ending)));
            }
        }
        least
    }
}
