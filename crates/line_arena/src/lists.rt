//! Lines and crossings, each crossing in the lists of its two lines.
ghost use Rattle.std.specs.Prelude.{◌≡◌, ◌≢◌, ◌+◌, ◌-◌, ◌<◌, ◌≤◌, ◌↔◌, ℕ, ◌≤ℤ◌, Some, None, IsTrue, IfSome};
ghost use Rattle.std.specs.Option.{ForSome};
ghost use Rattle.slab.specs.Slab.{slab_len};
ghost use Rattle.plane_geom.specs.Point.{opposite};
ghost use Rattle.plane_geom.specs.declared.point.Dir.{Dir};
ghost use Rattle.plane_geom.specs.declared.point.Dir.TheVariants.{South};
ghost use Rattle.plane_geom.specs.Along.{IsFurther, reach};
ghost use Rattle.line_arena.specs.Entries.{entry_at};
ghost use Rattle.line_arena.specs.Node.{line_of, next_of};

use crate::entries::Entries;
use crate::id::{CrossId, LineId, Link};
use crate::node::{Ends, Node};
use plane_geom::{Dir, Line, Point};

#[derive(Drop)]
pub struct Lists {
    pub lines: Entries<Line, Ends>,
    pub crossings: Entries<Point, Node>,
}

/// Whether the point `to` is further in the direction than `from`.
fn is_further(dir: Dir, from: Point, to: Point) -> bool
    ensures { IsTrue result ↔ IsFurther dir from to }
{
    match dir {
        Dir::East => from.x < to.x,
        Dir::South => from.y < to.y,
        Dir::West => to.x < from.x,
        Dir::North => to.y < from.y,
    }
}

/// Whether the two points are equal.
fn is_same(at: Point, point: Point) -> bool
    ensures { IsTrue result ↔ (at ≡ point) }
{
    at == point
}

/// The distance of the points along the lines of the direction.
fn distance_along(dir: Dir, a: Point, b: Point) -> u64 {
    match dir {
        Dir::East | Dir::West => a.x.abs_diff(b.x),
        Dir::South | Dir::North => a.y.abs_diff(b.y),
    }
}

impl Lists {
    ghost use Rattle.line_arena.specs.Lists.{AreLinked, AreLists, IsFirstFrom, IsNext, KnowsNeighbours, AreMet, IsApart, IsPut, IsShortOf, IsSpot, Relinks, RunsAlong, SameDirection, SameLinks, SamePlaces, Spot, Stands, UpdatesAt, line_along, line_at, link, spot_at, without};

    /// The crossing after `from` in the line's list in the direction; after none it is the
    /// beginning of the list.
    fn next(&self, line: LineId, from: Link, dir: Dir) -> Link
        requires line { entry_at self.now.lines line ≢ None }
        requires from { ForSome from (λ c. entry_at self.now.crossings c ≢ None) }
        ensures { result ≡ link self.now line from dir }
    {
        match from.crossing() {
            None => self.lines.get(line.place()).1.start(dir),
            Some(crossing) => self.crossings.get(crossing.place()).1.next(dir),
        }
    }

    /// Makes `to` the crossing after `from` in the line's list in the direction.
    fn set_next(&mut self, line: LineId, from: Link, dir: Dir, to: Link)
        requires runs { RunsAlong self.old line dir }
        requires from { ForSome from (λ c. entry_at self.old.crossings c ≢ None) }
        ensures { Relinks self.old self.new line from dir to }
    {
        match from.crossing() {
            None => {
                let (_, ends) = *self.lines.get(line.place());
                self.lines.set(line.place(), ends.with_start(dir, to));
            }
            Some(crossing) => {
                let (_, node) = *self.crossings.get(crossing.place());
                self.crossings
                    .set(crossing.place(), node.with_next(dir, to));
            }
        }
    }

    /// Whether the point is beyond the crossing in the direction; true where there is no crossing.
    fn is_beyond(&self, crossing: Link, dir: Dir, point: Point) -> bool
        requires { ForSome crossing (λ c. entry_at self.now.crossings c ≢ None) }
        ensures { IsTrue result → ForSome crossing (λ c. (s : Spot) → spot_at self.now c ≡ Some s → IsFurther dir s.point point) }
    {
        match crossing.crossing() {
            None => true,
            Some(crossing) => is_further(dir, self.crossings.get(crossing.place()).0, point),
        }
    }

    /// The first crossing of the line in the direction that is not before the point.
    ///
    /// Walks on from a crossing of the line before the point, or from the beginning of the list.
    fn first_from(&self, line: LineId, from: Link, dir: Dir, point: Point) -> Link
        requires lists { AreLists self.now }
        requires runs { RunsAlong self.now line dir }
        requires before { ForSome from (λ c. IsShortOf (spot_at self.now) line dir point c) }
        ensures { IsFirstFrom (Stands (spot_at self.now) line dir) (reach dir point) result }
    {
        let mut next = self.next(line, from, dir);
        while let Some(crossing) = next.crossing() {
            let (at, node) = self.crossings.get(crossing.place());
            if !is_further(dir, *at, point) {
                return next;
            }
            next = node.next(dir);
        }
        Link::none()
    }

    /// Whether the beginning of the line's list in the direction is nearer to the point than its
    /// end.
    fn starts_nearer(&self, line: LineId, dir: Dir, point: Point) -> bool
        requires lists { AreLists self.now }
        requires runs { RunsAlong self.now line dir }
    {
        let start = self.next(line, Link::none(), dir).crossing();
        let stop = self.next(line, Link::none(), dir.opposite()).crossing();
        let (Some(start), Some(stop)) = (start, stop) else {
            return true;
        };
        let (stop, _) = self.crossings.get(stop.place());
        let (start, _) = self.crossings.get(start.place());
        distance_along(dir, *start, point) < distance_along(dir, *stop, point)
    }

    /// The direction along the line, the given one or its opposite, in which the beginning of the
    /// list is nearer to the point.
    fn nearer_start(&self, line: LineId, dir: Dir, point: Point) -> Dir
        requires lists { AreLists self.now }
        requires runs { RunsAlong self.now line dir }
        ensures { RunsAlong self.now line result }
    {
        if self.starts_nearer(line, dir, point) {
            dir
        } else {
            dir.opposite()
        }
    }

    /// A crossing of the line before the point in the direction, and mostly near to it, if one is
    /// found.
    ///
    /// Only for speed, so no clause says which: from a crossing beside the point, on the other
    /// line, it is a step back and then a step towards the line, if the steps lead there.
    fn near(&self, line: LineId, dir: Dir, point: Point, beside: Link) -> Link
        requires beside { ForSome beside (λ c. entry_at self.now.crossings c ≢ None) }
        requires lists { AreLists self.now }
        ensures { ForSome result (λ c. IsShortOf (spot_at self.now) line dir point c) }
    {
        // On an eastward line, the crossing beside the point is north of it; on a southward line,
        // it is west of it.
        let towards = match dir {
            Dir::East | Dir::West => Dir::South,
            Dir::South | Dir::North => Dir::East,
        };
        let back = self.step(beside, dir.opposite());
        let near = self.step(back, towards);
        if self.is_before(near, line, dir, point) {
            near
        } else {
            Link::none()
        }
    }

    /// The crossing after `from` in the direction. After none there is none.
    fn step(&self, from: Link, dir: Dir) -> Link
        requires lists { AreLists self.now }
        requires from { ForSome from (λ c. entry_at self.now.crossings c ≢ None) }
        ensures { ForSome result (λ c. entry_at self.now.crossings c ≢ None) }
    {
        match from.crossing() {
            None => from,
            Some(crossing) => self.crossings.get(crossing.place()).1.next(dir),
        }
    }

    /// Whether this is a crossing of the line that comes before the point in the direction.
    fn is_before(&self, crossing: Link, line: LineId, dir: Dir, point: Point) -> bool
        requires { ForSome crossing (λ c. entry_at self.now.crossings c ≢ None) }
        ensures { IsTrue result → ForSome crossing (λ c. IsShortOf (spot_at self.now) line dir point c) }
    {
        let Some(crossing) = crossing.crossing() else {
            return false;
        };
        let (at, node) = self.crossings.get(crossing.place());
        node.line(dir) == line && is_further(dir, *at, point)
    }

    /// The two crossings of the line around the point: the nearest one back, and the nearest one on
    /// in the direction.
    ///
    /// If the point is not beyond all of them, the walk to its place begins near to it, if the
    /// crossing beside it on the other line leads there, and otherwise at the nearer end of the
    /// line.
    fn neighbours(&self, line: LineId, dir: Dir, point: Point, beside: Link) -> (Link, Link)
        requires lists { AreLists self.now }
        requires runs { RunsAlong self.now line dir }
        requires free { (c : ℕ) → Stands (spot_at self.now) line dir c (reach dir point) → ⊥ }
        requires beside { ForSome beside (λ c. entry_at self.now.crossings c ≢ None) }
        ensures back { IsNext (Stands (spot_at self.now) line (opposite dir)) (Some (reach (opposite dir) point)) result.0 }
        ensures on { IsNext (Stands (spot_at self.now) line dir) (Some (reach dir point)) result.1 }
    {
        let last = self.next(line, Link::none(), dir.opposite());
        if self.is_beyond(last, dir, point) {
            return (last, Link::none());
        }
        let near = self.near(line, dir, point, beside);
        if near.crossing().is_some() || self.starts_nearer(line, dir, point) {
            let on = self.first_from(line, near, dir, point);
            let back = self.next(line, on, dir.opposite());
            (back, on)
        } else {
            let back = self.first_from(line, Link::none(), dir.opposite(), point);
            let on = self.next(line, back, dir);
            (back, on)
        }
    }

    /// The crossing of the vertical line at the point.
    ///
    /// The walk begins at the nearer end of the line.
    pub fn crossing_on(&self, line: LineId, point: Point) -> Option<CrossId>
        requires lists { AreLists self.now }
        requires runs { RunsAlong self.now line South }
        ensures found { IfSome result (λ c. (s : Spot) × (spot_at self.now c ≡ Some s) × (s.point ≡ point)) }
        ensures only { (c : ℕ) (s : Spot) → spot_at self.now c ≡ Some s → s.vertical ≡ line → s.point ≡ point → result ≡ Some c }
    {
        let dir = self.nearer_start(line, Dir::South, point);
        let crossing = self.first_from(line, Link::none(), dir, point).crossing()?;
        let (at, _) = *self.crossings.get(crossing.place());
        if is_same(at, point) {
            Some(crossing)
        } else {
            None
        }
    }

    /// Puts the crossing, which knows its neighbours, into the list of its line in the direction,
    /// after `before`.
    fn link_in(&mut self, crossing: CrossId, dir: Dir, line: LineId, before: Link)
        requires knows { KnowsNeighbours self.old crossing }
        requires others { AreLinked self.old (without crossing (spot_at self.old)) dir }
        requires line { (s : Spot) → spot_at self.old crossing ≡ Some s → line ≡ line_along dir s }
        requires before { before ≡ link self.old line (Some crossing) (opposite dir) }
        ensures places { SamePlaces self.old self.new }
        ensures linked { AreLinked self.new (spot_at self.new) dir }
        ensures own { SameLinks self.old self.new crossing }
        ensures other_directions { (d : Dir) → d ≢ dir → SameDirection self.old self.new d }
    {
        self.set_next(line, before, dir, Link::to(crossing));
    }

    /// Removes the crossing from the list of its line in the direction, and joins its neighbours.
    fn unlink_in(&mut self, crossing: CrossId, dir: Dir)
        requires knows { KnowsNeighbours self.old crossing }
        requires linked { AreLinked self.old (spot_at self.old) dir }
        ensures places { SamePlaces self.old self.new }
        ensures others { AreLinked self.new (without crossing (spot_at self.new)) dir }
        ensures own { SameLinks self.old self.new crossing }
        ensures other_directions { (d : Dir) → d ≢ dir → SameDirection self.old self.new d }
    {
        let (_, node) = *self.crossings.get(crossing.place());
        let before = node.next(dir.opposite());
        self.set_next(node.line(dir), before, dir, node.next(dir));
    }

    /// Puts the crossing, which has the node and knows its neighbours, into the lists of its lines.
    fn link_all(&mut self, crossing: CrossId, node: &Node)
        requires node { (p : Point) × (entry_at self.old.crossings crossing ≡ Some (p, node.now)) }
        requires knows { KnowsNeighbours self.old crossing }
        requires others { (d : Dir) → AreLinked self.old (without crossing (spot_at self.old)) d }
        ensures places { SamePlaces self.old self.new }
        ensures linked { (d : Dir) → AreLinked self.new (spot_at self.new) d }
    {
        self.link_in(crossing, Dir::East, node.horizontal, node.west);
        self.link_in(crossing, Dir::South, node.vertical, node.north);
        self.link_in(crossing, Dir::West, node.horizontal, node.east);
        self.link_in(crossing, Dir::North, node.vertical, node.south);
    }

    /// Removes the crossing from the lists of its lines.
    fn unlink_all(&mut self, crossing: CrossId)
        requires knows { KnowsNeighbours self.old crossing }
        requires linked { (d : Dir) → AreLinked self.old (spot_at self.old) d }
        ensures places { SamePlaces self.old self.new }
        ensures others { (d : Dir) → AreLinked self.new (without crossing (spot_at self.new)) d }
    {
        self.unlink_in(crossing, Dir::East);
        self.unlink_in(crossing, Dir::South);
        self.unlink_in(crossing, Dir::West);
        self.unlink_in(crossing, Dir::North);
    }

    /// Adds a line without crossings.
    pub fn put_line(&mut self, line: Line) -> LineId
        requires lists { AreLists self.old }
        requires room { slab_len self.old.lines.slab < self.old.lines.room }
        requires ordered { line.lo ≤ℤ line.hi }
        requires apart { IsApart (line_at self.old) line }
        ensures lists { AreLists self.new }
        ensures new_id { line_at self.old result ≡ None }
        ensures put { UpdatesAt (line_at self.old) (line_at self.new) result (Some line) }
        ensures crossings { self.new.crossings ≡ self.old.crossings }
        ensures count { slab_len self.new.lines.slab ≡ slab_len self.old.lines.slab + 1 }
        ensures room { self.new.lines.room ≡ self.old.lines.room }
    {
        let ends = Ends {
            first: Link::none(),
            last: Link::none(),
        };
        LineId::new(self.lines.insert(line, ends))
    }

    /// Removes a line without crossings.
    pub fn remove_line(&mut self, line: LineId)
        requires lists { AreLists self.old }
        requires live { line_at self.old line ≢ None }
        requires empty { (c : ℕ) (s : Spot) → spot_at self.old c ≡ Some s → (s.vertical ≢ line) × (s.horizontal ≢ line) }
        ensures lists { AreLists self.new }
        ensures removed { UpdatesAt (line_at self.old) (line_at self.new) line None }
        ensures crossings { self.new.crossings ≡ self.old.crossings }
        ensures count { slab_len self.new.lines.slab + 1 ≡ slab_len self.old.lines.slab }
        ensures fits { slab_len self.old.lines.slab ≤ self.old.lines.room }
        ensures room { self.new.lines.room ≡ self.old.lines.room }
    {
        self.lines.remove(line.place());
    }

    /// The point where the lines meet.
    fn meeting_point(&self, vertical: LineId, horizontal: LineId) -> Point
        requires meet { AreMet (line_at self.now) vertical horizontal }
        ensures { IsSpot (line_at self.now) (record { point = result; vertical = vertical; horizontal = horizontal }) }
    {
        Point {
            x: self.lines.get(vertical.place()).0.at,
            y: self.lines.get(horizontal.place()).0.at,
        }
    }

    /// The node of a new crossing of the lines, which meet at the point: its lines, and its
    /// neighbours on both.
    ///
    /// If it does not go last on both, the walk along the vertical line may begin beside the
    /// horizontal one's last crossing, and that along the horizontal one beside the crossing just
    /// found to the north.
    fn node_at(&self, vertical: LineId, horizontal: LineId, point: Point) -> Node
        requires lists { AreLists self.now }
        requires spot { IsSpot (line_at self.now) (record { point = point; vertical = vertical; horizontal = horizontal }) }
        requires free { (d : Dir) (c : ℕ) → Stands (spot_at self.now) (line_along d (record { point = point; vertical = vertical; horizontal = horizontal })) d c (reach d point) → ⊥ }
        ensures vertical { result.vertical ≡ vertical }
        ensures horizontal { result.horizontal ≡ horizontal }
        ensures next { (d : Dir) → IsNext (Stands (spot_at self.now) (line_of d result) d) (Some (reach d point)) (next_of d result) }
    {
        let north = self.next(vertical, Link::none(), Dir::North);
        let west = self.next(horizontal, Link::none(), Dir::West);
        if self.is_beyond(north, Dir::South, point) && self.is_beyond(west, Dir::East, point) {
            // A crossing that goes last on both lines, as each does while a graph is built, reads
            // nothing more of them.
            return Node {
                vertical,
                horizontal,
                east: Link::none(),
                south: Link::none(),
                west,
                north,
            };
        }
        let (north, south) = self.neighbours(vertical, Dir::South, point, west);
        let (west, east) = self.neighbours(horizontal, Dir::East, point, north);
        Node {
            vertical,
            horizontal,
            east,
            south,
            west,
            north,
        }
    }

    /// Adds the crossing of the lines.
    pub fn put_crossing(&mut self, vertical: LineId, horizontal: LineId) -> CrossId
        requires lists { AreLists self.old }
        requires room { slab_len self.old.crossings.slab < self.old.crossings.room }
        requires meet { AreMet (line_at self.old) vertical horizontal }
        requires new_pair { (c : ℕ) (s : Spot) → spot_at self.old c ≡ Some s → s.vertical ≡ vertical → s.horizontal ≡ horizontal → ⊥ }
        ensures lists { AreLists self.new }
        ensures new_id { spot_at self.old result ≡ None }
        ensures put { IsPut (spot_at self.old) (spot_at self.new) result vertical horizontal }
        ensures lines { (l : ℕ) → line_at self.new l ≡ line_at self.old l }
        ensures line_count { slab_len self.new.lines.slab ≡ slab_len self.old.lines.slab }
        ensures line_room { self.new.lines.room ≡ self.old.lines.room }
        ensures count { slab_len self.new.crossings.slab ≡ slab_len self.old.crossings.slab + 1 }
        ensures room { self.new.crossings.room ≡ self.old.crossings.room }
        ensures places { self.new.crossings.slab.capacity ≡ self.old.crossings.slab.capacity }
    {
        let point = self.meeting_point(vertical, horizontal);
        let node = self.node_at(vertical, horizontal, point);
        let crossing = CrossId::new(self.crossings.insert(point, node));
        self.link_all(crossing, &node);
        crossing
    }

    /// Removes a crossing, and joins its neighbours.
    pub fn remove_crossing(&mut self, crossing: CrossId)
        requires lists { AreLists self.old }
        requires live { spot_at self.old crossing ≢ None }
        ensures lists { AreLists self.new }
        ensures removed { UpdatesAt (spot_at self.old) (spot_at self.new) crossing None }
        ensures lines { (l : ℕ) → line_at self.new l ≡ line_at self.old l }
        ensures line_count { slab_len self.new.lines.slab ≡ slab_len self.old.lines.slab }
        ensures line_room { self.new.lines.room ≡ self.old.lines.room }
        ensures count { slab_len self.new.crossings.slab + 1 ≡ slab_len self.old.crossings.slab }
        ensures fits { slab_len self.old.crossings.slab ≤ self.old.crossings.room }
        ensures room { self.new.crossings.room ≡ self.old.crossings.room }
        ensures places { self.new.crossings.slab.capacity ≡ self.old.crossings.slab.capacity }
    {
        self.unlink_all(crossing);
        self.crossings.remove(crossing.place());
    }
}
