//! The arena: lines and crossings under ids, linked along their lines.
ghost use Rattle.std.specs.Prelude.{◌≡◌, ◌+◌, ◌-◌, ◌^◌, ◌<◌, ◌≤◌, ◌↔◌, ◌≤ℤ◌, ℕ, None, Some, Contains, IsNone, IsSome, IfSome, OnOk};
ghost use Rattle.std.specs.FinMap as map;
ghost use Rattle.plane_geom.specs.declared.floor.Line.{Line};
ghost use Rattle.line_arena.specs.Arena.{IsApart, IsArena, IsFirst, IsNearest, IsOn, LiesFurther, Meet, StandsAt};
ghost use Rattle.line_arena.specs.Count.{counted_by};
ghost use Rattle.line_arena.specs.Order.{AreOrderedWithIds};

use crate::entries::Entries;
use crate::id::{CrossId, LineId};
use crate::lists::Lists;
use crate::order::{column_through, find_near, put_in_order, take_out};
use plane_geom::{Dir, Line, Point};
use std::alloc::{AllocError, Global};
use std::marker::Model;

/// Vertical and horizontal lines and their crossings, each under its own id.
///
/// A crossing is a node of two doubly linked lists at once, that of its vertical and that of its
/// horizontal line, by rising coordinate. All lines are also kept in order, so a line is found by
/// its value, and a crossing by its point.
#[derive(Drop)]
pub struct LineArena {
    lists: Lists,
    // All lines with their ids, by way, `at` and `lo`.
    order: Vec<(Line, LineId)>,
    written: u64,
}

impl Model for LineArena {
    ghost use Rattle.line_arena.specs.Arena.{Arena, arena_code};

    ghost Value = { Arena };

    ghost coded = { arena_code };

    ghost use Rattle.std.specs.Prelude.{vec_len, vec_capacity};
    ghost use Rattle.line_arena.specs.Order.{IsOrderedArena};
    ghost use Rattle.line_arena.specs.View.{arena_of};

    ghost view = { λ a. arena_of a.lists a.written };

    ghost invariant = { λ a. IsOrderedArena a.lists a.order.items (vec_len a.order) (vec_capacity a.order) };
}

impl LineArena {
    /// An arena without lines. Takes no memory.
    pub fn new(alloc: Global) -> LineArena
        ensures arena { IsArena result }
        ensures places { result.places ≡ 0 }
        ensures lines { result.lines ≡ map.empty }
        ensures crossings { result.crossings ≡ map.empty }
        ensures spare_lines { result.spare_lines ≡ 0 }
        ensures spare_crossings { result.spare_crossings ≡ 0 }
        ensures written { result.written ≡ 0 }
    {
        LineArena {
            lists: Lists {
                lines: Entries::new(alloc),
                crossings: Entries::new(alloc),
            },
            order: Vec::new(alloc),
            written: 0,
        }
    }

    /// Gives proofs what holds for every arena. Does nothing.
    pub fn laws(&self)
        ensures arena { IsArena self.now }
        ensures written { self.now.written < 2 ^ 64 }
    {
        let _ = &self.lists;
        let _written = self.written;
    }

    /// Makes room for `lines` more lines and `crossings` more crossings, so that this many puts
    /// take no memory.
    ///
    /// Lines and crossings stay as they are, and no room is lost, even when out of memory, which is
    /// the only error. `places` may rise if there was not enough room for the crossings.
    pub fn reserve(&mut self, lines: usize, crossings: usize) -> Result<(), AllocError>
        ensures lines { self.new.lines ≡ self.old.lines }
        ensures crossings { self.new.crossings ≡ self.old.crossings }
        ensures written { self.new.written ≡ self.old.written }
        ensures spare_lines { self.old.spare_lines ≤ self.new.spare_lines }
        ensures spare_crossings { self.old.spare_crossings ≤ self.new.spare_crossings }
        ensures places { self.old.places ≤ self.new.places }
        ensures had_room { crossings ≤ self.old.spare_crossings → self.new.places ≡ self.old.places }
        ensures room_for_lines { OnOk result (lines ≤ self.new.spare_lines) }
        ensures room_for_crossings { OnOk result (crossings ≤ self.new.spare_crossings) }
    {
        self.order.reserve(lines)?;
        self.lists.lines.reserve(lines)?;
        self.lists.crossings.reserve(crossings)
    }

    /// Adds a line that shares no point with a line of its way at its coordinate. Takes no memory.
    ///
    /// There is a spare place for a line, and `lo` is at most `hi`. `written` rises by one, and
    /// stops at 2^64 - 1.
    pub fn put_line(&mut self, line: Line) -> LineId
        requires spare { 0 < self.old.spare_lines }
        requires ordered { line.lo ≤ℤ line.hi }
        requires apart { IsApart self.old line }
        ensures new_id { map.get self.old.lines result ≡ None }
        ensures after { self.new ≡ record self.old {
          lines = map.insert self.old.lines result line;
          spare_lines = self.old.spare_lines - 1;
          written = counted_by 1 self.old.written;
        } }
        ensures arena { IsArena self.new }
    {
        self.written = self.written.saturating_add(1);
        let id = self.lists.put_line(line);
        put_in_order(&mut self.order, line, id);
        id
    }

    /// Adds the crossing of a vertical and a horizontal line that meet. Takes no memory.
    ///
    /// There is a spare place for a crossing, and these two lines have none yet. Takes constant
    /// time if the crossing goes first or last on each of its lines. `written` rises by one, and
    /// stops at 2^64 - 1.
    pub fn put_crossing(&mut self, vertical: LineId, horizontal: LineId) -> CrossId
        requires spare { 0 < self.old.spare_crossings }
        requires meet { Meet self.old vertical horizontal }
        requires new_pair { (c : ℕ) → map.get self.old.crossings c ≡ Some (record { vertical = vertical; horizontal = horizontal }) → ⊥ }
        ensures new_id { map.get self.old.crossings result ≡ None }
        ensures after { self.new ≡ record self.old {
          crossings = map.insert self.old.crossings result (record { vertical = vertical; horizontal = horizontal });
          spare_crossings = self.old.spare_crossings - 1;
          written = counted_by 1 self.old.written;
        } }
        ensures arena { IsArena self.new }
    {
        self.written = self.written.saturating_add(1);
        self.lists.put_crossing(vertical, horizontal)
    }

    /// Removes a crossing that is there. Takes no memory.
    pub fn remove_crossing(&mut self, crossing: CrossId)
        requires live { IsSome (map.get self.old.crossings crossing) }
        ensures after { self.new ≡ record self.old {
          crossings = map.remove self.old.crossings crossing;
          spare_crossings = self.old.spare_crossings + 1;
        } }
    {
        self.lists.remove_crossing(crossing);
    }

    /// Removes a line that is there and has no crossings. Takes no memory.
    pub fn remove_line(&mut self, line: LineId)
        requires live { IsSome (map.get self.old.lines line) }
        requires no_crossings { (c : ℕ) → IsOn self.old line c → ⊥ }
        ensures after { self.new ≡ record self.old {
          lines = map.remove self.old.lines line;
          spare_lines = self.old.spare_lines + 1;
        } }
    {
        let (value, _) = *self.lists.lines.get(line.place());
        self.lists.remove_line(line);
        take_out(&mut self.order, &value);
    }

    /// All lines with their ids, by way, `at` and `lo`. Takes constant time.
    pub fn lines_in_order(&self) -> &[(Line, LineId)]
        ensures ordered { AreOrderedWithIds result.now }
        ensures listed { (line : Line) (id : ℕ) → Contains result.now (line, id) ↔ (map.get self.now.lines id ≡ Some line) }
    {
        self.order.as_slice()
    }

    /// The id of the line, in logarithmic time. `None` if the line is not there.
    pub fn line_at(&self, line: Line) -> Option<LineId>
        ensures found { IfSome result (λ l. map.get self.now.lines l ≡ Some line) }
        ensures absent { IsNone result ↔ ((l : ℕ) → map.get self.now.lines l ≡ Some line → ⊥) }
        ensures arena { IsArena self.now }
    {
        let (id, _) = self.line_near(line, 0)?;
        Some(id)
    }

    /// The id of the line, and its place among all lines in the order of `Line::stands_before`.
    /// `None` if the line is not there.
    ///
    /// Looks at the given place first, and finds the line there in constant time, elsewhere in
    /// logarithmic time. Places change as lines are put in and removed, and are only for speed:
    /// which one is given changes nothing else, and no clause says which one is returned.
    pub fn line_near(&self, line: Line, place: usize) -> Option<(LineId, usize)>
        ensures found { IfSome result (λ found. map.get self.now.lines found.0 ≡ Some line) }
        ensures absent { IsNone result ↔ ((l : ℕ) → map.get self.now.lines l ≡ Some line → ⊥) }
        ensures arena { IsArena self.now }
    {
        find_near(self.order.as_slice(), &line, place)
    }

    /// The crossing with the smallest coordinate on the line, which is there. `None` if it has no
    /// crossing.
    pub fn first_on_line(&self, line: LineId) -> Option<CrossId>
        requires live { IsSome (map.get self.now.lines line) }
        ensures first { IfSome result (λ c. IsFirst self.now line c) }
        ensures absent { IsNone result ↔ ((c : ℕ) → IsOn self.now line c → ⊥) }
        ensures arena { IsArena self.now }
    {
        self.lists.lines.get(line.place()).1.first.crossing()
    }

    /// The crossing at the point. `None` where there is no crossing.
    ///
    /// Finds the vertical line in logarithmic time, and walks along it from its nearer end.
    pub fn crossing_at(&self, at: Point) -> Option<CrossId>
        ensures found { IfSome result (λ c. StandsAt self.now c at) }
        ensures absent { IsNone result ↔ ((c : ℕ) → StandsAt self.now c at → ⊥) }
        ensures arena { IsArena self.now }
    {
        let line = column_through(self.order.as_slice(), at)?;
        self.lists.crossing_on(line, at)
    }

    /// The number in the id of a crossing that is there; it is less than `places`.
    pub fn index(&self, crossing: CrossId) -> usize
        requires live { IsSome (map.get self.now.crossings crossing) }
        ensures number { result ≡ crossing }
        ensures within { result < self.now.places }
    {
        self.lists.crossings.index(crossing.place())
    }

    /// A number that is greater than the number of each crossing. Only `reserve` changes it, and it
    /// never falls.
    pub fn places(&self) -> usize
        ensures { result ≡ self.now.places }
    {
        self.lists.crossings.places()
    }

    /// The nearest crossing further on in the direction, on the line along which the direction
    /// leads. Reads one link.
    ///
    /// The crossing is there. `None` if there is none further on.
    pub fn next_on_line(&self, crossing: CrossId, dir: Dir) -> Option<CrossId>
        requires live { IsSome (map.get self.now.crossings crossing) }
        ensures nearest { IfSome result (λ c. IsNearest self.now dir crossing c) }
        ensures absent { IsNone result ↔ ((c : ℕ) → LiesFurther self.now dir crossing c → ⊥) }
        ensures arena { IsArena self.now }
    {
        self.lists
            .crossings
            .get(crossing.place())
            .1
            .next(dir)
            .crossing()
    }

    /// The point of the crossing, which is there. In thousandths.
    pub fn point(&self, crossing: CrossId) -> Point
        requires live { IsSome (map.get self.now.crossings crossing) }
        ensures { StandsAt self.now crossing result }
    {
        self.lists.crossings.get(crossing.place()).0
    }

    /// The number of lines and crossings put in so far, and 2^64 - 1 once it would be more.
    pub fn written(&self) -> u64
        ensures { result ≡ self.now.written }
    {
        self.written
    }
}
