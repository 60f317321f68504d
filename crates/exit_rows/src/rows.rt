//! The exits that lines keep.
ghost use Rattle.std.specs.Prelude.{◌≡◌, ◌*◌, ◌<◌, ◌≤◌, ◌≤ℤ◌, ◌<ℤ◌, ◌↔◌, ℤ, All, Contains, IsTrue, OnErr, OnOk, length};
ghost use Rattle.exit_rows.specs.Exits.{IsLate, IsSmallKept, IsUndercut, least_at, lesser, stop_of};
ghost use Rattle.exit_rows.specs.Rows.{HasRow, IsClear, IsMarked, Keeps, SameKept, SameRooms, kept_in, row_of, side};
ghost use Rattle.plane_geom.specs.Point.{IsCoordinate};

use crate::exit::Kept;
use move_model::Ahead;
use plane_geom::Dir;
use std::alloc::{AllocError, Global};

/// The lesser of what is ahead by the two, if either counts.
pub fn lesser(least: Option<Ahead>, next: Option<Ahead>) -> Option<Ahead>
    ensures { result ≡ lesser least next }
{
    match (least, next) {
        (None, next) => next,
        (Some(least), None) => Some(least),
        (Some(least), Some(next)) => Some(if next < least { next } else { least }),
    }
}

/// The least that is ahead of the point at that reach, by those of the exits that count there.
fn least_at(row: &[Kept], reach: i64) -> Option<Ahead>
    requires small { All IsSmallKept row.now }
    requires reach { IsCoordinate reach }
    ensures { result ≡ least_at row.now reach }
{
    let mut least = None;
    for kept in row {
        least = lesser(least, kept.counted_at(reach));
    }
    least
}

/// Whether one of the exits stands for this one.
fn is_late(row: &[Kept], kept: &Kept) -> bool
    requires small { All IsSmallKept row.now }
    requires kept { IsSmallKept kept.now }
    ensures { IsTrue result ↔ IsLate row.now kept.now }
{
    for other in row {
        if other.stands_for(kept) {
            return true;
        }
    }
    false
}

/// How far on the exit is undercut by nearer ones of these.
fn stop_of(row: &[Kept], kept: &Kept) -> i64
    requires small { All IsSmallKept row.now }
    requires kept { IsSmallKept kept.now }
    ensures { result ≡ stop_of row.now kept.now }
{
    let mut stop = kept.from;
    for other in row {
        if other.undercuts(kept) {
            stop = stop.max(other.at);
        }
    }
    stop
}

/// The exits that lines keep. Between two searches there are none.
#[derive(Drop)]
pub struct Rows {
    /// A number that is greater than the number of each line.
    pub lines: usize,
    /// The row of a line in a stage is at `(stage * lines + number of the line) * 2`, and one
    /// further for the headings East and South.
    pub rows: Vec<Vec<Kept>>,
    /// The indexes of the rows that may have exits.
    pub marked: Vec<usize>,
}

/// The number of the heading among the two of its line.
fn side(heading: Dir) -> usize
    ensures { result ≡ side heading }
{
    match heading {
        Dir::East | Dir::South => 1,
        Dir::West | Dir::North => 0,
    }
}

impl Rows {
    /// No rows. Takes no memory.
    pub fn new(alloc: Global) -> Rows
        ensures { IsClear result }
    {
        Rows {
            lines: 0,
            rows: Vec::new(alloc),
            marked: Vec::new(alloc),
        }
    }

    /// Adds empty rows up to this number of rows. The only error is out of memory.
    fn grow(&mut self, alloc: Global, wanted: usize) -> Result<(), AllocError>
        requires { IsClear self.old }
        ensures clear { IsClear self.new }
        ensures rows { OnOk result (wanted ≤ length self.new.rows.items) }
    {
        while self.rows.len() < wanted {
            self.rows.push(Vec::new(alloc))?;
        }
        Ok(())
    }

    /// Makes room for `lines` lines in `stages` stages. No line keeps an exit. The only error is out
    /// of memory.
    pub fn fit(&mut self, alloc: Global, lines: usize, stages: usize) -> Result<(), AllocError>
        requires { IsClear self.old }
        ensures clear { IsClear self.new }
        ensures lines { OnOk result (self.new.lines ≡ lines) }
        ensures rows { OnOk result (stages * lines * 2 ≤ length self.new.rows.items) }
    {
        let Some(pairs) = stages.checked_mul(lines) else {
            return Err(AllocError);
        };
        let Some(wanted) = pairs.checked_mul(2) else {
            return Err(AllocError);
        };
        self.grow(alloc, wanted)?;
        self.lines = lines;
        Ok(())
    }

    /// The index of the row of the line in the stage, for the heading.
    fn row(&self, stage: u32, line: usize, heading: Dir) -> usize
        requires room { HasRow self.now stage line }
        ensures exact { result ≡ row_of self.now stage line heading }
        ensures within { result < length self.now.rows.items }
    {
        (stage as usize * self.lines + line) * 2 + side(heading)
    }

    /// The least that is ahead in the stage of the point of the line at that reach in the heading,
    /// by the exits that the line keeps.
    pub fn ahead_along(&self, stage: u32, line: usize, heading: Dir, reach: i64) -> Option<Ahead>
        requires room { HasRow self.now stage line }
        requires small { All IsSmallKept (kept_in self.now stage line heading) }
        requires reach { IsCoordinate reach }
        ensures { result ≡ least_at (kept_in self.now stage line heading) reach }
    {
        let at = self.row(stage, line, heading);
        least_at(&self.rows[at], reach)
    }

    /// Whether an exit that the line keeps stands for this one.
    pub fn is_late(&self, stage: u32, line: usize, heading: Dir, kept: &Kept) -> bool
        requires room { HasRow self.now stage line }
        requires small { All IsSmallKept (kept_in self.now stage line heading) }
        requires kept { IsSmallKept kept.now }
        ensures { IsTrue result ↔ IsLate (kept_in self.now stage line heading) kept.now }
    {
        let at = self.row(stage, line, heading);
        is_late(&self.rows[at], kept)
    }

    /// How far on the exit is undercut by nearer ones that the line keeps: from there on it is to be
    /// propagated.
    pub fn stop(&self, stage: u32, line: usize, heading: Dir, kept: &Kept) -> i64
        requires room { HasRow self.now stage line }
        requires small { All IsSmallKept (kept_in self.now stage line heading) }
        requires kept { IsSmallKept kept.now }
        ensures exact { result ≡ stop_of (kept_in self.now stage line heading) kept.now }
        ensures from { kept.now.from ≤ℤ result }
        ensures undercut { (z : ℤ) → kept.now.from ≤ℤ z → z <ℤ result → IsUndercut (kept_in self.now stage line heading) kept.now z }
    {
        let at = self.row(stage, line, heading);
        stop_of(&self.rows[at], kept)
    }

    /// Marks the row at the index, if it has no exit yet. The only error is out of memory, which
    /// leaves all as it was.
    fn mark(&mut self, at: usize) -> Result<(), AllocError>
        requires at { at < length self.old.rows.items }
        requires marked { IsMarked self.old }
        ensures lines { self.new.lines ≡ self.old.lines }
        ensures rows { self.new.rows.items ≡ self.old.rows.items }
        ensures marked { IsMarked self.new }
        ensures ok { OnOk result (Contains self.new.marked.items at) }
    {
        if !self.rows[at].is_empty() {
            return Ok(());
        }
        self.marked.push(at)?;
        Ok(())
    }

    /// Keeps the exit in the row of the line in the stage, for the heading. The only error is out of
    /// memory, which leaves what is kept as it was.
    pub fn keep(
        &mut self,
        stage: u32,
        line: usize,
        heading: Dir,
        kept: Kept,
    ) -> Result<(), AllocError>
        requires room { HasRow self.old stage line }
        requires marked { IsMarked self.old }
        ensures marked { IsMarked self.new }
        ensures ok { OnOk result (Keeps self.old self.new stage line heading kept) }
        ensures err { OnErr result (SameKept self.old self.new) }
    {
        let at = self.row(stage, line, heading);
        self.mark(at)?;
        self.rows[at].push(kept)?;
        Ok(())
    }

    /// Removes all exits, in the time that it took to keep them. The rows keep their memory.
    pub fn clear(&mut self)
        requires { IsMarked self.old }
        ensures clear { IsClear self.new }
        ensures rooms { SameRooms self.old self.new }
    {
        for i in 0..self.marked.len() {
            let at = self.marked[i];
            self.rows[at].clear();
        }
        self.marked.clear();
    }
}
