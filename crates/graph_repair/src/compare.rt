//! What two lists of lines have in common, and what is only in one of them.
ghost use Rattle.std.specs.Prelude.{◌≡◌, ◌++◌, not, IfOk, OnOk, filter};
ghost use Rattle.plane_geom.specs.Order.{AreOrdered};
ghost use Rattle.graph_repair.specs.Listed.{goes, is_listed, lines_of, stays};

use line_arena::LineId;
use plane_geom::{Line, Rect};
use std::alloc::{AllocError, Global};
use sweep_lines::is_near;

/// The lines of two lists, an old one and a new one.
#[derive(Drop)]
pub struct Difference {
    // The lines that stay, those of the old list alone, and those of the new list alone, each in
    // the order of its list.
    pub stay: Vec<Line>,
    pub here: Vec<Line>,
    pub there: Vec<Line>,
}

impl Difference {
    ghost use Rattle.std.specs.Prelude.{[], ◌∷◌};
    ghost use Rattle.sweep_lines.specs.Kept.{is_near};

    /// Appends an old line that is not in the new list: to `here` where it is near the rectangle,
    /// and otherwise to those that stay.
    fn part_line(&mut self, hull: &Rect, line: Line) -> Result<(), AllocError>
        ensures stay { OnOk result (self.new.stay.items ≡ self.old.stay.items ++ filter (λ l. not (is_near hull.now l)) (line ∷ [])) }
        ensures here { OnOk result (self.new.here.items ≡ self.old.here.items ++ filter (is_near hull.now) (line ∷ [])) }
        ensures there { OnOk result (self.new.there.items ≡ self.old.there.items) }
    {
        if is_near(hull, &line) {
            self.here.push(line)?;
        } else {
            self.stay.push(line)?;
        }
        Ok(())
    }

    /// Appends the lines of the pairs in the same way; none is in the new list.
    fn part_lines(&mut self, hull: &Rect, pairs: &[(Line, LineId)]) -> Result<(), AllocError>
        ensures stay { OnOk result (self.new.stay.items ≡ self.old.stay.items ++ filter (λ l. not (is_near hull.now l)) (lines_of pairs.now)) }
        ensures here { OnOk result (self.new.here.items ≡ self.old.here.items ++ filter (is_near hull.now) (lines_of pairs.now)) }
        ensures there { OnOk result (self.new.there.items ≡ self.old.there.items) }
    {
        for (line, _) in pairs {
            self.part_line(hull, *line)?;
        }
        Ok(())
    }
}

/// Compares the lines of two lists in one pass over both, since both are in order.
///
/// The new list has only the lines near the rectangle, so old lines that are not near it stay.
/// Lines that begin at the same point and end at different ones are different. The only error is
/// out of memory.
pub fn compare(
    alloc: Global,
    hull: &Rect,
    old: &[(Line, LineId)],
    new: &[Line],
) -> Result<Difference, AllocError>
    requires old { AreOrdered (lines_of old.now) }
    requires new { AreOrdered new.now }
    ensures stay { IfOk result (λ d. d.stay.items ≡ filter (stays hull.now new.now) (lines_of old.now)) }
    ensures here { IfOk result (λ d. d.here.items ≡ filter (goes hull.now new.now) (lines_of old.now)) }
    ensures there { IfOk result (λ d. d.there.items ≡ filter (λ l. not (is_listed (lines_of old.now) l)) new.now) }
{
    let mut difference = Difference {
        stay: Vec::new(alloc),
        here: Vec::new(alloc),
        there: Vec::new(alloc),
    };
    let (mut place, mut other_place) = (0, 0);
    'both: while place < old.len() && other_place < new.len() {
        let (line, _) = old[place];
        let other = new[other_place];
        if line.is_same(&other) {
            difference.stay.push(line)?;
            place += 1;
            other_place += 1;
        } else if line.stands_before(&other) {
            difference.part_line(hull, line)?;
            place += 1;
        } else {
            difference.there.push(other)?;
            other_place += 1;
        }
    }
    difference.part_lines(hull, &old[place..])?;
    difference.there.extend_from_slice(&new[other_place..])?;
    Ok(difference)
}
