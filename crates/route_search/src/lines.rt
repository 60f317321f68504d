//! What searches read of the lines of an arena.
ghost use Rattle.std.specs.Prelude.{◌≡◌, All, IfOk, IfSome, IsNone, IsSome, OnOk};
ghost use Rattle.plane_geom.specs.Rect.{RectIsOnSheet};
ghost use Rattle.route_search.specs.Matching.{AreLinesOf, made_lines};

use line_arena::LineArena;
use line_lists::LineLists;
use plane_geom::Solid;
use search_problem::SortedSolids;
use side_touches::Touches;
use std::alloc::{AllocError, Global};

/// What searches read of the lines of an arena: their crossings in order, and the sides of solids
/// that touch them; and the solids, sorted. They are of the arena as it was when they were made.
#[derive(Drop)]
pub struct Lines {
    pub(crate) lists: LineLists,
    pub(crate) touches: Touches,
    pub(crate) sorted: SortedSolids,
}

impl Lines {
    /// Of the arena of a floor with these solids. The only error is out of memory.
    pub fn new(alloc: Global, arena: &LineArena, solids: &[Solid]) -> Result<Lines, AllocError>
        requires { All (λ s. RectIsOnSheet s.rect) solids.now }
        ensures { IfOk result (AreLinesOf arena.now solids.now) }
    {
        arena.laws();
        let lists = LineLists::new(alloc, arena)?;
        let touches = Touches::new(alloc, lists.lines(), solids)?;
        let sorted = SortedSolids::new(alloc, solids)?;
        Ok(Lines {
            lists,
            touches,
            sorted,
        })
    }
}

/// The lines of a finder: its own, once it made some, or lent ones.
#[derive(Drop)]
pub enum FinderLines<'a> {
    Unmade,
    Own(Lines),
    Lent(&'a Lines),
}

impl<'a> FinderLines<'a> {
    /// The lines, if there are any.
    pub fn made(&self) -> Option<&Lines>
        ensures none { IsNone result → made_lines self.now ≡ None }
        ensures some { IfSome result (λ lines. made_lines self.now ≡ Some lines.now) }
    {
        match self {
            FinderLines::Unmade => None,
            FinderLines::Own(lines) => Some(lines),
            FinderLines::Lent(lines) => Some(*lines),
        }
    }

    /// Makes the lines of the arena of a floor with these solids, unless there are any.
    pub fn make(
        &mut self,
        alloc: Global,
        arena: &LineArena,
        solids: &[Solid],
    ) -> Result<(), AllocError>
        requires solids { All (λ s. RectIsOnSheet s.rect) solids.now }
        requires made { IfSome (made_lines self.old) (AreLinesOf arena.now solids.now) }
        ensures made { IfSome (made_lines self.new) (AreLinesOf arena.now solids.now) }
        ensures some { OnOk result (IsSome (made_lines self.new)) }
    {
        if self.made().is_none() {
            *self = FinderLines::Own(Lines::new(alloc, arena, solids)?);
        }
        Ok(())
    }
}
