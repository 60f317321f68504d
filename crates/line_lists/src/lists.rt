//! The lines of an arena by number, each with its crossings in order.
ghost use Rattle.std.specs.Prelude.{◌≡◌, ◌<◌, IfOk, length};
ghost use Rattle.line_lists.specs.Lists.{AreListsOf, number_of, stops_of};

use crate::parts::Parts;
use crate::stop::Stop;
use line_arena::LineArena;
use plane_geom::{Line, Way};
use std::alloc::{AllocError, Global};
use std::marker::Model;

/// The lines of an arena by number, each with its crossings in order of rising coordinate.
///
/// Numbers go from 0, in the order of `LineArena::lines_in_order`. The lists are of the arena as it
/// was when they were made.
#[derive(Drop)]
pub struct LineLists {
    parts: Parts,
}

impl Model for LineLists {
    ghost use Rattle.line_lists.specs.Lists.{Lists};

    ghost Value = { Lists };

    ghost use Rattle.line_lists.specs.Parts.{AreLaidOut, lists_of};

    ghost view = { λ l. lists_of l.parts };

    ghost invariant = { λ l. AreLaidOut l.parts };
}

impl LineLists {
    /// The lists of the arena. The only error is out of memory, as which 2^32 lines or places for
    /// crossings count.
    pub fn new(alloc: Global, arena: &LineArena) -> Result<LineLists, AllocError>
        ensures { IfOk result (AreListsOf arena.now) }
    {
        let mut parts = Parts::new(alloc);
        match parts.fill(arena) {
            Ok(()) => Ok(LineLists { parts }),
            Err(error) => Err(error),
        }
    }

    /// All lines by number. Takes constant time.
    pub fn lines(&self) -> &[Line]
        ensures { result.now ≡ self.now.lines }
    {
        self.parts.lines.as_slice()
    }

    /// The crossings of the line with the number, by strictly rising coordinate. Takes constant
    /// time.
    pub fn stops(&self, line: usize) -> &[Stop]
        requires { line < length self.now.lines }
        ensures { result.now ≡ stops_of self.now line }
    {
        let parts = &self.parts;
        let run = parts.runs[line];
        &parts.stops[run.begin..run.end]
    }

    /// The number of the line of this way through the crossing with the number that
    /// `LineArena::index` gives. Reads one entry.
    pub fn line_of(&self, crossing: usize, way: Way) -> usize
        requires { crossing < length self.now.numbers }
        ensures { result ≡ number_of self.now crossing way }
    {
        self.parts.numbers[crossing].number(way)
    }
}
