//! A crossing in the list of a line, and the numbers of a crossing's two lines.
ghost use Rattle.std.specs.Prelude.{◌≡◌};
ghost use Rattle.line_lists.specs.Numbers.{number_in};

use line_arena::CrossId;
use plane_geom::Way;
use std::marker::Model;

/// A crossing in the list of a line.
#[derive(Clone, Copy, Debug)]
pub struct Stop {
    /// The coordinate along the line, in thousandths: x on a horizontal line, y on a vertical one.
    pub along: i64,
    pub crossing: CrossNumber,
    /// The number of the line across.
    pub across: u32,
}

/// The id of a crossing, in 32 bits.
#[derive(Clone, Copy, Debug)]
pub struct CrossNumber(u32);

impl Model for CrossNumber {
    ghost use Rattle.std.specs.Prelude.{ℕ};

    ghost Value = { ℕ };

    ghost view = { λ a. a.0 };

    ghost inverse = { λ n. record { 0 = n } };
}

impl CrossNumber {
    /// Of the crossing with this number, which `LineArena::index` gives.
    pub(crate) fn new(number: u32) -> CrossNumber
        ensures { result ≡ number }
    {
        CrossNumber(number)
    }

    /// The crossing.
    pub fn id(self) -> CrossId
        ensures { result ≡ self }
    {
        CrossId::new(self.0 as usize)
    }
}

/// A stop at a place for which none has come yet.
pub const NO_STOP: Stop = Stop {
    along: 0,
    crossing: CrossNumber(0),
    across: 0,
};

/// Where the stops of a line stand: from `begin` up to, and not with, `end`.
#[derive(Clone, Copy, Debug)]
pub struct Run {
    pub begin: usize,
    pub end: usize,
}

/// The numbers of the two lines of a crossing.
#[derive(Clone, Copy, Debug)]
pub struct Numbers {
    pub vertical: u32,
    pub horizontal: u32,
}

/// Where no stops stand.
pub const NO_RUN: Run = Run { begin: 0, end: 0 };

/// The numbers of a crossing before it is given any.
pub const NO_NUMBERS: Numbers = Numbers {
    vertical: 0,
    horizontal: 0,
};

impl Numbers {
    /// The number of the line that lies this way.
    pub fn number(&self, way: Way) -> usize
        ensures { result ≡ number_in way self.now }
    {
        match way {
            Way::Vertical => self.vertical as usize,
            Way::Horizontal => self.horizontal as usize,
        }
    }
}
