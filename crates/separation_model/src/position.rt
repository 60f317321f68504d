//! A position on the sheet: its distance from another, and its whole coordinate.

ghost use Rattle.std.specs.Prelude.{◌≡◌, ◌≤◌, pos, ◌≤ℤ◌, ◌<ℤ◌};
ghost use Rattle.std.specs.Ordering.{MatchOrdering};
ghost use Rattle.separation_model.specs.Apart.{FractionIsOnSheet, IsSplit, fraction_slack};
ghost use Rattle.separation_model.specs.Rounded.{rounded_down};
ghost use Rattle.plane_geom.specs.Point.{IsCoordinate};

use std::cmp::Ordering;

/// Half the width of the sheet, in thousandths.
const SHEET_HALF: i128 = 2_000_000_000;

/// A position on the sheet, at `pos / den` thousandths.
#[derive(Clone, Copy)]
pub struct Position {
    pub pos: i128,
    pub den: u64,
}

impl Position {
    /// The whole thousandths from the sheet's start, and the remainder, as a numerator.
    fn split(self) -> (u128, u128)
        requires { FractionIsOnSheet self.den self.pos }
        ensures split { IsSplit self.pos self.den result.0 result.1 }
        ensures whole { result.0 ≤ 4000000000 }
    {
        let den = u128::from(self.den);
        let from_start = (self.pos + SHEET_HALF * i128::from(self.den)) as u128;
        (from_start / den, from_start % den)
    }

    /// Compares the distance from this position to the other one, on its right, with the whole gap
    /// that is asked.
    ///
    /// The cross products may not fit, so whole parts are compared first, and then the remainders.
    pub fn compare_gap(self, other: Position, asked: i64) -> Ordering
        requires place { FractionIsOnSheet self.den self.pos }
        requires other { FractionIsOnSheet other.den other.pos }
        requires asked_low { pos 0 ≤ℤ asked }
        requires asked_high { asked ≤ℤ pos 1000000 }
        ensures { let gap = fraction_slack self.pos self.den other.pos other.den asked in
            MatchOrdering result (gap <ℤ pos 0) (gap ≡ pos 0) (pos 0 <ℤ gap) }
    {
        let (whole, rest) = self.split();
        let (other_whole, other_rest) = other.split();
        let wanted_whole = whole + asked as u128;
        if other_whole == wanted_whole {
            (other_rest * u128::from(self.den)).cmp(&(rest * u128::from(other.den)))
        } else {
            other_whole.cmp(&wanted_whole)
        }
    }
}

/// The fraction rounded down to whole thousandths.
pub fn rounded_down(num: i128, den: u64) -> i64
    requires { FractionIsOnSheet den num }
    ensures value { result ≡ rounded_down num den }
    ensures coordinate { IsCoordinate result }
{
    num.div_euclid(i128::from(den)) as i64
}
