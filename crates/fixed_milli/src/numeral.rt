//! A number's parts, and its absolute value in thousandths.

use crate::digits::{LIMIT, rounded, with_digits, with_zeros};
use crate::split::{split_digits, split_exponent, split_fraction, split_sign};

/// The parts of a number as it is spelled: the digits before the point and after it, and those of
/// the exponent, which is negative if the number `shrinks`.
#[derive(Clone, Copy)]
pub(crate) struct Numeral<'a> {
    pub(crate) negative: bool,
    whole: &'a [u8],
    fraction: &'a [u8],
    shrinks: bool,
    exponent: &'a [u8],
}

impl<'a> Numeral<'a> {
    ghost use Rattle.std.specs.Prelude.{◌≡◌, ◌<◌, ◌+◌, ◌*◌, ◌^◌, length, min, MatchOption};
    ghost use Rattle.fixed_milli.specs.Number.{Spells, SpellsNothing, AreDigits, mantissa};
    ghost use Rattle.fixed_milli.specs.Numeral.{number_of};
    ghost use Rattle.fixed_milli.specs.Milli.{rounded, magnitude};
    ghost use Rattle.fixed_milli.specs.declared.digits.TheConstants.{LIMIT};

    /// The parts of the number that the bytes spell, if they spell one.
    pub(crate) fn split(lexeme: &'a [u8]) -> Option<Numeral<'a>>
        ensures { MatchOption result (SpellsNothing lexeme.now) (λ n. Spells (number_of n) lexeme.now) }
    {
        let (negative, unsigned) = split_sign(lexeme);
        let (whole, after_whole) = split_digits(unsigned);
        let (fraction, after_digits) = split_fraction(after_whole);
        if whole.is_empty() && fraction.is_empty() {
            return None;
        }
        let (shrinks, exponent) = split_exponent(after_digits)?;
        Some(Numeral {
            negative,
            whole,
            fraction,
            shrinks,
            exponent,
        })
    }

    /// The absolute value in thousandths, rounded, or `LIMIT` if that is less.
    ///
    /// The exponent is counted up to the greatest number of 64 bits. No slice has nearly as many
    /// bytes, so from there on a greater exponent still gives 0, or a number beyond `LIMIT`.
    pub(crate) fn thousandths(&self) -> u64
        requires { AreDigits (number_of self.now) }
        ensures { result ≡ min (magnitude (number_of self.now)) LIMIT }
    {
        let exponent = with_digits(0, self.exponent, u64::MAX);
        if !self.shrinks {
            self.moved_right(exponent.saturating_add(3))
        } else if exponent <= 3 {
            self.moved_right(3 - exponent)
        } else {
            self.moved_left(exponent - 3)
        }
    }

    /// The digits as a number with the point moved to the right, rounded, or `LIMIT` if that is
    /// less.
    fn moved_right(&self, places: u64) -> u64
        requires { AreDigits (number_of self.now) }
        ensures { result ≡ min (rounded (mantissa (number_of self.now) * 10 ^ places)
            (10 ^ length self.now.fraction.now)) LIMIT }
    {
        let places = places as usize;
        let taken = self.fraction.len().min(places);
        let (kept, following) = self.fraction.split_at(taken);
        let value = with_digits(with_digits(0, self.whole, LIMIT), kept, LIMIT);
        rounded(with_zeros(value, places - taken), following)
    }

    /// The digits as a number with the point moved to the left, rounded, or `LIMIT` if that is
    /// less.
    fn moved_left(&self, places: u64) -> u64
        requires digits { AreDigits (number_of self.now) }
        requires moved { 0 < places }
        ensures { result ≡ min (rounded (mantissa (number_of self.now))
            (10 ^ (length self.now.fraction.now + places))) LIMIT }
    {
        let places = places as usize;
        if places > self.whole.len() {
            return 0;
        }
        let (kept, following) = self.whole.split_at(self.whole.len() - places);
        rounded(with_digits(0, kept, LIMIT), following)
    }
}
