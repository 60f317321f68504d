//! Fractions in lowest terms.

ghost use Rattle.std.specs.Prelude.{◌≡◌, ◌↔◌, IsTrue, pos, ◌+ℤ◌, ◌*ℤ◌, ◌<ℤ◌, ◌<◌, ◌≤◌, ◌⊎◌, unsigned_abs};
ghost use Rattle.separation_solve.specs.Reduced.{IsGreatestDivisor, IsReduced, IsWithin};

/// A fraction of a thousandth, in lowest terms.
#[derive(Clone, Copy, Debug)]
pub struct Fraction {
    pub num: i128,
    pub den: u64,
}

/// The greatest common divisor, by Euclid's algorithm.
fn greatest_common_divisor(a: u64, b: u64) -> u64
    ensures { IsGreatestDivisor a b result }
{
    if b == 0 {
        a
    } else {
        greatest_common_divisor(b, a % b)
    }
}

impl Fraction {
    ghost use Rattle.separation_solve.specs.Fraction.{IsLight, IsNotBeyond, whole};

    pub fn whole(at: i64) -> Fraction
        ensures { result ≡ whole at }
    {
        Fraction {
            num: i128::from(at),
            den: 1,
        }
    }

    /// The fraction in lowest terms.
    pub fn ratio(num: i128, den: u64) -> Fraction
        requires positive { 0 < den }
        requires within { IsWithin 10000000000 num den }
        ensures reduced { IsReduced result.num result.den }
        ensures value { (result.num *ℤ pos den) ≡ (num *ℤ pos result.den) }
        ensures den { result.den ≤ den }
    {
        let whole = num.div_euclid(i128::from(den));
        let rest = num.rem_euclid(i128::from(den));
        Fraction::mixed(whole, rest as u64, den)
    }

    /// The whole number and the fraction, together in lowest terms.
    fn mixed(whole: i128, rest: u64, den: u64) -> Fraction
        requires positive { 0 < den }
        requires within { unsigned_abs whole ≤ 10000000001 }
        ensures reduced { IsReduced result.num result.den }
        ensures value { (result.num *ℤ pos den) ≡ (((whole *ℤ pos den) +ℤ pos rest) *ℤ pos result.den) }
        ensures den { result.den ≤ den }
    {
        let common = greatest_common_divisor(den, rest);
        let den_part = den / common;
        Fraction {
            num: whole * i128::from(den_part) + i128::from(rest / common),
            den: den_part,
        }
    }

    /// The fraction plus `by`.
    pub fn moved(self, by: i64) -> Fraction
        requires { IsLight self }
        ensures num { result.num ≡ self.num +ℤ (by *ℤ pos self.den) }
        ensures den { result.den ≡ self.den }
    {
        Fraction {
            num: self.num + i128::from(by) * i128::from(self.den),
            den: self.den,
        }
    }

    /// Whether this fraction is less than the other one.
    fn is_below(self, other: Fraction) -> bool
        requires light { IsLight self }
        requires other_light { IsLight other }
        ensures { IsTrue result ↔ ((self.num *ℤ pos other.den) <ℤ (other.num *ℤ pos self.den)) }
    {
        self.num * i128::from(other.den) < other.num * i128::from(self.den)
    }

    /// The lesser of both.
    pub fn min(self, other: Fraction) -> Fraction
        requires light { IsLight self }
        requires other_light { IsLight other }
        ensures { ((result ≡ self) × IsNotBeyond self other) ⊎ ((result ≡ other) × IsNotBeyond other self) }
    {
        if self.is_below(other) { self } else { other }
    }
}
