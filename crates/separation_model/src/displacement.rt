//! Coordinates and displacements over a denominator.

ghost use Rattle.std.specs.Prelude.{◌≡◌, ◌<◌, ◌≤◌, pos, ◌-ℤ◌, ◌*ℤ◌};
ghost use Rattle.separation_model.specs.Apart.{FractionIsOnSheet};
ghost use Rattle.plane_geom.specs.Point.{IsCoordinate};

/// The numerator of a coordinate, in thousandths, over a denominator, which is not 0.
pub fn numerator_over(coordinate: i64, den: u64) -> i128
    requires coordinate { IsCoordinate coordinate }
    requires den { 0 < den }
    ensures { result ≡ coordinate *ℤ pos den }
{
    i128::from(coordinate) * i128::from(den)
}

/// Twice the weighted displacement from `want` to the fraction `num / den`, over its denominator.
/// Both are in thousandths and on the sheet, and the weight is at most 4.
pub fn weighted_displacement(weight: u32, want: i64, num: i128, den: u64) -> i128
    requires weight { weight ≤ 4 }
    requires want { IsCoordinate want }
    requires place { FractionIsOnSheet den num }
    ensures { result ≡ pos 2 *ℤ pos weight *ℤ (num -ℤ (pos den *ℤ want)) }
{
    let away = num - numerator_over(want, den);
    2 * i128::from(weight) * away
}
