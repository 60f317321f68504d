//! Half sizes, and the tests whether something leaves the field or a box.
ghost use Rattle.std.specs.Prelude.{◌≡◌};
ghost use Rattle.scene_model.specs.Edits.{half, is_off, is_outside};

use crate::pin::Pin;

/// Half a size, rounded up.
pub fn half(size: i64) -> i64
    ensures { result ≡ half size }
{
    ((size.unsigned_abs() + 1) / 2) as i64
}

/// Whether a box with the half size, centred at the coordinate, reaches beyond the field.
pub fn is_off(coordinate: i64, half: i64) -> bool
    ensures { result ≡ is_off coordinate half }
{
    let reach = coordinate
        .unsigned_abs()
        .saturating_add(half.unsigned_abs());
    1_000_000_000 < reach
}

/// Whether the pin is outside a box with these half sizes.
pub fn is_outside(half_w: i64, half_h: i64, pin: Pin) -> bool
    ensures { result ≡ is_outside half_w half_h pin }
{
    half_w.unsigned_abs() < pin.dx.unsigned_abs() || half_h.unsigned_abs() < pin.dy.unsigned_abs()
}
