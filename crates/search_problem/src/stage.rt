//! The number of checkpoints that a walk has passed.
ghost use Rattle.std.specs.Prelude.{◌≡◌, ◌≤◌, ◌↔◌, IsTrue, Some, length, slice_get};
ghost use Rattle.move_model.specs.Places.{ComesTo};

use plane_geom::Point;

/// Whether the checkpoint with the number, from 0, is at the point.
fn is_at(via: &[Point], number: u32, at: Point) -> bool
    ensures { IsTrue result ↔ (slice_get via.now number ≡ Some at) }
{
    via.get(number as usize).copied() == Some(at)
}

/// The number of checkpoints that a walk has passed at the point `at`, if it had passed `stage` of
/// them before it.
pub fn stage_at(via: &[Point], stage: u32, at: Point) -> u32
    requires within { stage ≤ length via.now }
    requires few { length via.now ≤ 4 }
    ensures { ComesTo via.now stage at result }
{
    let mut reached = stage;
    while is_at(via, reached, at) {
        reached += 1;
    }
    reached
}
