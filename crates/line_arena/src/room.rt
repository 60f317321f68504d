//! Room in slabs.
ghost use Rattle.std.specs.Prelude.{◌≡◌, ◌≤◌, OnOk};
ghost use Rattle.slab.specs.Slab.{HasRoomFor, slab_len};

use slab::Slab;
use std::alloc::AllocError;

/// Makes room for `more` more entries; if there is not enough, also for an eighth of the present
/// number.
pub fn make_places<T>(slab: &mut Slab<T>, more: usize) -> Result<(), AllocError>
    ensures within { slab_len slab.old ≤ slab.old.capacity }
    ensures room { OnOk result (HasRoomFor slab.new more) }
    ensures had_room { HasRoomFor slab.old more → slab.new ≡ slab.old }
    ensures capacity { slab.old.capacity ≤ slab.new.capacity }
    ensures rest_kept { slab.new ≡ record slab.old { capacity = slab.new.capacity } }
{
    if slab.capacity() - slab.len() >= more {
        return Ok(());
    }
    slab.reserve_exact(more.saturating_add(slab.len() / 8))
}
