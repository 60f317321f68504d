//! The handle: the place of a session in its caller's room.
ghost use Rattle.std.specs.Prelude.{◌≡◌, None, Option, Some};
ghost use Rattle.std.specs.Borrow.{sem};
ghost use Rattle.std.specs.Mem.{type_size};
ghost use Rattle.drawing.specs.Drawing.{DrawingState};
ghost use Rattle.reroute_c.specs.Owned.{Held, owned, room};

use drawing::Drawing;
use std::marker::Model;

/// A session's handle in C: the place of a drawing, or of none.
#[repr(C)]
pub struct Handle {
    held: *mut u8,
    pub ghost drawing: { Option DrawingState } by { Held.coded },
}

impl Model for Handle {
    ghost also_owns = { λ h. owned h.held h.drawing };
}

impl Handle {
    /// What was there, with this in its place.
    fn replace(&mut self, drawing: Option<Drawing>) -> Option<Drawing>
        ensures was { result ≡ self.old.drawing }
        ensures now { self.new.drawing ≡ drawing }
    {
        let at = self.held as *mut Option<Drawing>;
        unsafe {
            let old = at.read();
            at.write(drawing);
            old
        }
    }

    /// What was there, with nothing in its place.
    pub(crate) fn take(&mut self) -> Option<Drawing>
        ensures was { result ≡ self.old.drawing }
        ensures now { self.new.drawing ≡ None }
    {
        self.replace(None)
    }

    /// Puts a session into the place. What was there is dropped.
    pub(crate) fn put(&mut self, drawing: Drawing)
        ensures { self.new.drawing ≡ Some drawing }
    {
        drop(self.replace(Some(drawing)));
    }
}

/// Makes the room at `at` the place of no session: a handle of it may be used from then on.
#[unsafe(no_mangle)]
pub unsafe extern "C" fn reroute_ready(at: *mut u8)
    requires* { sem 𝓛 (room at) }
    ensures* { sem 𝓛 (owned at None) }
{
    let place = at as *mut Option<Drawing>;
    place.write(None);
}

/// The number of bytes of a room.
#[unsafe(no_mangle)]
pub extern "C" fn reroute_size() -> usize
    ensures { result ≡ type_size Held }
{
    std::mem::size_of::<Option<Drawing>>()
}
