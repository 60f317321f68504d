//! How much the scene has that is read by its places: that of the open transaction, if one is open, otherwise the present one.
ghost use Rattle.std.specs.Prelude.{◌≡◌, IfSome, IsNone, length};
ghost use Rattle.reroute_c.specs.Scenes.{read_scene};

use crate::handle::Handle;

/// The number of boxes; 0 if no session is open.
#[unsafe(no_mangle)]
pub extern "C" fn reroute_box_count(handle: &mut Handle) -> usize
    ensures closed { IsNone handle.old.drawing → result ≡ 0 }
    ensures count { IfSome handle.old.drawing (λ s. result ≡ length (read_scene s).nodes) }
    ensures kept { handle.new.drawing ≡ handle.old.drawing }
{
    let Some(drawing) = handle.take() else {
        return 0;
    };
    let count = drawing.scene().nodes().len();
    handle.put(drawing);
    count
}

/// The number of connectors, those from a box to itself among them; 0 if no session is open.
#[unsafe(no_mangle)]
pub extern "C" fn reroute_connector_count(handle: &mut Handle) -> usize
    ensures closed { IsNone handle.old.drawing → result ≡ 0 }
    ensures count { IfSome handle.old.drawing (λ s. result ≡ length (read_scene s).edges) }
    ensures kept { handle.new.drawing ≡ handle.old.drawing }
{
    let Some(drawing) = handle.take() else {
        return 0;
    };
    let count = drawing.scene().edges().len();
    handle.put(drawing);
    count
}
