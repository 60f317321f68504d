//! Diagrams in GML, opened and written, and scripts.
ghost use Rattle.std.specs.Prelude.{◌≡◌, ◌≢◌, IfSome, IsNone, IsSome, IsSomeAnd};
ghost use Rattle.edit_script.specs.Script.{commands};
ghost use Rattle.drawing.specs.Opening.{Opens};
ghost use Rattle.reroute_c.specs.Codes.{already_open_fault, closed_fault, memory_fault};
ghost use Rattle.reroute_c.specs.Files.{IsUnopened, IsWrittenTo, ReportsScript, overlaid};
ghost use Rattle.reroute_c.specs.Open.{IfOpen, IsRefusedClosed};

use crate::fault::{Fault, of_open, of_why};
use crate::handle::Handle;
use drawing::Drawing;
use scene_model::SessionFault;
use std::alloc::{AllocError, Global};

/// Opens a session on the scene of a diagram in GML, if none is open.
///
/// The fault is 3 if one is open, which stays as it is; otherwise that of the text, or 99.
#[unsafe(no_mangle)]
pub extern "C" fn reroute_open_gml(alloc: Global, handle: &mut Handle, text: &[u8]) -> Fault
    ensures open { IsSome handle.old.drawing → (result ≡ already_open_fault) × (handle.new.drawing ≡ handle.old.drawing) }
    ensures opened { IsNone handle.old.drawing → result.code ≡ 0 → IsSomeAnd handle.new.drawing (Opens text.now) }
    ensures fault { IsNone handle.old.drawing → result.code ≢ 0 → IsUnopened text.now result }
    ensures closed { IsNone handle.old.drawing → result.code ≢ 0 → IsNone handle.new.drawing }
{
    match handle.take() {
        Some(drawing) => {
            handle.put(drawing);
            Fault::of(Err(SessionFault::AlreadyOpen))
        }
        None => open_text(alloc, handle, text),
    }
}

/// Opens a session on the scene of a diagram in GML where none is open.
fn open_text(alloc: Global, handle: &mut Handle, text: &[u8]) -> Fault
    requires { IsNone handle.old.drawing }
    ensures opened { result.code ≡ 0 → IsSomeAnd handle.new.drawing (Opens text.now) }
    ensures fault { result.code ≢ 0 → IsUnopened text.now result }
    ensures closed { result.code ≢ 0 → IsNone handle.new.drawing }
{
    match Drawing::open(alloc, text) {
        Ok(drawing) => {
            handle.put(drawing);
            Fault::none()
        }
        Err(fault) => of_open(fault),
    }
}

/// Writes the first bytes of a text, as many as there is room for.
fn write_front(text: &[u8], out: &mut [u8])
    ensures { out.new ≡ overlaid text.now out.old }
{
    let count = text.len().min(out.len());
    out[..count].copy_from_slice(&text[..count]);
}

/// Writes the first bytes of the diagram, as many as there is room for, and says how many it has.
///
/// The fault is 98 or 99; after it, nothing is written.
#[unsafe(no_mangle)]
pub extern "C" fn reroute_write_gml(
    alloc: Global,
    handle: &mut Handle,
    out: &mut [u8],
    length: &mut usize,
) -> Fault
    ensures closed { IsNone handle.old.drawing → result ≡ closed_fault }
    ensures memory { IsSome handle.old.drawing → result.code ≢ 0 → result ≡ memory_fault }
    ensures written { result.code ≡ 0 → IfSome handle.old.drawing (λ s. IsWrittenTo s out.old out.new length.new) }
    ensures kept_out { result.code ≢ 0 → out.new ≡ out.old }
    ensures kept_length { result.code ≢ 0 → length.new ≡ length.old }
    ensures kept { handle.new.drawing ≡ handle.old.drawing }
{
    let Some(drawing) = handle.take() else {
        return Fault::closed();
    };
    let answer = drawing.text(alloc);
    handle.put(drawing);
    match answer {
        Ok(text) => {
            write_front(&text, out);
            *length = text.len();
            Fault::none()
        }
        Err(AllocError) => Fault::memory(),
    }
}

/// Plays a script up to its first command that is refused, and says on which line that is; 0 if none is refused.
///
/// A transaction that is open at the end stays open.
#[unsafe(no_mangle)]
pub extern "C" fn reroute_play(
    alloc: Global,
    handle: &mut Handle,
    script: &[u8],
    line: &mut usize,
) -> Fault
    ensures closed { IsNone handle.old.drawing → IsRefusedClosed result handle.new.drawing }
    ensures closed_kept { IsNone handle.old.drawing → line.new ≡ line.old }
    ensures open { IsSome handle.old.drawing → IsSome handle.new.drawing }
    ensures played { IfOpen handle.old.drawing handle.new.drawing (ReportsScript (commands script.now) result line.new) }
{
    let Some(mut drawing) = handle.take() else {
        return Fault::closed();
    };
    let answer = drawing.play(alloc, script);
    handle.put(drawing);
    match answer {
        Ok(None) => {
            *line = 0;
            Fault::none()
        }
        Ok(Some(stopped)) => {
            *line = stopped.line;
            of_why(stopped.why)
        }
        Err(AllocError) => {
            *line = 0;
            Fault::memory()
        }
    }
}
