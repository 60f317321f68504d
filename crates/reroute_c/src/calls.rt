//! The calls of a session: open, close, transactions, undo and redo.
ghost use Rattle.std.specs.Prelude.{◌≡◌, ◌≢◌, ◌⊎◌, IfSome, IsNone, IsSome, None};
ghost use Rattle.reroute_c.specs.Codes.{IsFaultAnswered, already_open_fault, memory_fault, no_fault, no_transaction_fault};
ghost use Rattle.reroute_c.specs.Open.{IfOpen, IsOpenedEmpty, IsRefusedClosed};
ghost use Rattle.scene_model.specs.World.{IsDirectedCommand};
ghost use Rattle.scene_model.specs.declared.edit.Command.TheVariants as commands;

use crate::fault::Fault;
use crate::handle::Handle;
use drawing::Drawing;
use scene_model::{Command, SessionFault};
use std::alloc::{AllocError, Global};

/// The version of the interface: the major number times 65,536, the minor one times 256, and the patch.
#[unsafe(no_mangle)]
pub extern "C" fn reroute_version() -> u32
    ensures { result ≡ 256 }
{
    256
}

/// Opens a session on the empty scene, if none is open.
///
/// The fault is 3 exactly if one is open, which stays as it is; otherwise only 99.
#[unsafe(no_mangle)]
pub extern "C" fn reroute_open(alloc: Global, handle: &mut Handle) -> Fault
    ensures open { IsSome handle.old.drawing → (result ≡ already_open_fault) × (handle.new.drawing ≡ handle.old.drawing) }
    ensures closed { IsNone handle.old.drawing → (result ≡ no_fault) ⊎ (result ≡ memory_fault) }
    ensures opened { result.code ≡ 0 → IfSome handle.new.drawing IsOpenedEmpty }
    ensures there { result.code ≡ 0 → IsSome handle.new.drawing }
    ensures memory { result.code ≡ 99 → IsNone handle.new.drawing }
{
    match handle.take() {
        Some(drawing) => {
            handle.put(drawing);
            Fault::of(Err(SessionFault::AlreadyOpen))
        }
        None => open_in(alloc, handle),
    }
}

/// Opens a session on the empty scene where none is open. The only fault is 99.
fn open_in(alloc: Global, handle: &mut Handle) -> Fault
    requires { IsNone handle.old.drawing }
    ensures faults { (result ≡ no_fault) ⊎ (result ≡ memory_fault) }
    ensures opened { result.code ≡ 0 → IfSome handle.new.drawing IsOpenedEmpty }
    ensures there { result.code ≡ 0 → IsSome handle.new.drawing }
    ensures memory { result.code ≡ 99 → IsNone handle.new.drawing }
{
    match Drawing::new(alloc) {
        Ok(drawing) => {
            handle.put(drawing);
            Fault::none()
        }
        Err(AllocError) => Fault::memory(),
    }
}

/// Closes the session and gives its memory back. Does nothing if none is open.
#[unsafe(no_mangle)]
pub extern "C" fn reroute_close(handle: &mut Handle)
    ensures { handle.new.drawing ≡ None }
{
    drop(handle.take());
}

/// Calls the session as a command says.
pub(crate) fn call(handle: &mut Handle, command: &Command) -> Fault
    requires directed { IsDirectedCommand command.now }
    requires form { command.now ≢ commands.Bad }
    ensures closed { IsNone handle.old.drawing → IsRefusedClosed result handle.new.drawing }
    ensures open { IsSome handle.old.drawing → IsSome handle.new.drawing }
    ensures call { IfOpen handle.old.drawing handle.new.drawing (IsFaultAnswered command.now result) }
{
    let Some(mut drawing) = handle.take() else {
        return Fault::closed();
    };
    let answer = drawing.run(command);
    handle.put(drawing);
    Fault::of(answer)
}

/// Opens a transaction.
#[unsafe(no_mangle)]
pub extern "C" fn reroute_begin(handle: &mut Handle) -> Fault
    ensures closed { IsNone handle.old.drawing → IsRefusedClosed result handle.new.drawing }
    ensures open { IsSome handle.old.drawing → IsSome handle.new.drawing }
    ensures call { IfOpen handle.old.drawing handle.new.drawing (IsFaultAnswered commands.Begin result) }
{
    call(handle, &Command::Begin)
}

/// Closes the transaction, with right routes. Only the stale connectors are searched, by this thread alone.
#[unsafe(no_mangle)]
pub extern "C" fn reroute_commit(handle: &mut Handle) -> Fault
    ensures closed { IsNone handle.old.drawing → IsRefusedClosed result handle.new.drawing }
    ensures open { IsSome handle.old.drawing → IsSome handle.new.drawing }
    ensures call { IfOpen handle.old.drawing handle.new.drawing (IsFaultAnswered commands.Commit result) }
{
    call(handle, &Command::Commit)
}

/// Drops the transaction. Takes no memory: the fault is 2 exactly if none is open, otherwise only 98.
#[unsafe(no_mangle)]
pub extern "C" fn reroute_abort(handle: &mut Handle) -> Fault
    ensures faults { IsSome handle.old.drawing → (result ≡ no_fault) ⊎ (result ≡ no_transaction_fault) }
    ensures closed { IsNone handle.old.drawing → IsRefusedClosed result handle.new.drawing }
    ensures open { IsSome handle.old.drawing → IsSome handle.new.drawing }
    ensures call { IfOpen handle.old.drawing handle.new.drawing (IsFaultAnswered commands.Abort result) }
{
    call(handle, &Command::Abort)
}

/// Goes one scene back, with its routes, without a search.
#[unsafe(no_mangle)]
pub extern "C" fn reroute_undo(handle: &mut Handle) -> Fault
    ensures closed { IsNone handle.old.drawing → IsRefusedClosed result handle.new.drawing }
    ensures open { IsSome handle.old.drawing → IsSome handle.new.drawing }
    ensures call { IfOpen handle.old.drawing handle.new.drawing (IsFaultAnswered commands.Undo result) }
{
    call(handle, &Command::Undo)
}

/// Goes one scene forward, with its routes, without a search.
#[unsafe(no_mangle)]
pub extern "C" fn reroute_redo(handle: &mut Handle) -> Fault
    ensures closed { IsNone handle.old.drawing → IsRefusedClosed result handle.new.drawing }
    ensures open { IsSome handle.old.drawing → IsSome handle.new.drawing }
    ensures call { IfOpen handle.old.drawing handle.new.drawing (IsFaultAnswered commands.Redo result) }
{
    call(handle, &Command::Redo)
}
