//! The shared paths of a scene's routes, and the crossings of its nudged lines, as text.
ghost use Rattle.std.specs.Prelude.{◌≡◌, ◌++◌, IfOk};
ghost use Rattle.report_text.specs.Shared.{crossings_line, shared_lines};
ghost use Rattle.form_shared.specs.Shares.{ListsPaths, SharesPaths};

use par_route::Gate;
use report_text::{Outcome, Status, push_crossings_line, push_shared_lines};
use route_session::Session;
use scene_store::Scene;
use shared_paths::SharedPath;
use std::alloc::{AllocError, Global};
use std::thread::Threads;

/// The text on paths and on a number of crossings.
fn text_of(alloc: Global, paths: &[SharedPath], count: u64) -> Result<Vec<u8>, AllocError>
    ensures { IfOk result (λ text. text.items ≡ shared_lines paths.now ++ crossings_line count) }
{
    let mut text = Vec::new(alloc);
    push_shared_lines(&mut text, paths)?;
    push_crossings_line(&mut text, count)?;
    Ok(text)
}

/// The text on the session's present scene.
fn session_text(alloc: Global, session: &Session) -> Result<Vec<u8>, AllocError>
    ensures { IfOk result (λ text. SharesPaths session.now.world.present text.items) }
{
    // So the answers are known to be right.
    session.right();
    let count = session.crossings(alloc)?;
    let paths = session.shared_paths(alloc)?;
    text_of(alloc, &paths, count)
}

/// Routes the scene, and writes the paths that its routes share and how often its nudged lines cross.
///
/// The opening searches with one worker, and calls the gate as `Session::open` does. The only error
/// is out of memory.
pub fn share<R: Threads + Sync, G: Gate>(
    rt: &R,
    alloc: Global,
    scene: Scene,
    gate: &G,
) -> Result<Outcome, AllocError>
    ensures { IfOk result (ListsPaths scene) }
{
    let session = Session::open(rt, alloc, scene, 1, gate)?;
    let written = session_text(alloc, &session);
    let tally = session.into_tally();
    let text = written?;
    Ok(Outcome::counted(Status::Done, text, tally))
}
