//! The replay of what is generated from a seed.
ghost use Rattle.std.specs.Prelude.{◌≡◌, IfOk};
ghost use Rattle.form_make.specs.Makes.{Summarizes, made_script, numbered_from};

use crate::commands::made_commands;
use crate::scene::made_scene;
use crate::sums::summed;
use par_route::Gate;
use report_text::{Outcome, Status};
use scene_model::Command;
use script_replay::replay;
use std::alloc::{AllocError, Global};
use std::thread::Threads;

/// The commands, numbered from 1. The only error is out of memory.
fn numbered(alloc: Global, commands: &[Command]) -> Result<Vec<(usize, Command)>, AllocError>
    ensures { IfOk result (λ r. r.items ≡ numbered_from 1 commands.now) }
{
    let mut numbered = Vec::new(alloc);
    for (place, &command) in commands.iter().enumerate() {
        numbered.push((place + 1, command))?;
    }
    Ok(numbered)
}

/// The commands that are generated from the seed, numbered from 1. The only error is out of memory.
fn script(alloc: Global, seed: u64) -> Result<Vec<(usize, Command)>, AllocError>
    ensures { IfOk result (λ r. r.items ≡ made_script seed) }
{
    let commands = made_commands(alloc, seed)?;
    numbered(alloc, &commands)
}

/// Generates a scene and commands from the seed, replays the commands on the scene with one worker,
/// and sums up the routes at the end. The only error is out of memory.
pub fn make<R: Threads + Sync, G: Gate>(
    rt: &R,
    alloc: Global,
    seed: u64,
    gate: &G,
) -> Result<Outcome, AllocError>
    ensures { IfOk result (Summarizes seed) }
{
    let script = script(alloc, seed)?;
    let scene = made_scene(alloc, seed)?;
    let session = replay(rt, alloc, scene, &script, 1, gate)?.session;
    let summary = summed(
        session.scene(),
        session.book().answers(),
        session.searched(),
    );
    let tally = session.into_tally();
    let text = summary.text(alloc)?;
    Ok(Outcome::counted(Status::Done, text.into_bytes(), tally))
}
