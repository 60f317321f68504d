//! The replay of a script: its commands, one after another, and the reply to each.
ghost use Rattle.std.specs.Prelude.{◌≡◌, ◌<◌, ◌≤◌, ◌+◌, ◌^◌, IfOk, length};
ghost use Rattle.scene_model.specs.Answers.{AreAnswers};
ghost use Rattle.scene_model.specs.Scene.{connectors};
ghost use Rattle.scene_model.specs.World.{IsDirectedCommand, opened};
ghost use Rattle.session_model.specs.Calls.{AreDirected};
ghost use Rattle.script_replay.specs.Replied.{AreReplied, IsReplied, done_reply};
ghost use Rattle.script_replay.specs.Replies.{AreReplies, searched_in, world_after};

use par_route::Gate;
use report_text::{LineReply, Refusal, Reply};
use route_session::Session;
use scene_model::{Command, SessionFault};
use scene_store::Scene;
use std::alloc::{AllocError, Global};
use std::thread::Threads;

/// The result of replaying the commands of a script.
#[derive(Drop)]
pub struct Replayed {
    /// The session at the end. A transaction that is still open there was never closed by the
    /// script.
    pub session: Session,
    /// The reply to each command, in order.
    pub replies: Vec<LineReply>,
    /// The number of connectors that the opening searched.
    pub opening: u64,
}

/// Opens the scene, and executes the commands one after another, each with the number of its line.
/// A refused command changes nothing except that no transaction is open after it; the next ones are
/// still executed.
///
/// At most `workers` searches run side by side. The only error is out of memory.
pub fn replay<R: Threads + Sync, G: Gate>(
    rt: &R,
    alloc: Global,
    scene: Scene,
    commands: &[(usize, Command)],
    workers: u32,
    gate: &G,
) -> Result<Replayed, AllocError>
    requires some { 1 ≤ workers }
    requires few_workers { workers ≤ 4 }
    requires few { length commands.now < 2 ^ 32 }
    requires directed { AreDirected commands.now }
    ensures replies { IfOk result (λ r. AreReplies (opened scene) commands.now r.replies.items) }
    ensures world { IfOk result (λ r. r.session.world ≡ world_after scene commands.now) }
    ensures right { IfOk result (λ r. AreAnswers r.session.world.present r.session.book) }
    ensures opening { IfOk result (λ r. r.opening ≡ length (connectors scene)) }
    // The number of searches is exactly that of the opening and of the commits.
    ensures searched { IfOk result (λ r. r.session.searched ≡ length (connectors scene) + searched_in r.replies.items) }
{
    // For the proof: the scene has few connectors.
    scene.valid();
    let mut session = Session::open(rt, alloc, scene, workers, gate)?;
    let opening = session.searched();
    match replies_to(rt, alloc, &mut session, commands, workers, gate) {
        Ok(replies) => {
            session.right();
            Ok(Replayed {
                session,
                replies,
                opening,
            })
        }
        Err(AllocError) => {
            let _tally = session.into_tally();
            Err(AllocError)
        }
    }
}

/// Executes the commands one after another, and collects the reply to each with the number of its
/// line.
fn replies_to<R: Threads + Sync, G: Gate>(
    rt: &R,
    alloc: Global,
    session: &mut Session,
    commands: &[(usize, Command)],
    workers: u32,
    gate: &G,
) -> Result<Vec<LineReply>, AllocError>
    requires some { 1 ≤ workers }
    requires few_workers { workers ≤ 4 }
    requires few { length commands.now < 2 ^ 32 }
    requires few_searched { session.old.searched ≤ 512 }
    requires directed { AreDirected commands.now }
    ensures { IfOk result (λ v. AreReplied commands.now session.old session.new v.items) }
{
    let mut replies = Vec::new(alloc);
    for (number, command) in commands {
        let reply = reply_to(rt, session, command, workers, gate)?;
        let line = *number as u64;
        replies.push(LineReply { line, reply })?;
    }
    Ok(replies)
}

/// Executes a command, and returns the reply to it. A valid scene has at most 512 connectors to
/// search.
fn reply_to<R: Threads + Sync, G: Gate>(
    rt: &R,
    session: &mut Session,
    command: &Command,
    workers: u32,
    gate: &G,
) -> Result<Reply, AllocError>
    requires some { 1 ≤ workers }
    requires few_workers { workers ≤ 4 }
    requires countable { session.old.searched + 512 < 2 ^ 64 }
    requires directed { IsDirectedCommand command.now }
    ensures { IfOk result (IsReplied command.now session.old session.new) }
{
    if matches!(command, Command::Bad) {
        session.give_up();
        return Ok(Reply::Refused(Refusal::Syntax));
    }
    // For the proof: the book before is right.
    session.right();
    let before = session.searched();
    let answer = session.run(rt, command, workers, gate);
    // For the proof: the scene after has few connectors.
    session.scene().valid();
    match answer {
        Ok(()) => Ok(done_reply(command, session.searched() - before)),
        Err(SessionFault::Memory) => Err(AllocError),
        Err(fault) => Ok(Reply::Refused(Refusal::Command(fault))),
    }
}

/// The reply to a command that is done, with this many searches.
fn done_reply(command: &Command, searched: u64) -> Reply
    ensures { result ≡ done_reply command.now searched }
{
    if matches!(command, Command::Commit | Command::Undo | Command::Redo) {
        return Reply::Searched(searched);
    }
    Reply::Kept
}
