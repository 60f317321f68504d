//! The proposals of a script, from its commands to the bytes that are written.
ghost use Rattle.std.specs.Prelude.{◌≡◌, ◌<◌, ◌≤◌, ◌^◌, All, IfOk, false, length, true};
ghost use Rattle.report_text.specs.Outcome.{unsearched};
ghost use Rattle.report_text.specs.Replies.{end_line, reply_text};
ghost use Rattle.report_text.specs.declared.reply.Reply.TheVariants as replies;
ghost use Rattle.preview.specs.Previews.{IsProposable};
ghost use Rattle.session_model.specs.Calls.{AreDirected};
ghost use Rattle.form_preview.specs.Blocks as blocks;
ghost use Rattle.form_preview.specs.Proposes.{Answers, Previews, PreviewsBlocks};

use crate::blocks::{Script, read_script};
use crate::report::{answers_text, is_any_refused};
use form_route::script_status;
use par_route::Gate;
use preview::{Proposal, preview};
use report_text::{LineReply, Outcome, Refusal, Reply, Status, push_end_line, push_reply_lines};
use route_session::Session;
use scene_model::Command;
use scene_store::Scene;
use std::alloc::{AllocError, Global};
use std::thread::Threads;

/// The output on answers, without its tally.
#[derive(Drop)]
struct Lines {
    text: Vec<u8>,
    is_refused: bool,
}

/// Answers the proposals of the commands, each with the number of its line, on the scene.
///
/// The commands are blocks of `begin`, edits and `commit`, at most 64, and each block is a proposal. If they are not,
/// the first command that is out of place is refused, or the end, and nothing is searched. At most `workers` pieces are
/// searched and answered side by side. The only error is out of memory.
pub fn propose<R: Threads + Sync, G: Gate>(
    rt: &R,
    alloc: Global,
    scene: Scene,
    commands: &[(usize, Command)],
    workers: u32,
    gate: &G,
) -> Result<Outcome, AllocError>
    requires some { 1 ≤ workers }
    requires few_workers { workers ≤ 4 }
    requires few { length commands.now < 2 ^ 32 }
    requires directed { AreDirected commands.now }
    ensures { IfOk result (Previews scene commands.now) }
{
    match read_script(alloc, commands)? {
        Script::Proposals(proposals) => answered(rt, alloc, scene, &proposals, workers, gate),
        Script::Refused { line, why } => line_refused(alloc, line, why),
        Script::Unfinished => end_refused(alloc),
    }
}

/// The answers to the proposals on the scene.
fn answered<R: Threads + Sync, G: Gate>(
    rt: &R,
    alloc: Global,
    scene: Scene,
    proposals: &[Proposal],
    workers: u32,
    gate: &G,
) -> Result<Outcome, AllocError>
    requires some { 1 ≤ workers }
    requires few_workers { workers ≤ 4 }
    requires few_proposals { length proposals.now ≤ 64 }
    requires edits { All IsProposable proposals.now }
    ensures { IfOk result (PreviewsBlocks scene (blocks.proposals proposals.now)) }
{
    let session = Session::open(rt, alloc, scene, workers, gate)?;
    let reported = report(rt, alloc, &session, proposals, workers, gate);
    let tally = session.into_tally();
    let Lines { text, is_refused } = reported?;
    Ok(Outcome::counted(script_status(is_refused), text, tally))
}

/// The answers to the proposals on the session's present scene.
fn report<R: Threads + Sync, G: Gate>(
    rt: &R,
    alloc: Global,
    session: &Session,
    proposals: &[Proposal],
    workers: u32,
    gate: &G,
) -> Result<Lines, AllocError>
    requires some { 1 ≤ workers }
    requires few_workers { workers ≤ 4 }
    requires few_proposals { length proposals.now ≤ 64 }
    requires edits { All IsProposable proposals.now }
    ensures { IfOk result (λ r. Answers session.now.world.present proposals.now r.text.items r.is_refused) }
{
    let answers = preview(
        rt,
        alloc,
        session.scene(),
        session.book(),
        proposals,
        workers,
        gate,
    )?;
    Ok(Lines {
        text: answers_text(alloc, &answers)?,
        is_refused: is_any_refused(&answers),
    })
}

/// The outcome where the command on the line is refused.
fn line_refused(alloc: Global, line: u64, why: Refusal) -> Result<Outcome, AllocError>
    ensures { IfOk result (λ o. o ≡ unsearched Status.Refused (reply_text false line (replies.Refused why))) }
{
    let reply = LineReply {
        line,
        reply: Reply::Refused(why),
    };
    let mut text = Vec::new(alloc);
    push_reply_lines(&mut text, false, &[reply])?;
    Ok(Outcome::unsearched(Status::Refused, text))
}

/// The outcome where the last block has no `commit`.
fn end_refused(alloc: Global) -> Result<Outcome, AllocError>
    ensures { IfOk result (λ o. o ≡ unsearched Status.Refused (end_line true)) }
{
    let mut text = Vec::new(alloc);
    push_end_line(&mut text, true)?;
    Ok(Outcome::unsearched(Status::Refused, text))
}
