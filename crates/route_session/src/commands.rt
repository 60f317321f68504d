//! A command as a call of a session: the one place that chooses the call.
ghost use Rattle.std.specs.Prelude.{◌≡◌, ◌≢◌, ◌≤◌, IfErr, IfNone, IfSome};
ghost use Rattle.route_session.specs.Runs.{IsRefusable, Searches, Writes};
ghost use Rattle.scene_model.specs.World.{IsDirectedCommand};
ghost use Rattle.scene_model.specs.declared.edit.Command.TheVariants as commands;
ghost use Rattle.session_model.specs.Calls.{IsCall};

use crate::session::Session;
use par_route::Gate;
use scene_model::{Command, SessionFault};
use std::thread::Threads;

impl Session {
    /// Makes the call of a command but a commit, for which there is no answer: it is left to the caller.
    fn run_but_commit(&mut self, command: &Command) -> Option<Result<(), SessionFault>>
        requires directed { IsDirectedCommand command.now }
        requires form { command.now ≢ commands.Bad }
        ensures call { IfSome result (λ a. IsCall command.now a self.old self.new) }
        ensures searches { IfSome result (λ a. Searches command.now a self.old self.new) }
        ensures writes { IfSome result (λ a. Writes command.now a self.old self.new) }
        ensures refusable { IfSome result (λ a. IfErr a (IsRefusable command.now)) }
        ensures left { IfNone result (command.now ≡ commands.Commit) }
        ensures stays { IfNone result (self.new ≡ self.old) }
    {
        Some(match command {
            Command::Begin => self.begin(),
            Command::Edit(edit) => self.edit(edit),
            Command::Commit => return None,
            Command::Abort => self.abort(),
            Command::Undo => self.undo(),
            Command::Redo => self.redo(),
            Command::Bad => unreachable!(),
        })
    }

    /// Makes the call of a command, without threads. A pin that it adds has a direction.
    pub fn run_alone(&mut self, command: &Command) -> Result<(), SessionFault>
        requires directed { IsDirectedCommand command.now }
        requires form { command.now ≢ commands.Bad }
        ensures call { IsCall command.now result self.old self.new }
        ensures searches { Searches command.now result self.old self.new }
        ensures writes { Writes command.now result self.old self.new }
        ensures refusable { IfErr result (IsRefusable command.now) }
    {
        match self.run_but_commit(command) {
            Some(answer) => answer,
            None => self.commit_alone(),
        }
    }

    /// Makes the call of a command as `run_alone` does, but a commit by at most `workers` searches side by side.
    pub fn run<R: Threads + Sync, G: Gate>(
        &mut self,
        rt: &R,
        command: &Command,
        workers: u32,
        gate: &G,
    ) -> Result<(), SessionFault>
        requires some { 1 ≤ workers }
        requires few { workers ≤ 4 }
        requires directed { IsDirectedCommand command.now }
        requires form { command.now ≢ commands.Bad }
        ensures call { IsCall command.now result self.old self.new }
        ensures searches { Searches command.now result self.old self.new }
        ensures writes { Writes command.now result self.old self.new }
        ensures refusable { IfErr result (IsRefusable command.now) }
    {
        match self.run_but_commit(command) {
            Some(answer) => answer,
            None => self.commit(rt, workers, gate),
        }
    }
}
