//! A command as a call of a drawing's session.
ghost use Rattle.std.specs.Prelude.{◌≢◌, ◌≤◌};
ghost use Rattle.drawing.specs.Drawing.{IsDrawingCall, RollsBack};
ghost use Rattle.scene_model.specs.World.{IsDirectedCommand};
ghost use Rattle.scene_model.specs.declared.edit.Command.TheVariants as commands;

use crate::drawing::Drawing;
use par_route::Gate;
use scene_model::{Command, SessionFault};
use std::thread::Threads;

impl Drawing {
    /// Calls the session as a command says, by this thread alone. A pin that it adds has a direction.
    ///
    /// The error is that of the session; then no transaction is open, and scenes, answers and history are as before it.
    pub fn run(&mut self, command: &Command) -> Result<(), SessionFault>
        requires directed { IsDirectedCommand command.now }
        requires form { command.now ≢ commands.Bad }
        ensures { IsDrawingCall command.now result self.old self.new }
    {
        self.session.run_alone(command)
    }

    /// Calls the session as `run` does, but a commit makes at most `workers` searches side by side.
    pub fn run_with<R: Threads + Sync, G: Gate>(
        &mut self,
        rt: &R,
        command: &Command,
        workers: u32,
        gate: &G,
    ) -> Result<(), SessionFault>
        requires some { 1 ≤ workers }
        requires few_workers { workers ≤ 4 }
        requires directed { IsDirectedCommand command.now }
        requires form { command.now ≢ commands.Bad }
        ensures { IsDrawingCall command.now result self.old self.new }
    {
        self.session.run(rt, command, workers, gate)
    }

    /// Drops the transaction if one is open. Takes no memory.
    pub fn roll_back(&mut self)
        ensures { RollsBack self.old self.new }
    {
        self.session.give_up();
    }
}
