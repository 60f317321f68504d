//! Scripts, played up to the first command that is refused.
ghost use Rattle.std.specs.Prelude.{◌≡◌, IfOk, OnErr};
ghost use Rattle.edit_script.specs.Script.{commands};
ghost use Rattle.scene_model.specs.World.{IsDirectedCommand};
ghost use Rattle.session_model.specs.Calls.{AreDirected};
ghost use Rattle.drawing.specs.Played.{IsCommandPlayed, IsPlayed};

use crate::drawing::Drawing;
use edit_script::{commands, scripts_have_directions};
use scene_model::{Command, SessionFault};
use std::alloc::{AllocError, Global};

/// Why a command is refused.
#[derive(Debug, Drop)]
pub enum Why {
    /// The line is not a valid command.
    NoForm,
    /// The session refuses it, or memory ran out in it.
    Refused(SessionFault),
}

/// The first command of a script that is refused.
#[derive(Debug, Drop)]
pub struct Stopped {
    /// The number of its line, from 1.
    pub line: usize,
    pub why: Why,
}

impl Drawing {
    /// Makes the call of a command, or drops the transaction where the line is not a valid command. Returns why it is
    /// refused, if it is.
    fn answer(&mut self, command: &Command) -> Option<Why>
        requires { IsDirectedCommand command.now }
        ensures { IsCommandPlayed command.now result self.old self.new }
    {
        if matches!(command, Command::Bad) {
            self.roll_back();
            return Some(Why::NoForm);
        }
        match self.run(command) {
            Ok(()) => None,
            Err(fault) => Some(Why::Refused(fault)),
        }
    }

    /// Makes the calls of the commands, each with the number of its line, up to the first that is refused.
    fn play_commands(&mut self, commands: &[(usize, Command)]) -> Option<Stopped>
        requires { AreDirected commands.now }
        ensures { IsPlayed commands.now result self.old self.new }
    {
        for (line, command) in commands {
            if let Some(why) = self.answer(command) {
                return Some(Stopped { line: *line, why });
            }
        }
        None
    }

    /// Plays a script up to its first command that is refused, and answers which that is. A transaction that is open at the
    /// end stays open.
    ///
    /// The error is out of memory before the first command; then everything is as it was.
    pub fn play(&mut self, alloc: Global, script: &[u8]) -> Result<Option<Stopped>, AllocError>
        ensures ok { IfOk result (λ stopped. IsPlayed (commands script.now) stopped self.old self.new) }
        ensures err { OnErr result (self.new ≡ self.old) }
    {
        scripts_have_directions();
        let list = commands(alloc, script)?;
        Ok(self.play_commands(&list))
    }
}
