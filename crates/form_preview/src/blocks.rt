//! The proposals of a script: blocks of `begin`, edits and `commit`.
ghost use Rattle.std.specs.Prelude.{◌≡◌, ◌<◌, IfOk};
ghost use Rattle.scene_model.specs.declared.edit.Command.TheVariants as commands;
ghost use Rattle.form_preview.specs.Blocks.{blocks_of, ended, too_many};
ghost use Rattle.form_preview.specs.Reading.{ReadsAll, ReadsOn, blocks_in, read_by};

use preview::{MOST_PROPOSALS, Proposal};
use report_text::Refusal;
use scene_model::{Command, Edit, Edits, SceneFault, SessionFault};
use std::alloc::{AllocError, Global};

/// What a script proposes.
#[derive(Drop)]
pub(crate) enum Script {
    /// It has blocks alone, and each is a proposal.
    Proposals(Vec<Proposal>),
    /// The command on this line is refused.
    Refused { line: u64, why: Refusal },
    /// The last block has no `commit`.
    Unfinished,
}

/// What was read of a script: the blocks that are closed, and the edits of the open one.
#[derive(Drop)]
struct Reader {
    alloc: Global,
    closed: Vec<Proposal>,
    current: Option<Vec<Edit>>,
}

/// The refusal of a 65th block.
fn too_many() -> Refusal
    ensures { result ≡ too_many }
{
    Refusal::Command(SessionFault::Edit(SceneFault::TooMany {
        limit: MOST_PROPOSALS as u32,
    }))
}

impl Reader {
    /// Reads a `begin`, or says why it is refused.
    fn begin(&mut self) -> Result<Option<Refusal>, AllocError>
        ensures { IfOk result (ReadsOn commands.Begin self.old self.new) }
    {
        if self.current.is_some() {
            return Ok(Some(Refusal::Syntax));
        }
        if self.closed.len() >= MOST_PROPOSALS {
            return Ok(Some(too_many()));
        }
        self.current = Some(Vec::new(self.alloc));
        Ok(None)
    }

    /// Reads an edit, or says why it is refused.
    fn edit(&mut self, edit: &Edit) -> Result<Option<Refusal>, AllocError>
        ensures { IfOk result (ReadsOn (commands.Edit edit.now) self.old self.new) }
    {
        let Some(edits) = &mut self.current else {
            return Ok(Some(Refusal::Syntax));
        };
        edits.push(*edit)?;
        Ok(None)
    }

    /// Reads a `commit`, or says why it is refused.
    fn commit(&mut self) -> Result<Option<Refusal>, AllocError>
        ensures { IfOk result (ReadsOn commands.Commit self.old self.new) }
    {
        let Some(edits) = self.current.take() else {
            return Ok(Some(Refusal::Syntax));
        };
        self.closed.push(Proposal {
            edits: Edits(edits),
        })?;
        Ok(None)
    }

    /// Reads a command, or says why it is refused.
    fn read(&mut self, command: &Command) -> Result<Option<Refusal>, AllocError>
        ensures { IfOk result (ReadsOn command.now self.old self.new) }
    {
        match command {
            Command::Begin => self.begin(),
            Command::Edit(edit) => self.edit(edit),
            Command::Commit => self.commit(),
            Command::Abort | Command::Undo | Command::Redo | Command::Bad => {
                Ok(Some(Refusal::Syntax))
            }
        }
    }

    /// Reads the commands up to the first that is refused, whose line it returns with the refusal.
    fn read_all(
        &mut self,
        commands: &[(usize, Command)],
    ) -> Result<Option<(u64, Refusal)>, AllocError>
        ensures { IfOk result (ReadsAll commands.now self.old self.new) }
    {
        for (line, command) in commands {
            match self.read(command)? {
                None => {}
                Some(why) => return Ok(Some((*line as u64, why))),
            }
        }
        Ok(None)
    }

    /// What the script proposes that ended here.
    fn ended(self) -> Script
        ensures { blocks_in result ≡ ended (read_by self).closed (read_by self).current }
    {
        let Reader {
            closed,
            current,
            ..
        } = self;
        match current {
            Some(_) => Script::Unfinished,
            None => Script::Proposals(closed),
        }
    }
}

/// What the commands propose, each with the number of its line.
pub(crate) fn read_script(
    alloc: Global,
    commands: &[(usize, Command)],
) -> Result<Script, AllocError>
    ensures { IfOk result (λ s. blocks_in s ≡ blocks_of commands.now) }
{
    let mut reader = Reader {
        alloc,
        closed: Vec::new(alloc),
        current: None,
    };
    let stop = reader.read_all(commands);
    let ended = reader.ended();
    match stop? {
        Some((line, why)) => Ok(Script::Refused { line, why }),
        None => Ok(ended),
    }
}
