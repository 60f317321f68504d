//! The commands that are generated from a seed.
ghost use Rattle.std.specs.Prelude.{◌≡◌, IfOk, OnOk, [], ◌∷◌, ◌++◌};
ghost use Rattle.form_make.specs.Draws.{state_after};
ghost use Rattle.form_make.specs.Made.{made_commands, made_move};

use crate::draws::Draws;
use crate::scene::{node_id, units};
use scene_model::{Command, Edit};
use std::alloc::{AllocError, Global};

/// A random move: some node to some place.
fn drawn_move(draws: &mut Draws) -> Edit
    ensures edit { result ≡ made_move draws.old.state 0 }
    ensures draws { draws.new.state ≡ state_after draws.old.state 3 }
{
    let id = node_id(draws.below(36));
    let x = units(draws.below(1200));
    let y = units(draws.below(1200));
    Edit::MoveNode { id, x, y }
}

/// Appends a transaction of one edit. The only error is out of memory.
fn push_transaction(commands: &mut Vec<Command>, edit: Edit) -> Result<(), AllocError>
    ensures { OnOk result (commands.new.items
        ≡ commands.old.items ++ Command.Begin ∷ Command.Edit edit ∷ Command.Commit ∷ []) }
{
    commands.push(Command::Begin)?;
    commands.push(Command::Edit(edit))?;
    commands.push(Command::Commit)?;
    Ok(())
}

/// The commands that are generated from the seed, to be replayed on its scene: 12 transactions of
/// one move each, and an undo after each third one. The only error is out of memory.
pub fn made_commands(alloc: Global, seed: u64) -> Result<Vec<Command>, AllocError>
    ensures { IfOk result (λ commands. commands.items ≡ made_commands seed) }
{
    let mut draws = Draws::from_seed(seed);
    draws.skip(240);
    let mut commands = Vec::new(alloc);
    for place in 0..12_u32 {
        push_transaction(&mut commands, drawn_move(&mut draws))?;
        if place % 3 == 2 {
            commands.push(Command::Undo)?;
        }
    }
    Ok(commands)
}
