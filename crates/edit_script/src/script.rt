//! The lines of a script, and their words.
ghost use Rattle.std.specs.Prelude.{◌≡◌, IfOk, map};
ghost use Rattle.std.specs.Str.Lines.{strip_carriage_return};
ghost use Rattle.edit_script.specs.Script.{command_of, commands, words};

use crate::forms::form_of;
use scene_model::Command;
use std::alloc::{AllocError, Global};

/// One more than the number of words in the longest form.
const MOST_WORDS: usize = 7;

/// The commands of a script, each with the number of its line, counted from 1.
///
/// A line ends at a line feed or at the end of the script, and one carriage return at its end is
/// dropped. A line without words, or whose first word begins with `#`, has no command; any other
/// line that is no valid command has `Bad`. The work is linear in the number of bytes. The only
/// error is out of memory.
pub fn commands(alloc: Global, bytes: &[u8]) -> Result<Vec<(usize, Command)>, AllocError>
    ensures { IfOk result (λ list. list.items ≡ commands bytes.now) }
{
    let mut list = Vec::new(alloc);
    for (index, line) in bytes.split(|byte| *byte == b'\n').enumerate() {
        if let Some(command) = command_in(line) {
            list.push((index + 1, command))?;
        }
    }
    Ok(list)
}

/// The words of a line, which spaces and tabs separate, without one carriage return at its end.
///
/// The only error is out of memory.
pub fn words(alloc: Global, line: &[u8]) -> Result<Vec<&[u8]>, AllocError>
    ensures { IfOk result (λ list. map (λ w. w.now) list.items ≡ words line.now) }
{
    let mut list = Vec::new(alloc);
    for word in without_return(line)
        .split(|byte| *byte == b' ' || *byte == b'\t')
        .filter(|word| !word.is_empty())
    {
        list.push(word)?;
    }
    Ok(list)
}

/// The command of a line, if it has one.
fn command_in(line: &[u8]) -> Option<Command>
    ensures { result ≡ command_of (words line.now) }
{
    let mut words: [&[u8]; MOST_WORDS] = [&[]; MOST_WORDS];
    let mut count = 0;
    for word in without_return(line)
        .split(|byte| *byte == b' ' || *byte == b'\t')
        .filter(|word| !word.is_empty())
        .take(MOST_WORDS)
    {
        words[count] = word;
        count += 1;
    }
    command_of(&words[..count])
}

/// The line without one carriage return at its end.
fn without_return(line: &[u8]) -> &[u8]
    ensures { result.now ≡ strip_carriage_return line.now }
{
    match line {
        [front @ .., b'\r'] => front,
        _ => line,
    }
}

/// The command of the words of a line, if it has one.
fn command_of(words: &[&[u8]]) -> Option<Command>
    ensures { result ≡ command_of (map (λ w. w.now) words.now) }
{
    let (name, args) = words.split_first()?;
    if let [b'#', ..] = name {
        return None;
    }
    Some(form_of(name, args).unwrap_or(Command::Bad))
}
