//! The lines in the report of a replay for the opening, for each command and for the end of the
//! script.
ghost use Rattle.std.specs.Prelude.{◌≡◌, ◌++◌, OnErr, OnOk, true};
ghost use Rattle.report_text.specs.Replies.{end_line, open_line, reply_lines, reply_text};

use crate::number::push_numbered;
use crate::refusal::{Refusal, push_refusal};
use std::alloc::AllocError;

/// The result of a command.
#[derive(Clone, Copy, Debug, PartialEq, Eq)]
pub enum Reply {
    /// It succeeded, and searched nothing.
    Kept,
    /// It was a commit, an undo or a redo, succeeded, and searched this number of connectors.
    Searched(u64),
    /// It was refused.
    Refused(Refusal),
}

/// The result of the command on this line of the script, counted from 1.
#[derive(Clone, Copy, Debug, PartialEq, Eq)]
pub struct LineReply {
    pub line: u64,
    pub reply: Reply,
}

/// Appends the line of the opening, which searched `searched` connectors, if `count` asks for the
/// numbers of searches.
pub fn push_open_line(out: &mut Vec<u8>, count: bool, searched: u64) -> Result<(), AllocError>
    ensures ok { OnOk result (out.new.items ≡ out.old.items ++ open_line count searched) }
    ensures err { OnErr result (out.new.items ≡ out.old.items) }
{
    if !count {
        return Ok(());
    }
    let mut text = Vec::new(*out.allocator());
    push_numbered(&mut text, b"# open: searched ", searched)?;
    text.push(b'\n')?;
    out.extend_from_slice(&text)
}

/// Appends the lines of the commands that were refused and, if `count`, of those that searched.
pub fn push_reply_lines(
    out: &mut Vec<u8>,
    count: bool,
    replies: &[LineReply],
) -> Result<(), AllocError>
    ensures ok { OnOk result (out.new.items ≡ out.old.items ++ reply_lines count replies.now) }
    ensures err { OnErr result (out.new.items ≡ out.old.items) }
{
    let mut text = Vec::new(*out.allocator());
    for reply in replies {
        push_reply(&mut text, count, reply)?;
    }
    out.extend_from_slice(&text)
}

fn push_reply(out: &mut Vec<u8>, count: bool, reply: &LineReply) -> Result<(), AllocError>
    ensures { OnOk result (out.new.items ≡ out.old.items ++ reply_text count reply.now.line reply.now.reply) }
{
    match &reply.reply {
        Reply::Kept => Ok(()),
        Reply::Searched(searched) if count => push_searched(out, reply.line, *searched),
        Reply::Searched(_) => Ok(()),
        Reply::Refused(why) => push_refused(out, reply.line, why),
    }
}

fn push_searched(out: &mut Vec<u8>, line: u64, searched: u64) -> Result<(), AllocError>
    ensures { OnOk result (out.new.items ≡ out.old.items ++ reply_text true line (Reply.Searched searched)) }
{
    push_numbered(out, b"# line ", line)?;
    push_numbered(out, b": searched ", searched)?;
    out.push(b'\n')?;
    Ok(())
}

fn push_refused(out: &mut Vec<u8>, line: u64, why: &Refusal) -> Result<(), AllocError>
    ensures { OnOk result (out.new.items ≡ out.old.items ++ reply_text true line (Reply.Refused why.now)) }
{
    push_numbered(out, b"# line ", line)?;
    out.extend_from_slice(b": ")?;
    push_refusal(out, why)?;
    out.push(b'\n')?;
    Ok(())
}

/// Appends the line for a transaction that is still open at the end of the script, if there is one.
pub fn push_end_line(out: &mut Vec<u8>, open_still: bool) -> Result<(), AllocError>
    ensures ok { OnOk result (out.new.items ≡ out.old.items ++ end_line open_still) }
    ensures err { OnErr result (out.new.items ≡ out.old.items) }
{
    if !open_still {
        return Ok(());
    }
    let mut text = Vec::new(*out.allocator());
    text.extend_from_slice(b"# end: ")?;
    push_refusal(&mut text, &Refusal::Unfinished)?;
    text.push(b'\n')?;
    out.extend_from_slice(&text)
}
