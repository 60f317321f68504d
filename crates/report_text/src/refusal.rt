//! Why a line of a script, or its end, is refused.
ghost use Rattle.std.specs.Prelude.{◌≡◌, ◌++◌, OnErr, OnOk, decimal};
ghost use Rattle.std.specs.Fmt.{signed_decimal};
ghost use Rattle.report_text.specs.Refusals.{command_text, edit_text, refusal_text};

use crate::number::{push_numbered, push_signed};
use scene_model::{SceneFault, SessionFault};
use std::alloc::AllocError;

/// Why a line of a script, or its end, is refused.
#[derive(Clone, Copy, Debug, PartialEq, Eq)]
pub enum Refusal {
    /// The line is not a valid command.
    Syntax,
    /// The command or its edit is refused.
    Command(SessionFault),
    /// The script ends with an open transaction.
    Unfinished,
}

/// Appends a refusal's code, its name and its value, if it has one.
pub fn push_refusal(out: &mut Vec<u8>, why: &Refusal) -> Result<(), AllocError>
    ensures ok { OnOk result (out.new.items ≡ out.old.items ++ refusal_text why.now) }
    ensures err { OnErr result (out.new.items ≡ out.old.items) }
{
    let mut text = Vec::new(*out.allocator());
    match why {
        Refusal::Syntax => text.extend_from_slice(b"X1 Syntax")?,
        Refusal::Command(fault) => push_command(&mut text, fault)?,
        Refusal::Unfinished => text.extend_from_slice(b"X16 Unfinished")?,
    }
    out.extend_from_slice(&text)
}

fn push_command(out: &mut Vec<u8>, fault: &SessionFault) -> Result<(), AllocError>
    ensures { OnOk result (out.new.items ≡ out.old.items ++ command_text fault.now) }
{
    match fault {
        SessionFault::NoTransaction => out.extend_from_slice(b"X2 NoTransaction"),
        SessionFault::AlreadyOpen => out.extend_from_slice(b"X3 AlreadyOpen"),
        SessionFault::NothingToUndo => out.extend_from_slice(b"X14 NothingToUndo"),
        SessionFault::NothingToRedo => out.extend_from_slice(b"X15 NothingToRedo"),
        SessionFault::Edit(fault) => push_edit(out, fault),
        SessionFault::Memory => Ok(()),
    }
}

pub(crate) fn push_edit(out: &mut Vec<u8>, fault: &SceneFault) -> Result<(), AllocError>
    ensures { OnOk result (out.new.items ≡ out.old.items ++ edit_text fault.now) }
{
    match fault {
        SceneFault::UnknownNode { id } => push_with_id(out, b"X4 UnknownNode ", id),
        SceneFault::UnknownEdge { number } => push_with(out, b"X5 UnknownEdge ", *number),
        SceneFault::NodeExists { id } => push_with_id(out, b"X6 NodeExists ", id),
        SceneFault::NodeInUse { edge } => push_with(out, b"X7 NodeInUse ", *edge),
        SceneFault::SameNode { id } => push_with_id(out, b"X8 SameNode ", id),
        SceneFault::OutOfRange { word } => push_with(out, b"X9 OutOfRange ", *word),
        SceneFault::PinOutside { place } => push_with(out, b"X10 PinOutside ", *place),
        SceneFault::UnknownPinClass { class } => push_with(out, b"X11 UnknownPinClass ", *class),
        SceneFault::NoSuchPlace { place } => push_with(out, b"X12 NoSuchPlace ", *place),
        SceneFault::TooMany { limit } => push_with(out, b"X13 TooMany ", *limit),
        SceneFault::PinInUse { edge } => push_with(out, b"X17 PinInUse ", *edge),
        SceneFault::Memory => Ok(()),
    }
}

/// Appends a text, followed by a value.
fn push_with(out: &mut Vec<u8>, text: &[u8], value: u32) -> Result<(), AllocError>
    ensures { OnOk result (out.new.items ≡ out.old.items ++ (text.now ++ decimal value)) }
{
    push_numbered(out, text, u64::from(value))
}

/// Appends a text, followed by an id.
fn push_with_id(out: &mut Vec<u8>, text: &[u8], id: &i64) -> Result<(), AllocError>
    ensures { OnOk result (out.new.items ≡ out.old.items ++ (text.now ++ signed_decimal id.now)) }
{
    out.extend_from_slice(text)?;
    push_signed(out, *id)
}
