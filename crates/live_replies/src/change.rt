//! The lines that changed.
ghost use Rattle.std.specs.Prelude.{◌≡◌, ◌++◌, [], ◌∷◌, OnOk, length};
ghost use Rattle.std.specs.List.{flat_map};
ghost use Rattle.live_replies.specs.Changes.{changes, changes_text, drawn_of};
ghost use Rattle.live_replies.specs.Texts.{gone_text};

use crate::line::{push_drawn, push_gone};
use drawing::Compared;
use std::alloc::AllocError;
use walk_model::WrittenRoute;

/// Appends which connectors are gone.
fn push_all_gone(out: &mut Vec<u8>, gone: &[u32]) -> Result<(), AllocError>
    ensures { OnOk result (out.new.items ≡ out.old.items ++ flat_map gone_text gone.now) }
{
    for edge in gone {
        push_gone(out, *edge)?;
    }
    Ok(())
}

/// Appends the line, if it changed.
fn push_if_changed(out: &mut Vec<u8>, line: &WrittenRoute, changed: bool) -> Result<(), AllocError>
    ensures { OnOk result (out.new.items ≡ out.old.items ++ changes_text (drawn_of (line.now ∷ []) (changed ∷ []))) }
{
    if !changed {
        return Ok(());
    }
    push_drawn(out, line)
}

/// Appends the lines that changed.
fn push_all_changed(
    out: &mut Vec<u8>,
    lines: &[WrittenRoute],
    changed: &[bool],
) -> Result<(), AllocError>
    requires { length changed.now ≡ length lines.now }
    ensures { OnOk result (out.new.items ≡ out.old.items ++ changes_text (drawn_of lines.now changed.now)) }
{
    for (place, line) in lines.iter().enumerate() {
        push_if_changed(out, line, changed[place])?;
    }
    Ok(())
}

/// Appends the connectors that are gone and the lines that changed, one line each.
pub(crate) fn push_changes(out: &mut Vec<u8>, compared: &Compared) -> Result<(), AllocError>
    ensures { OnOk result (out.new.items ≡ out.old.items ++ changes_text (changes compared.now)) }
{
    push_all_gone(out, compared.gone())?;
    push_all_changed(out, compared.lines(), compared.changed())
}
