//! The texts of replies.
ghost use Rattle.std.specs.Prelude.{◌≡◌, ◌++◌, IfOk};
ghost use Rattle.live_replies.specs.Changes.{changes, changes_text};
ghost use Rattle.live_replies.specs.Texts.{connector_text, drawn_texts, gml_text, next_text, ok_line};

use crate::change::push_changes;
use crate::line::{push_all_drawn, push_connector, push_gml, push_next, push_ok};
use drawing::Compared;
use std::alloc::{AllocError, Global};
use walk_model::WrittenRoute;

/// The text that reports what changed.
pub(crate) fn changes_text(alloc: Global, compared: &Compared) -> Result<Vec<u8>, AllocError>
    ensures { IfOk result (λ text. text.items ≡ changes_text (changes compared.now) ++ ok_line) }
{
    let mut text = Vec::new(alloc);
    push_changes(&mut text, compared)?;
    push_ok(&mut text)?;
    Ok(text)
}

/// The text that reports all lines.
pub(crate) fn lines_text(alloc: Global, lines: &[WrittenRoute]) -> Result<Vec<u8>, AllocError>
    ensures { IfOk result (λ text. text.items ≡ drawn_texts lines.now ++ ok_line) }
{
    let mut text = Vec::new(alloc);
    push_all_drawn(&mut text, lines)?;
    push_ok(&mut text)?;
    Ok(text)
}

/// The text that reports a diagram.
pub(crate) fn gml_text(alloc: Global, diagram: &[u8]) -> Result<Vec<u8>, AllocError>
    ensures { IfOk result (λ text. text.items ≡ gml_text diagram.now ++ ok_line) }
{
    let mut text = Vec::new(alloc);
    push_gml(&mut text, diagram)?;
    push_ok(&mut text)?;
    Ok(text)
}

/// The text that reports the number of the next connector.
pub(crate) fn next_text(alloc: Global, number: u32) -> Result<Vec<u8>, AllocError>
    ensures { IfOk result (λ text. text.items ≡ next_text number ++ ok_line) }
{
    let mut text = Vec::new(alloc);
    push_next(&mut text, number)?;
    push_ok(&mut text)?;
    Ok(text)
}

/// The text that reports which number a connector got that was moved.
pub(crate) fn connector_text(alloc: Global, number: u32) -> Result<Vec<u8>, AllocError>
    ensures { IfOk result (λ text. text.items ≡ connector_text number ++ ok_line) }
{
    let mut text = Vec::new(alloc);
    push_connector(&mut text, number)?;
    push_ok(&mut text)?;
    Ok(text)
}
