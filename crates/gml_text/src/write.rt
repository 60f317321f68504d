//! Writing a document in its printed form.

ghost use Rattle.std.specs.Prelude.{◌≡◌, ◌+◌, ◌++◌, ◌≤◌, ◌∷◌, [], IfOk, OnOk};
ghost use Rattle.gml_text.specs.Grammar.{SpellsDocument};
ghost use Rattle.gml_text.specs.Parse.{most_open};
ghost use Rattle.gml_text.specs.Printed.{indent, printed, printed_inside, printed_value, IsPrintable};
ghost use Rattle.gml_text.specs.Tree.{depth, value_depth, pair};
ghost use Rattle.gml_text.specs.View.{content, pairs, tree};

use crate::tree::{Bytes, Doc, Pair, Value};
use std::alloc::{AllocError, Global};

/// The indent of a line inside `level` open lists.
fn put_indent(out: &mut Vec<u8>, level: usize) -> Result<(), AllocError>
    ensures { OnOk result (out.new.items ≡ out.old.items ++ indent level) }
{
    for _ in 0..level {
        out.extend_from_slice(b"  ")?;
    }
    Ok(())
}

/// A string in quotes.
fn put_text(out: &mut Vec<u8>, text: &Bytes) -> Result<(), AllocError>
    ensures { OnOk result (out.new.items ≡ out.old.items ++ 34 ∷ (text.now ++ 34 ∷ [])) }
{
    out.push(b'"')?;
    out.extend_from_slice(text.as_slice())?;
    out.push(b'"')?;
    Ok(())
}

/// The value of a key, inside `level` open lists.
#[cycle(lines)]
fn put_value(out: &mut Vec<u8>, value: &Value, level: usize) -> Result<(), AllocError>
    requires { value_depth (content value.now) + level ≤ most_open }
    ensures { OnOk result (out.new.items ≡ out.old.items ++ printed_value level (content value.now)) }
{
    match value {
        Value::Number(digits) => out.extend_from_slice(digits.as_slice()),
        Value::Text(text) => put_text(out, text),
        Value::List(inner) => {
            out.extend_from_slice(b"[\n")?;
            put_lines(out, inner, level + 1)?;
            put_indent(out, level)?;
            out.push(b']')?;
            Ok(())
        }
    }
}

/// The line or lines of a pair, inside `level` open lists.
#[cycle(lines)]
fn put_pair(out: &mut Vec<u8>, pair: &Pair, level: usize) -> Result<(), AllocError>
    requires { depth (pairs (pair.now ∷ [])) + level ≤ most_open }
    ensures { OnOk result (out.new.items ≡ out.old.items ++ printed_inside level (pairs (pair.now ∷ []))) }
{
    put_indent(out, level)?;
    out.extend_from_slice(pair.key.as_slice())?;
    out.push(b' ')?;
    put_value(out, &pair.value, level)?;
    out.push(b'\n')?;
    Ok(())
}

/// The lines of the pairs, inside `level` open lists.
#[cycle(lines)]
fn put_lines(out: &mut Vec<u8>, list: &[Pair], level: usize) -> Result<(), AllocError>
    requires { depth (pairs list.now) + level ≤ most_open }
    ensures { OnOk result (out.new.items ≡ out.old.items ++ printed_inside level (pairs list.now)) }
{
    for pair in list {
        put_pair(out, pair, level)?;
    }
    Ok(())
}

/// Appends a document in its printed form. The only error is out of memory, which can leave the
/// beginning of the text appended.
///
/// Each pair is on its own line, after two spaces for each open list, with one space between its
/// key and its value. A list opens on the line of its key and closes on its own line. Each line
/// ends with a line feed. All bytes of keys, numbers and strings are kept; a document contains no
/// comments and no layout of a source.
///
/// The document's keys, numbers and strings have to follow the grammar, with at most 64 open lists.
/// Every document that `parse` returns does.
pub fn push_printed(out: &mut Vec<u8>, doc: &Doc) -> Result<(), AllocError>
    requires { IsPrintable (tree doc.now) }
    ensures { OnOk result (out.new.items ≡ out.old.items ++ printed (tree doc.now)) }
{
    put_lines(out, &doc.pairs, 0)
}

/// The text that `push_printed` appends. The only error is out of memory.
pub fn print(alloc: Global, doc: &Doc) -> Result<Vec<u8>, AllocError>
    requires { IsPrintable (tree doc.now) }
    ensures printed { IfOk result (λ out. out.items ≡ printed (tree doc.now)) }

    // So the result is read again as the same tree.
    ensures spelled { IfOk result (λ out. SpellsDocument (tree doc.now) out.items) }
{
    let mut out = Vec::new(alloc);
    push_printed(&mut out, doc)?;
    Ok(out)
}
