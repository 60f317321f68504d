//! Copies of pairs, with everything in them.
ghost use Rattle.std.specs.Prelude.{◌≡◌, [], ◌∷◌, IfOk, OnOk};
ghost use Rattle.gml_text.specs.Tree.{◌then◌};
ghost use Rattle.gml_text.specs.View.{content, pairs};

use gml_text::{Bytes, Pair, Value};
use std::alloc::{AllocError, Global};

/// A copy of the bytes.
pub(crate) fn bytes_of(alloc: Global, bytes: &[u8]) -> Result<Bytes, AllocError>
    ensures { IfOk result (λ b. b ≡ bytes.now) }
{
    Bytes::from_slice(alloc, bytes)
}

/// A copy of the value. The recursion is as deep as its lists nest.
#[cycle(copies)]
pub(crate) fn copy_value(alloc: Global, value: &Value) -> Result<Value, AllocError>
    ensures { IfOk result (λ v. content v ≡ content value.now) }
{
    match value {
        Value::Number(digits) => Ok(Value::Number(bytes_of(alloc, digits.as_slice())?)),
        Value::Text(text) => Ok(Value::Text(bytes_of(alloc, text.as_slice())?)),
        Value::List(inner) => {
            let mut out = Vec::new(alloc);
            push_copies(alloc, inner, &mut out)?;
            Ok(Value::List(out))
        }
    }
}

/// Appends a copy of the pair.
#[cycle(copies)]
pub(crate) fn push_copy(alloc: Global, pair: &Pair, out: &mut Vec<Pair>) -> Result<(), AllocError>
    ensures { OnOk result (pairs out.new.items ≡ pairs out.old.items then pairs (pair.now ∷ [])) }
{
    let key = bytes_of(alloc, pair.key.as_slice())?;
    let value = copy_value(alloc, &pair.value)?;
    out.push(Pair { key, value })?;
    Ok(())
}

/// Appends copies of the pairs.
#[cycle(copies)]
pub(crate) fn push_copies(
    alloc: Global,
    list: &[Pair],
    out: &mut Vec<Pair>,
) -> Result<(), AllocError>
    ensures { OnOk result (pairs out.new.items ≡ pairs out.old.items then pairs list.now) }
{
    for pair in list {
        push_copy(alloc, pair, out)?;
    }
    Ok(())
}

/// A copy of the pairs. The recursion is as deep as their lists nest.
pub(crate) fn copy_pairs(alloc: Global, list: &[Pair]) -> Result<Vec<Pair>, AllocError>
    ensures { IfOk result (λ v. pairs v.items ≡ pairs list.now) }
{
    let mut out = Vec::new(alloc);
    push_copies(alloc, list, &mut out)?;
    Ok(out)
}
