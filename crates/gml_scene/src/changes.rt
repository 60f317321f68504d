//! Changes of a list of pairs.
ghost use Rattle.std.specs.Prelude.{◌≡◌, ◌&&◌, OnOk, bytes_eq, filter, is_some, not};
ghost use Rattle.gml_text.specs.Tree.{◌then◌};
ghost use Rattle.gml_text.specs.View.{content, pairs};
ghost use Rattle.diagram_read.specs.Values.{list_at};
ghost use Rattle.gml_scene.specs.Changes.{is_list, list_place, one, put, put_only, without};

use crate::copies::bytes_of;
use gml_text::{Pair, Value, find};
use std::alloc::{AllocError, Global};

/// Whether the pair has the key.
pub(crate) fn has_key(pair: &Pair, key: &[u8]) -> bool
    ensures { result ≡ bytes_eq pair.now.key key.now }
{
    pair.key.as_slice() == key
}

/// Appends a pair.
pub(crate) fn push(
    alloc: Global,
    list: &mut Vec<Pair>,
    key: &[u8],
    value: Value,
) -> Result<(), AllocError>
    ensures { OnOk result (pairs list.new.items ≡ pairs list.old.items then one key.now (content value)) }
{
    let key = bytes_of(alloc, key)?;
    list.push(Pair { key, value })?;
    Ok(())
}

/// Replaces the value of the first pair of the key; appends a pair if there is none.
pub(crate) fn put(
    alloc: Global,
    list: &mut Vec<Pair>,
    key: &[u8],
    value: Value,
) -> Result<(), AllocError>
    ensures { OnOk result (pairs list.new.items ≡ put key.now (content value) (pairs list.old.items)) }
{
    match find(list, key) {
        Some(index) => {
            list[index].value = value;
            Ok(())
        }
        None => push(alloc, list, key, value),
    }
}

/// Removes all pairs of the key.
pub(crate) fn remove_all(list: &mut Vec<Pair>, key: &[u8])
    ensures items { list.new.items ≡ filter (λ p. not (bytes_eq p.key key.now)) list.old.items }
    ensures pairs { pairs list.new.items ≡ without key.now (pairs list.old.items) }
{
    list.retain(|pair| !has_key(pair, key));
}

/// Replaces the value of the first pair of the key and removes any further one; appends a pair if
/// there is none.
pub(crate) fn put_only(
    alloc: Global,
    list: &mut Vec<Pair>,
    key: &[u8],
    value: Value,
) -> Result<(), AllocError>
    ensures { OnOk result (pairs list.new.items ≡ put_only key.now (content value) (pairs list.old.items)) }
{
    let Some(index) = find(list, key) else {
        return push(alloc, list, key, value);
    };
    remove_all(list, key);
    let key = bytes_of(alloc, key)?;
    list.insert(index, Pair { key, value })?;
    Ok(())
}

/// Whether the pair has the key, and its value is a list.
fn is_list_of(pair: &Pair, key: &[u8]) -> bool
    ensures { result ≡ (bytes_eq pair.now.key key.now && is_list (content pair.now.value)) }
{
    has_key(pair, key) && matches!(pair.value, Value::List(_))
}

/// The index of the first pair of the key whose value is a list.
pub(crate) fn list_place(list: &[Pair], key: &[u8]) -> Option<usize>
    ensures { result ≡ list_place key.now (pairs list.now) }
{
    for (index, pair) in list.iter().enumerate() {
        if is_list_of(pair, key) {
            return Some(index);
        }
    }
    None
}

/// Whether a pair of the key has a list.
pub(crate) fn has_list(list: &[Pair], key: &[u8]) -> bool
    ensures { result ≡ is_some (list_at key.now (pairs list.now)) }
{
    list_place(list, key).is_some()
}
