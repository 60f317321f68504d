//! Values under keys, and how values are read.
ghost use Rattle.std.specs.Prelude.{◌≡◌, bytes_eq, length, option_and_then, option_map, slice_get};
ghost use Rattle.std.specs.Option.{option_copied};
ghost use Rattle.diagram_read.specs.Classes.{capped};
ghost use Rattle.gml_text.specs.View.{content, pairs};
ghost use Rattle.diagram_read.specs.Values.{as_list, class_of, exact_at, id_of, in_classes, in_range, is_no_number, list_at, milli_of, number_in, value_at, values};
ghost use Rattle.fixed_milli.specs.Value.{signed};
ghost use Rattle.fixed_milli.specs.Whole.{read_whole};

use fixed_milli::{MilliFault, read_milli, read_whole};
use gml_text::{Pair, Value, find};

/// The greatest class.
const MOST_CLASS: u32 = 65_535;

/// Whether the pair has the key.
pub(crate) fn has_key(pair: &Pair, key: &[u8]) -> bool
    ensures { result ≡ bytes_eq pair.now.key key.now }
{
    pair.key.as_slice() == key
}

/// The pairs of the value, if it is a list.
pub(crate) fn as_list(value: &Value) -> Option<&[Pair]>
    ensures { option_map (λ l. pairs l.now) result ≡ as_list (content value.now) }
{
    match value {
        Value::List(inner) => Some(inner.as_slice()),
        Value::Number(_) | Value::Text(_) => None,
    }
}

/// The value of the first pair with the key.
pub(crate) fn value_at<'a>(list: &'a [Pair], key: &[u8]) -> Option<&'a Value>
    ensures { option_map content (option_copied result) ≡ value_at key.now (pairs list.now) }
{
    let index = find(list, key)?;
    Some(&list[index].value)
}

/// The pairs of the value of the first pair with the key, if that is a list.
pub(crate) fn inner_at<'a>(list: &'a [Pair], key: &[u8]) -> Option<&'a [Pair]>
    ensures { option_map (λ l. pairs l.now) result ≡ option_and_then as_list (value_at key.now (pairs list.now)) }
{
    as_list(value_at(list, key)?)
}

/// The value at a place, from 0.
pub(crate) fn value_with(list: &[Pair], place: usize) -> Option<&Value>
    ensures { option_map content (option_copied result) ≡ slice_get (values (pairs list.now)) place }
{
    Some(&list.get(place)?.value)
}

/// The pairs of the first pair with the key whose value is a list.
pub(crate) fn list_at<'a>(list: &'a [Pair], key: &[u8]) -> Option<&'a [Pair]>
    ensures { option_map (λ l. pairs l.now) result ≡ list_at key.now (pairs list.now) }
{
    for pair in list {
        if has_key(pair, key)
            && let Some(inner) = as_list(&pair.value)
        {
            return Some(inner);
        }
    }
    None
}

/// A value in thousandths.
pub(crate) fn milli_of(value: &Value) -> Result<i64, MilliFault>
    ensures { result ≡ milli_of (content value.now) }
{
    match value {
        Value::Number(bytes) => read_milli(bytes.as_slice()),
        Value::Text(_) | Value::List(_) => Err(MilliFault::NotNumber),
    }
}

/// The number under the key; the error is `NotNumber` if the key is missing.
pub(crate) fn number_at(list: &[Pair], key: &[u8]) -> Result<i64, MilliFault>
    ensures { result ≡ number_in (value_at key.now (pairs list.now)) }
{
    match value_at(list, key) {
        Some(value) => milli_of(value),
        None => Err(MilliFault::NotNumber),
    }
}

/// Whether the value is not a number, or is missing.
pub(crate) fn is_no_number(number: Result<i64, MilliFault>) -> bool
    ensures { result ≡ is_no_number number }
{
    matches!(number, Err(MilliFault::NotNumber))
}

/// The number, if it is within the range of those that are read.
pub(crate) fn in_range(number: Result<i64, MilliFault>) -> Option<i64>
    ensures { result ≡ in_range number }
{
    match number {
        Ok(value) => Some(value),
        Err(_) => None,
    }
}

/// The number under the key, if there is one and it is within the range.
pub(crate) fn exact_at(list: &[Pair], key: &[u8]) -> Option<i64>
    ensures { result ≡ exact_at key.now (pairs list.now) }
{
    in_range(number_at(list, key))
}

/// An id: a whole number of 1 to 18 digits.
fn id_of(value: &Value) -> Option<i64>
    ensures { result ≡ id_of (content value.now) }
{
    match value {
        Value::Number(bytes) => read_whole(bytes.as_slice(), 18),
        Value::Text(_) | Value::List(_) => None,
    }
}

/// The id in the value of the first pair with the key.
pub(crate) fn id_at(list: &[Pair], key: &[u8]) -> Option<i64>
    ensures { result ≡ option_and_then id_of (value_at key.now (pairs list.now)) }
{
    id_of(value_at(list, key)?)
}

/// A class: a whole number of any number of digits, from 0 to 65535.
pub(crate) fn class_of(value: &Value) -> Option<u32>
    ensures { result ≡ class_of (content value.now) }
{
    match value {
        Value::Number(bytes) => class_in(bytes.as_slice()),
        Value::Text(_) | Value::List(_) => None,
    }
}

/// The class that a sign and digits spell.
fn class_in(bytes: &[u8]) -> Option<u32>
    ensures { result ≡ option_and_then in_classes (read_whole (length bytes.now) bytes.now) }
{
    let (negative, digits) = split_sign(bytes);
    let class = capped(digits)?;
    if class > MOST_CLASS || (negative && class > 0) {
        return None;
    }
    Some(class)
}

/// Whether a minus comes first, and what follows the sign.
fn split_sign(bytes: &[u8]) -> (bool, &[u8])
    ensures negative { result.0 ≡ (signed bytes.now).0 }
    ensures rest { result.1.now ≡ (signed bytes.now).1 }
{
    match bytes {
        [b'-', rest @ ..] => (true, rest),
        [b'+', rest @ ..] => (false, rest),
        _ => (false, bytes),
    }
}

/// The number that the digits spell, or one more than the greatest class if it is greater.
fn capped(digits: &[u8]) -> Option<u32>
    ensures { result ≡ capped digits.now }
{
    if digits.is_empty() {
        return None;
    }
    let mut number = 0;
    for digit in digits {
        if !digit.is_ascii_digit() {
            return None;
        }
        number = (10 * number + u32::from(digit - b'0')).min(MOST_CLASS + 1);
    }
    Some(number)
}
