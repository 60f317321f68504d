//! Looking for a pair by its key.

ghost use Rattle.std.specs.Prelude.{◌≡◌, ◌≢◌, ◌<◌, ℕ, IfSome, IfNone, Some, slice_get};
ghost use Rattle.gml_text.specs.Tree.{keys};
ghost use Rattle.gml_text.specs.View.{pairs};

use crate::tree::Pair;

/// The index, from 0, of the first pair with this key, if there is one. Takes no memory.
pub fn find(list: &[Pair], key: &[u8]) -> Option<usize>
    ensures found { IfSome result (λ index. slice_get (keys (pairs list.now)) index ≡ Some key.now) }
    ensures first { IfSome result (λ index. (k : ℕ) → k < index → slice_get (keys (pairs list.now)) k ≢ Some key.now) }
    ensures none { IfNone result ((k : ℕ) → slice_get (keys (pairs list.now)) k ≢ Some key.now) }
{
    for (index, pair) in list.iter().enumerate() {
        if pair.key.as_slice() == key {
            return Some(index);
        }
    }
    None
}
