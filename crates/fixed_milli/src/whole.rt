//! Whole numbers of few digits, such as ids.

ghost use Rattle.std.specs.Prelude.{◌≡◌, ◌≤◌};
ghost use Rattle.fixed_milli.specs.Whole.{read_whole};

use crate::digits::{with_digits, with_sign};
use crate::split::{split_digits, split_sign};

/// Reads a whole number: an optional sign `+` or `-`, and 1 to `most` digits.
///
/// The result is the number that the digits spell, with leading zeros allowed, and `None` exactly
/// if the bytes are not of this form. `most` is at most 18, so that each such number fits. Takes no
/// memory.
pub fn read_whole(lexeme: &[u8], most: usize) -> Option<i64>
    requires { most ≤ 18 }
    ensures { result ≡ read_whole most lexeme.now }
{
    let (negative, unsigned) = split_sign(lexeme);
    let (digits, rest) = split_digits(unsigned);
    if digits.is_empty() || digits.len() > most || !rest.is_empty() {
        return None;
    }
    Some(with_sign(negative, with_digits(0, digits, u64::MAX)))
}
