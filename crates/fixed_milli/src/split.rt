//! Splits of bytes by sign, digits, point and exponent.

ghost use Rattle.std.specs.Prelude.{MatchOption, Bool, List, ℕ};
ghost use Rattle.fixed_milli.specs.Number.{IsExponent};
ghost use Rattle.fixed_milli.specs.Split.{SplitsSign, SplitsDigits, SplitsFraction};

/// Whether a minus comes first, and what follows the sign.
pub(crate) fn split_sign(bytes: &[u8]) -> (bool, &[u8])
    ensures { SplitsSign bytes.now result.0 result.1.now }
{
    match bytes {
        [b'-', rest @ ..] => (true, rest),
        [b'+', rest @ ..] => (false, rest),
        _ => (false, bytes),
    }
}

/// The leading digits, and what follows them.
pub(crate) fn split_digits(bytes: &[u8]) -> (&[u8], &[u8])
    ensures { SplitsDigits bytes.now result.0.now result.1.now }
{
    let mut count = 0;
    for byte in bytes {
        if !byte.is_ascii_digit() {
            break;
        }
        count += 1;
    }
    bytes.split_at(count)
}

/// The digits after a leading point, if there is one, and what follows them.
pub(crate) fn split_fraction(bytes: &[u8]) -> (&[u8], &[u8])
    ensures { SplitsFraction bytes.now result.0.now result.1.now }
{
    match bytes {
        [b'.', rest @ ..] => split_digits(rest),
        _ => (&[], bytes),
    }
}

/// Whether the exponent is negative, and its digits. No bytes stand for an omitted exponent, with
/// no digits; bytes that are no exponent give `None`.
pub(crate) fn split_exponent(bytes: &[u8]) -> Option<(bool, &[u8])>
    ensures { MatchOption result ((negative : Bool) (digits : List ℕ) → IsExponent bytes.now negative digits → ⊥)
        (λ e. IsExponent bytes.now e.0 e.1.now) }
{
    let Some((mark, rest)) = bytes.split_first() else {
        return Some((false, bytes));
    };
    if *mark != b'e' && *mark != b'E' {
        return None;
    }
    let (negative, unsigned) = split_sign(rest);
    let (digits, end) = split_digits(unsigned);
    if digits.is_empty() || !end.is_empty() {
        return None;
    }
    Some((negative, digits))
}
