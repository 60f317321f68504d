//! Digits that are counted up to a limit.

ghost use Rattle.std.specs.Prelude.{◌≡◌, ◌≤◌, ◌<◌, ◌+◌, ◌*◌, ◌^◌, min};
ghost use Rattle.std.specs.Str.Parse.{AllDigits, digits_value_after};
ghost use Rattle.fixed_milli.specs.Digits.{carry};
ghost use Rattle.fixed_milli.specs.Milli.{with_sign};

/// The greatest absolute value that is read, in thousandths.
pub(crate) const MOST: u64 = 1_000_000_000_000_000;

/// The number at which counting ends: any greater number is out of range as well.
pub(crate) const LIMIT: u64 = MOST + 1;

/// A number with this many digits after its first one is beyond `LIMIT`.
const DIGITS: usize = 16;

/// The number that the digits spell after those of `value`, or `most` if that is less.
pub(crate) fn with_digits(mut value: u64, digits: &[u8], most: u64) -> u64
    requires small { value ≤ most }
    requires digits { AllDigits 10 digits.now }
    ensures { result ≡ min (digits_value_after 10 value digits.now) most }
{
    for digit in digits {
        let units = u64::from(*digit - b'0');
        value = value.saturating_mul(10).saturating_add(units).min(most);
    }
    value
}

/// The number with the absolute value `size`, negative if `negative`.
pub(crate) fn with_sign(negative: bool, size: u64) -> i64
    requires { size < 2 ^ 63 }
    ensures { result ≡ with_sign negative size }
{
    let size = size as i64;
    if negative { -size } else { size }
}

/// The number with `zeros` zeros after it, or `LIMIT` if that is less.
pub(crate) fn with_zeros(mut value: u64, zeros: usize) -> u64
    requires { value ≤ LIMIT }
    ensures { result ≡ min (value * 10 ^ zeros) LIMIT }
{
    for _ in 0..zeros.min(DIGITS) {
        value = (value * 10).min(LIMIT);
    }
    value
}

/// The number rounded by the digits `following`, halves up; or `LIMIT` if that is
/// less.
pub(crate) fn rounded(value: u64, following: &[u8]) -> u64
    requires { value ≤ LIMIT }
    ensures { result ≡ min (value + carry following.now) LIMIT }
{
    match following {
        [b'5'..=u8::MAX, ..] => (value + 1).min(LIMIT),
        _ => value,
    }
}
