//! What a word of a line stands for: plain decimals of at most 18 digits, without leading zeros.
ghost use Rattle.std.specs.Prelude.{◌≡◌, ◌<◌, ◌^◌};
ghost use Rattle.proof_text.specs.Values.{index, label, natural, negative, whole};

use fixed_milli::read_whole;

/// A number that is not negative.
pub(crate) fn natural(word: &[u8]) -> Option<u64>
    ensures { result ≡ natural word.now }
{
    match word {
        [b'0'] => Some(0),
        [b'1'..=b'9', ..] => Some(read_whole(word, 18)? as u64),
        _ => None,
    }
}

/// A coordinate: a minus stands before it where it is negative, and 0 has none.
pub(crate) fn whole(word: &[u8]) -> Option<i64>
    ensures { result ≡ whole word.now }
{
    match word {
        [b'-', digits @ ..] => negative(natural(digits)?),
        _ => Some(natural(word)? as i64),
    }
}

/// The negative number of this size; 0 has none.
fn negative(size: u64) -> Option<i64>
    requires { size < 2 ^ 63 }
    ensures { result ≡ negative size }
{
    match size {
        0 => None,
        _ => Some(-(size as i64)),
    }
}

/// The number of an edge or a stage.
pub(crate) fn index(word: &[u8]) -> Option<u32>
    ensures { result ≡ index word.now }
{
    u32::try_from(natural(word)?).ok()
}

/// A label, or none where a minus stands.
pub(crate) fn label(word: &[u8]) -> Option<Option<u64>>
    ensures { result ≡ label word.now }
{
    if word == b"-".as_slice() {
        return Some(None);
    }
    Some(Some(natural(word)?))
}
