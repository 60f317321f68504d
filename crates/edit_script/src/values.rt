//! The values of the words of a script.
ghost use Rattle.std.specs.Prelude.{◌≡◌};
ghost use Rattle.edit_script.specs.Values.{beyond, count_of, id_of_word, number_of, setting_of};
ghost use Rattle.fixed_milli.specs.Milli.{with_sign};
ghost use Rattle.fixed_milli.specs.Value.{signed};

use fixed_milli::{MilliFault, read_milli, read_whole};
use scene_model::Setting;

/// One thousandth beyond the numbers that are read.
const BEYOND: i64 = 1_000_000_000_000_001;

/// A number in thousandths. A number out of range is read as one thousandth beyond the range, with
/// its sign.
pub fn number_of(word: &[u8]) -> Option<i64>
    ensures { result ≡ number_of word.now }
{
    match read_milli(word) {
        Ok(value) => Some(value),
        Err(MilliFault::OutOfRange) => Some(beyond(word)),
        Err(MilliFault::NotNumber) => None,
    }
}

/// One thousandth beyond the range, with the sign of the word.
fn beyond(word: &[u8]) -> i64
    ensures { result ≡ with_sign (signed word.now).0 beyond }
{
    match word {
        [b'-', ..] => -BEYOND,
        _ => BEYOND,
    }
}

/// An id: an optional sign and 1 to 18 digits.
pub fn id_of(word: &[u8]) -> Option<i64>
    ensures { result ≡ id_of_word word.now }
{
    read_whole(word, 18)
}

/// A class, a place or an edge number: 1 to 9 digits.
pub fn count_of(word: &[u8]) -> Option<u32>
    ensures { result ≡ count_of word.now }
{
    let [first, ..] = word else {
        return None;
    };
    if !first.is_ascii_digit() {
        return None;
    }
    Some(read_whole(word, 9)? as u32)
}

/// A setting by its name.
pub(crate) fn setting_of(word: &[u8]) -> Option<Setting>
    ensures { result ≡ setting_of word.now }
{
    if word == b"penalty".as_slice() {
        Some(Setting::Penalty)
    } else if word == b"buffer".as_slice() {
        Some(Setting::Buffer)
    } else if word == b"nudge".as_slice() {
        Some(Setting::Nudge)
    } else {
        None
    }
}
