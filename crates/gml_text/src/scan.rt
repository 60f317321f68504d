//! The ends of white space, keys, numbers and strings.

ghost use Rattle.std.specs.Prelude.{◌≡◌, ◌<◌, ◌≤◌, false, None, length, slice_index};
ghost use Rattle.gml_text.specs.Bytes.{is_key_byte, quote};
ghost use Rattle.gml_text.specs.Standing.{EndsComment, EndsGap, EndsKey, EndsNumber, EndsText, IsNoGap};
ghost use Rattle.gml_text.specs.Token.{after};

use crate::token::{self, NumberPart};

/// The end of the comment that `from` is in: its line feed, or the end of the bytes.
fn comment_end(bytes: &[u8], from: usize) -> usize
    requires { from ≤ length bytes.now }
    ensures after { from ≤ result }
    ensures within { result ≤ length bytes.now }
    ensures ends { EndsComment bytes.now from result }
{
    let mut end = from;
    while end < bytes.len() && bytes[end] != b'\n' {
        end += 1;
    }
    end
}

/// The first byte from `from` on that is neither white space nor in a comment, or the end of the
/// bytes.
pub(crate) fn gap_end(bytes: &[u8], from: usize) -> usize
    requires { from ≤ length bytes.now }
    ensures after { from ≤ result }
    ensures within { result ≤ length bytes.now }
    ensures ends { EndsGap bytes.now from result }
    ensures stops { result < length bytes.now → IsNoGap (slice_index bytes.now result) }
{
    let mut end = from;
    while end < bytes.len() {
        if token::is_space(bytes[end]) {
            end += 1;
        } else if bytes[end] == b'#' {
            end = comment_end(bytes, end + 1);
        } else {
            return end;
        }
    }
    end
}

/// The first byte after `at` that is not part of a key, or the end of the bytes.
pub(crate) fn key_end(bytes: &[u8], at: usize) -> usize
    requires { at < length bytes.now }
    ensures after { at < result }
    ensures within { result ≤ length bytes.now }
    ensures ends { EndsKey bytes.now at result }
    ensures stops { result < length bytes.now → is_key_byte (slice_index bytes.now result) ≡ false }
{
    let mut end = at + 1;
    while end < bytes.len() && token::is_key_byte(bytes[end]) {
        end += 1;
    }
    end
}

/// The first quote from `from` on, or the end of the bytes.
pub(crate) fn text_end(bytes: &[u8], from: usize) -> usize
    requires { from ≤ length bytes.now }
    ensures after { from ≤ result }
    ensures within { result ≤ length bytes.now }
    ensures ends { EndsText bytes.now from result }
    ensures stops { result < length bytes.now → slice_index bytes.now result ≡ quote }
{
    let mut end = from;
    while end < bytes.len() && bytes[end] != b'"' {
        end += 1;
    }
    end
}

/// The first byte after `at` that does not continue the number, or the end of the bytes, and the
/// part of the number that has been read there.
pub(crate) fn number_end(bytes: &[u8], at: usize, begun: NumberPart) -> (usize, NumberPart)
    requires { at < length bytes.now }
    ensures after { at < result.0 }
    ensures within { result.0 ≤ length bytes.now }
    ensures ends { EndsNumber bytes.now at begun result.0 result.1 }
    ensures stops { result.0 < length bytes.now → after result.1 (slice_index bytes.now result.0) ≡ None }
{
    let mut end = at + 1;
    let mut part = begun;
    while end < bytes.len() {
        let Some(next) = part.after(bytes[end]) else {
            return (end, part);
        };
        part = next;
        end += 1;
    }
    (end, part)
}
