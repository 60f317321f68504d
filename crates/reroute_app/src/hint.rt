//! What people are told besides the output: where a diagram stops to be GML, or whether a subcommand is named.
ghost use Rattle.std.specs.Prelude.{◌≡◌, ◌<◌, ◌-◌, ◌^◌, map, string_bytes};
ghost use Rattle.reroute_app.specs.Hint.{first_place, gml_hint, names_command, next_place, place_after, place_at, words_hint};

use gml_text::GmlFault;
use report_text::{Hint, Place};

/// The place of the byte that follows this byte at this place.
fn next_place(place: Place, byte: u8) -> Place
    requires line { place.line < 2 ^ 64 - 1 }
    requires column { place.column < 2 ^ 64 - 1 }
    ensures { result ≡ next_place place byte }
{
    if byte == b'\n' {
        Place {
            line: place.line + 1,
            column: 1,
        }
    } else {
        Place {
            line: place.line,
            column: place.column + 1,
        }
    }
}

/// The place that follows the bytes.
fn place_after(bytes: &[u8]) -> Place
    ensures { result ≡ place_after first_place bytes.now }
{
    let mut place = Place { line: 1, column: 1 };
    for byte in bytes {
        place = next_place(place, *byte);
    }
    place
}

/// The place of the byte at this offset.
fn place_at(bytes: &[u8], at: u64) -> Place
    ensures { result ≡ place_at bytes.now at }
{
    place_after(&bytes[..(at as usize).min(bytes.len())])
}

/// What people are told of bytes that are not read as a document.
pub(crate) fn gml_hint(bytes: &[u8], fault: &GmlFault) -> Hint
    ensures { result ≡ gml_hint bytes.now fault.now }
{
    match *fault {
        GmlFault::Syntax { at } => Hint::At(place_at(bytes, at)),
        GmlFault::TooDeep { at } => Hint::At(place_at(bytes, at)),
        GmlFault::Memory => Hint::Nothing,
    }
}

/// Whether the argument is the name of a subcommand.
fn names_command(word: &str) -> bool
    ensures { result ≡ names_command word.now }
{
    word == "check"
        || word == "route"
        || word == "make"
        || word == "preview"
        || word == "shared"
        || word == "prove"
        || word == "audit"
}

/// What people are told of arguments that are not valid.
pub(crate) fn words_hint(words: &[String]) -> Hint
    ensures { result ≡ words_hint (map string_bytes words.now) }
{
    match words.first() {
        Some(word) if names_command(word) => Hint::Nothing,
        _ => Hint::NoCommand,
    }
}
