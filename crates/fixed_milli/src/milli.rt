//! Reading and writing in whole thousandths.

ghost use Rattle.std.specs.Prelude.{◌≡◌, ◌++◌, IfOk, OnErr, OnOk, string_bytes};
ghost use Rattle.fixed_milli.specs.Milli.{Reads, milli_text, size_text};
ghost use Rattle.fixed_milli.specs.Value.{read};

use crate::digits::{MOST, with_sign};
use crate::numeral::Numeral;
use std::alloc::{AllocError, Global};
use thiserror::Error;

/// The reason why bytes were not read as thousandths.
#[derive(Clone, Copy, Debug, PartialEq, Eq, Error)]
pub enum MilliFault {
    /// The bytes do not spell a number.
    #[error("this is no number")]
    NotNumber,
    /// The number, rounded to the nearest thousandth, is beyond 10^15 thousandths.
    #[error("the number is out of range")]
    OutOfRange,
}

/// Reads a number as whole thousandths of its unit, rounded to the nearest with halves away from
/// zero.
///
/// A number is an optional sign `+` or `-`, digits with at most one point before, among or after
/// them and at least one digit in all, and optionally an exponent: `E` or `e`, an optional sign and
/// at least one digit. Mantissa and exponent may have any number of digits.
///
/// Takes no memory, and its work grows only with the number of bytes. The error is `NotNumber`
/// exactly if the bytes are no number, and `OutOfRange` exactly if the rounded value is beyond
/// 10^15 thousandths on either side.
pub fn read_milli(lexeme: &[u8]) -> Result<i64, MilliFault>
    ensures reads { Reads lexeme.now result }

    // The same result, by a function that computes.
    ensures computed { result ≡ read lexeme.now }
{
    let Some(number) = Numeral::split(lexeme) else {
        return Err(MilliFault::NotNumber);
    };
    let size = number.thousandths();
    if size > MOST {
        return Err(MilliFault::OutOfRange);
    }
    Ok(with_sign(number.negative, size))
}

/// Appends `size` thousandths as a number of units: the whole units without leading zeros, a point
/// and three digits. Accepts any number of 64 bits, more than a coordinate can be.
///
/// The number is written aside and then appended. The only error is out of memory, and `text` is then as it was.
pub fn push_milli(text: &mut String, size: u64) -> Result<(), AllocError>
    ensures ok { OnOk result (string_bytes text.new ≡ string_bytes text.old ++ size_text size) }
    ensures err { OnErr result (string_bytes text.new ≡ string_bytes text.old) }
{
    let number = format!(in *text.allocator(); "{}.{:03}", size / 1000, size % 1000)?;
    text.push_str(&number)
}

/// Writes thousandths as a number of units: `-` exactly if the value is negative, and then what
/// `push_milli` appends for its absolute value.
pub fn write_milli(alloc: Global, value: i64) -> Result<String, AllocError>
    ensures { IfOk result (λ text. string_bytes text ≡ milli_text value) }
{
    let mut text = String::new(alloc);
    if value < 0 {
        text.push('-')?;
    }
    push_milli(&mut text, value.unsigned_abs())?;
    Ok(text)
}
