//! Numbers as digits.
ghost use Rattle.std.specs.Prelude.{◌≡◌, ◌++◌, ◌<◌, [], if◌then◌else◌, OnErr, OnOk, codes, decimal, drop};
ghost use Rattle.std.specs.Fmt.{signed_decimal};
ghost use Rattle.fixed_milli.specs.Milli.{milli_text, size_text, three_digits};

use itoa::{Buffer, write_digits};
use std::alloc::AllocError;

/// Appends the digits of a number.
pub(crate) fn push_number(out: &mut Vec<u8>, number: u64) -> Result<(), AllocError>
    ensures { OnOk result (out.new.items ≡ out.old.items ++ decimal number) }
{
    let mut buffer = Buffer::new();
    out.extend_from_slice(buffer.format(number).as_bytes())
}

/// Appends a number, with a minus sign if it is negative.
pub(crate) fn push_signed(out: &mut Vec<u8>, number: i64) -> Result<(), AllocError>
    ensures { OnOk result (out.new.items ≡ out.old.items ++ signed_decimal number) }
{
    let mut buffer = Buffer::new();
    out.extend_from_slice(buffer.format(number).as_bytes())
}

/// The most digits that a number of 64 bits has.
const MOST_DIGITS: usize = 20;

/// The bytes of a number of thousandths: a sign, the digits of the whole units, a point and three
/// digits.
const LONGEST: usize = MOST_DIGITS + 5;

/// Room for a number of thousandths, at whose end are the point and the three digits of a number
/// below a thousand.
fn with_fraction(fraction: u64) -> [u8; LONGEST]
    requires { fraction < 1000 }
    ensures { drop 21 result ≡ codes "." ++ three_digits fraction }
{
    let mut text = [b'.'; LONGEST];
    text[22] = b'0' + (fraction / 100) as u8;
    text[23] = b'0' + (fraction / 10 % 10) as u8;
    text[24] = b'0' + (fraction % 10) as u8;
    text
}

/// Appends `size` thousandths in units, with three digits after the decimal point, and before them a
/// minus sign if the number is negative.
fn push_size(out: &mut Vec<u8>, is_negative: bool, size: u64) -> Result<(), AllocError>
    ensures ok { OnOk result (out.new.items ≡ out.old.items ++ (if is_negative then codes "-" else []) ++ size_text size) }
    ensures err { OnErr result (out.new.items ≡ out.old.items) }
{
    let mut text = with_fraction(size % 1000);
    let start = write_digits(size / 1000, &mut text, MOST_DIGITS + 1);
    if !is_negative {
        return out.extend_from_slice(&text[start..]);
    }
    text[start - 1] = b'-';
    out.extend_from_slice(&text[start - 1..])
}

/// Appends thousandths in units: a minus sign exactly if they are negative, the whole units without
/// leading zeros, a point and three digits. The only error is out of memory, and `out` is then as it
/// was.
pub fn push_milli(out: &mut Vec<u8>, value: i64) -> Result<(), AllocError>
    ensures ok { OnOk result (out.new.items ≡ out.old.items ++ milli_text value) }
    ensures err { OnErr result (out.new.items ≡ out.old.items) }
{
    push_size(out, value < 0, value.unsigned_abs())
}

/// Appends a text, followed by the digits of a number.
pub(crate) fn push_numbered(out: &mut Vec<u8>, text: &[u8], number: u64) -> Result<(), AllocError>
    ensures { OnOk result (out.new.items ≡ out.old.items ++ (text.now ++ decimal number)) }
{
    out.extend_from_slice(text)?;
    push_number(out, number)
}

/// Appends a cost.
pub(crate) fn push_cost(out: &mut Vec<u8>, cost: u64) -> Result<(), AllocError>
    ensures { OnOk result (out.new.items ≡ out.old.items ++ (codes "cost " ++ size_text cost)) }
{
    out.extend_from_slice(b"cost ")?;
    push_size(out, false, cost)
}
