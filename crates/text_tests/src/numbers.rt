//! Numbers: rows of them as they are read and written.

use fixed_milli::{MilliFault, push_milli, read_milli, read_whole, write_milli};
use std::alloc::{AllocError, Global};
use std::test::Fail;

/// Texts, and the thousandths that are read from them, or why none are.
const THOUSANDTHS: [(&str, Result<i64, MilliFault>); 42] = [
    ("0.0005", Ok(1)),
    ("-0.0005", Ok(-1)),
    ("0.00049", Ok(0)),
    ("0.00049999999999999999999999", Ok(0)),
    (".5", Ok(500)),
    ("5.", Ok(5000)),
    ("+7", Ok(7000)),
    ("-0.0", Ok(0)),
    ("2.5E-1", Ok(250)),
    ("1e3", Ok(1_000_000)),
    ("12.3456E4", Ok(123_456_000)),
    ("1234.5678e+00000000000000000000000002", Ok(123_456_780)),
    ("000000000000000000000000012.25", Ok(12_250)),
    ("0.00000000000000000000000000000000000000001E41", Ok(1000)),
    ("123456E-8", Ok(1)),
    ("5E-4", Ok(1)),
    ("49E-5", Ok(0)),
    ("5E-5", Ok(0)),
    ("0E999999", Ok(0)),
    ("-0E18446744073709551617", Ok(0)),
    ("-1E-18446744073709551616", Ok(0)),
    ("1E12", Ok(1_000_000_000_000_000)),
    ("1000000000000", Ok(1_000_000_000_000_000)),
    ("1000000000000.0004", Ok(1_000_000_000_000_000)),
    ("-1000000000000.0004999", Ok(-1_000_000_000_000_000)),
    ("999999999999999.9994999E-3", Ok(1_000_000_000_000_000)),
    ("", Err(MilliFault::NotNumber)),
    (".", Err(MilliFault::NotNumber)),
    ("+", Err(MilliFault::NotNumber)),
    ("--1", Err(MilliFault::NotNumber)),
    ("1.2.3", Err(MilliFault::NotNumber)),
    ("1 ", Err(MilliFault::NotNumber)),
    ("0x1", Err(MilliFault::NotNumber)),
    ("-.e1", Err(MilliFault::NotNumber)),
    ("e5", Err(MilliFault::NotNumber)),
    ("1e", Err(MilliFault::NotNumber)),
    ("1e+", Err(MilliFault::NotNumber)),
    ("1e1.", Err(MilliFault::NotNumber)),
    ("1000000000000.0005", Err(MilliFault::OutOfRange)),
    ("-1000000000000.0005", Err(MilliFault::OutOfRange)),
    ("1E13", Err(MilliFault::OutOfRange)),
    ("1E999999999999", Err(MilliFault::OutOfRange)),
];

#[test]
fn reads_thousandths(rt: HostRuntime) {
    for &(lexeme, value) in &THOUSANDTHS {
        assert!(rt; read_milli(lexeme.as_bytes()) == value, "{lexeme}");
    }
}

/// What is read from a million nines behind this beginning, to the given length in all.
fn read_nines(
    alloc: Global,
    front: &str,
    length: usize,
) -> Result<Result<i64, MilliFault>, AllocError> {
    let mut lexeme = Vec::from_slice(alloc, front.as_bytes())?;
    lexeme.resize(length, b'9')?;
    Ok(read_milli(&lexeme))
}

/// Beginnings of exponents of a million nines, each with the length in all and what is read.
const LONG: [(&str, usize, Result<i64, MilliFault>); 2] = [
    ("1E", 1_000_002, Err(MilliFault::OutOfRange)),
    ("1E-", 1_000_003, Ok(0)),
];

#[test]
fn reads_a_million_digits(rt: HostRuntime) -> Result<(), Fail> {
    for &(front, length, value) in &LONG {
        assert!(rt; read_nines(rt.alloc(), front, length)? == value, "{front}");
    }
    Ok(())
}

/// Numbers of thousandths, and their texts.
const WRITTEN: [(i64, &str); 6] = [
    (-1, "-0.001"),
    (0, "0.000"),
    (999, "0.999"),
    (12_000, "12.000"),
    (1_234_567, "1234.567"),
    (i64::MIN, "-9223372036854775.808"),
];

/// Whether the number is written so.
fn is_written(alloc: Global, value: i64, want: &str) -> Result<bool, AllocError> {
    Ok(write_milli(alloc, value)?.as_str() == want)
}

/// Whether the greatest size is written behind what is there.
fn is_pushed(alloc: Global) -> Result<bool, AllocError> {
    let mut text = String::from_str(alloc, "cost ")?;
    push_milli(&mut text, u64::MAX)?;
    Ok(text.as_str() == "cost 18446744073709551.615")
}

#[test]
fn writes_thousandths(rt: HostRuntime) -> Result<(), Fail> {
    for &(value, want) in &WRITTEN {
        assert!(rt; is_written(rt.alloc(), value, want)?, "{want}");
    }
    assert!(rt; is_pushed(rt.alloc())?, "the greatest size");
    Ok(())
}

/// Texts, the greatest number of digits, and the whole number that is read.
const WHOLE: [(&str, usize, Option<i64>); 15] = [
    ("0", 18, Some(0)),
    ("-0", 1, Some(0)),
    ("+007", 3, Some(7)),
    ("-12345", 5, Some(-12_345)),
    ("12345", 4, None),
    ("999999999999999999", 18, Some(999_999_999_999_999_999)),
    ("-999999999999999999", 18, Some(-999_999_999_999_999_999)),
    ("0000000000000000001", 18, None),
    ("1", 0, None),
    ("", 18, None),
    ("-", 18, None),
    ("--1", 18, None),
    ("1.0", 18, None),
    ("1e3", 18, None),
    (" 1", 18, None),
];

#[test]
fn reads_whole_numbers(rt: HostRuntime) {
    for &(lexeme, most, value) in &WHOLE {
        assert!(rt; read_whole(lexeme.as_bytes(), most) == value, "{lexeme}");
    }
}
