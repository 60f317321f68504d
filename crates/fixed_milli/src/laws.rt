//! Laws of reading, rounding and writing.

ghost use Rattle.std.specs.Prelude.{◌≡◌, ◌≢◌, ◌≤◌, ◌<◌, ◌+◌, ◌*◌, ◌↔◌, ℤ, List, ℕ, Ok, Err, Result, unsigned_abs};
ghost use Rattle.fixed_milli.specs.Milli.{Reads, absolute_difference, milli_text, most_thousandths, rounded};
ghost use Rattle.fixed_milli.specs.Number.{IsNumber};
ghost use Rattle.fixed_milli.specs.Value.{read};
ghost use Rattle.fixed_milli.specs.declared.milli.MilliFault.{MilliFault};
ghost use Rattle.fixed_milli.specs.declared.milli.MilliFault.TheVariants.{NotNumber};

/// Bytes spell at most one number, so they are read in one way.
pub fn read_once()
    ensures { (bytes : List ℕ) (r s : Result ℤ MilliFault) → Reads bytes r → Reads bytes s → r ≡ s }
{}

/// The result of the function is what the bytes are read as.
pub fn read_computes()
    ensures { (bytes : List ℕ) → Reads bytes (read bytes) }
{}

/// The bytes in the form of a number are exactly those that are read as a value or as out of range.
pub fn number_is_read()
    ensures { (bytes : List ℕ) → IsNumber bytes ↔ (read bytes ≢ Err NotNumber) }
{}

/// A rounded ratio is the nearest whole number, and the greater one of two that are equally near.
/// So the thousandths of a number, whose absolute value is rounded, are rounded away from zero at
/// halves.
pub fn rounded_is_nearest()
    ensures near { (a b : ℕ) → 0 < b → 2 * absolute_difference a (rounded a b * b) ≤ b }
    ensures halves { (a b k : ℕ) → 0 < b → 2 * a ≡ 2 * k * b + b → rounded a b ≡ k + 1 }
{}

/// What is written is read as the same value, if the value is within the range that is read.
pub fn written_is_read()
    ensures { (value : ℤ) → unsigned_abs value ≤ most_thousandths → Reads (milli_text value) (Ok value) }
{}
