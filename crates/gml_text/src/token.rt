//! Kinds of bytes, and the parts of a number.

ghost use Rattle.std.specs.Prelude.{◌≡◌};
ghost use Rattle.gml_text.specs.Bytes.{is_space, begins_key, is_key_byte, is_word_byte};
ghost use Rattle.gml_text.specs.Token.{begun, after, is_complete};

/// The part of a number that was read last.
#[derive(Clone, Copy)]
pub(crate) enum NumberPart {
    /// The sign alone.
    Sign,
    /// Digits, and no point yet.
    Whole,
    /// A point with no digit before or after it.
    Point,
    /// After the point, with a digit on at least one side of it.
    Fraction,
    /// The mark of the exponent alone.
    Mark,
    /// The mark and the sign of the exponent.
    MarkSign,
    /// Digits of the exponent.
    Exponent,
}

impl NumberPart {
    /// The part after a number's first byte, if a number may begin with it.
    pub(crate) fn begun(byte: u8) -> Option<NumberPart>
        ensures { result ≡ begun byte }
    {
        match byte {
            b'+' | b'-' => Some(NumberPart::Sign),
            b'.' => Some(NumberPart::Point),
            _ if byte.is_ascii_digit() => Some(NumberPart::Whole),
            _ => None,
        }
    }

    /// The part after one more byte, if the number may continue with it.
    pub(crate) fn after(self, byte: u8) -> Option<NumberPart>
        ensures { result ≡ after self byte }
    {
        let digit = byte.is_ascii_digit();
        if digit && self.is_complete() {
            return Some(self);
        }
        let point = byte == b'.';
        let sign = byte == b'+' || byte == b'-';
        let mark = byte == b'e' || byte == b'E';
        match self {
            NumberPart::Sign | NumberPart::Whole if digit => Some(NumberPart::Whole),
            NumberPart::Sign if point => Some(NumberPart::Point),
            NumberPart::Whole if point => Some(NumberPart::Fraction),
            NumberPart::Point | NumberPart::Fraction if digit => Some(NumberPart::Fraction),
            NumberPart::Whole | NumberPart::Fraction if mark => Some(NumberPart::Mark),
            NumberPart::Mark if sign => Some(NumberPart::MarkSign),
            NumberPart::Mark | NumberPart::MarkSign | NumberPart::Exponent if digit => {
                Some(NumberPart::Exponent)
            }
            _ => None,
        }
    }

    /// Whether the number may end here.
    pub(crate) fn is_complete(self) -> bool
        ensures { result ≡ is_complete self }
    {
        matches!(
            self,
            NumberPart::Whole | NumberPart::Fraction | NumberPart::Exponent
        )
    }
}

/// Whether the byte is white space.
pub(crate) fn is_space(byte: u8) -> bool
    ensures { result ≡ is_space byte }
{
    matches!(byte, b' ' | b'\t' | b'\n' | b'\r')
}

/// Whether a key may begin with the byte.
pub(crate) fn begins_key(byte: u8) -> bool
    ensures { result ≡ begins_key byte }
{
    byte.is_ascii_alphabetic() || byte == b'_'
}

/// Whether a key may continue with the byte.
pub(crate) fn is_key_byte(byte: u8) -> bool
    ensures { result ≡ is_key_byte byte }
{
    byte.is_ascii_alphanumeric() || byte == b'_'
}

/// Whether the byte may be part of a word.
pub(crate) fn is_word_byte(byte: u8) -> bool
    ensures { result ≡ is_word_byte byte }
{
    is_key_byte(byte) || matches!(byte, b'+' | b'-' | b'.')
}
