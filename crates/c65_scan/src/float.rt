// Floating constants, which this compiler refuses (C90 6.1.3.1).
ghost use Rattle.std.specs.Prelude.{◌≡◌};
ghost use Rattle.c65_scan.specs.Numbers.{is_digit as is_digit_of, is_e as is_e_of, is_float_suffix as is_float_suffix_of, float_part, may_end as may_end_of, is_float as is_float_of};

use crate::digits::decimal_digit;

/// How far a floating constant has come.
#[derive(Clone, Copy, Debug, PartialEq, Eq)]
pub enum FloatPart {
    Start,
    Whole,
    /// A point with no digit before it.
    Point,
    Fraction,
    /// The e of an exponent.
    Mark,
    Sign,
    Exponent,
    Suffixed,
}

fn is_digit(byte: u8) -> bool
    ensures { result ≡ is_digit_of byte }
{
    decimal_digit(byte).is_some()
}

fn is_e(byte: u8) -> bool
    ensures { result ≡ is_e_of byte }
{
    byte == b'E' || byte == b'e'
}

fn is_float_suffix(byte: u8) -> bool
    ensures { result ≡ is_float_suffix_of byte }
{
    byte == b'F' || byte == b'f' || byte == b'L' || byte == b'l'
}

fn next_part(part: FloatPart, byte: u8) -> Option<FloatPart>
    ensures { result ≡ float_part part byte }
{
    if is_digit(byte) {
        return match part {
            FloatPart::Start | FloatPart::Whole => Some(FloatPart::Whole),
            FloatPart::Point | FloatPart::Fraction => Some(FloatPart::Fraction),
            FloatPart::Mark | FloatPart::Sign | FloatPart::Exponent => Some(FloatPart::Exponent),
            FloatPart::Suffixed => None,
        };
    }
    match part {
        FloatPart::Start if byte == b'.' => Some(FloatPart::Point),
        FloatPart::Whole if byte == b'.' => Some(FloatPart::Fraction),
        FloatPart::Whole | FloatPart::Fraction if is_e(byte) => Some(FloatPart::Mark),
        FloatPart::Mark if byte == b'+' || byte == b'-' => Some(FloatPart::Sign),
        FloatPart::Fraction | FloatPart::Exponent if is_float_suffix(byte) => {
            Some(FloatPart::Suffixed)
        }
        _ => None,
    }
}

fn may_end(part: FloatPart) -> bool
    ensures { result ≡ may_end_of part }
{
    match part {
        FloatPart::Fraction | FloatPart::Exponent | FloatPart::Suffixed => true,
        FloatPart::Start
        | FloatPart::Whole
        | FloatPart::Point
        | FloatPart::Mark
        | FloatPart::Sign => false,
    }
}

/// Whether this is a floating constant.
pub fn is_float(text: &[u8]) -> bool
    ensures { result ≡ is_float_of text.now }
{
    let mut part = FloatPart::Start;
    for byte in text {
        match next_part(part, *byte) {
            Some(next) => part = next,
            None => return false,
        }
    }
    may_end(part)
}
