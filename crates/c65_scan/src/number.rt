// Integer constants (C90 6.1.3.2).
ghost use Rattle.std.specs.Prelude.{◌≡◌, ◌<◌, ◌≤◌, IfSome};
ghost use Rattle.c65_scan.specs.Numbers.{capped, radix_of, digit_of, is_x, base_of, digits_of, with_letter, suffix_from, integer_from, integer_of, starts, row_of, type_of, typed, number_of};
ghost use Rattle.c65_scan.specs.declared.number.Suffix.TheVariants.{Plain};

use crate::digits::{byte_or_zero, decimal_digit, hexadecimal_digit, octal_digit};
use crate::float::is_float;
use c65_base::Code;
use c65_ints::IntType;

/// How the digits of a constant count.
#[derive(Clone, Copy, Debug, PartialEq, Eq)]
pub enum Base {
    Octal,
    Decimal,
    Hexadecimal,
}

/// What the letters after the digits say.
#[derive(Clone, Copy, Debug, PartialEq, Eq)]
pub enum Suffix {
    Plain,
    Unsigned,
    Long,
    UnsignedLong,
}

fn radix(base: Base) -> u64
    ensures value { result ≡ radix_of base }
    ensures bound { result < 17 }
{
    match base {
        Base::Octal => 8,
        Base::Decimal => 10,
        Base::Hexadecimal => 16,
    }
}

fn digit(base: Base, byte: u8) -> Option<u8>
    ensures value { result ≡ digit_of base byte }
    ensures bound { IfSome result (λ d. d < 16) }
{
    match base {
        Base::Octal => octal_digit(byte),
        Base::Decimal => decimal_digit(byte),
        Base::Hexadecimal => hexadecimal_digit(byte),
    }
}

fn base_of_constant(text: &[u8]) -> Base
    ensures { result ≡ base_of text.now }
{
    if byte_or_zero(text, 0) != b'0' {
        return Base::Decimal;
    }
    let second = byte_or_zero(text, 1);
    if second == b'X' || second == b'x' {
        Base::Hexadecimal
    } else {
        Base::Octal
    }
}

fn add_letter(suffix: Suffix, byte: u8) -> Option<Suffix>
    ensures { result ≡ with_letter suffix byte }
{
    let is_unsigned = byte == b'U' || byte == b'u';
    let is_long = byte == b'L' || byte == b'l';
    match suffix {
        Suffix::Plain if is_unsigned => Some(Suffix::Unsigned),
        Suffix::Plain if is_long => Some(Suffix::Long),
        Suffix::Unsigned if is_long => Some(Suffix::UnsignedLong),
        Suffix::Long if is_unsigned => Some(Suffix::UnsignedLong),
        _ => None,
    }
}

fn read_suffix(text: &[u8]) -> Option<Suffix>
    ensures { result ≡ suffix_from Plain text.now }
{
    let mut suffix = Suffix::Plain;
    for byte in text {
        suffix = add_letter(suffix, *byte)?;
    }
    Some(suffix)
}

// The value, or 2 to the 32 where it is not below that, and the suffix.
fn read_integer(base: Base, text: &[u8]) -> Option<(u64, Suffix)>
    ensures value { result ≡ capped (integer_from base 0 text.now) }
    ensures bound { IfSome result (λ c. c.0 ≤ 4294967296) }
{
    let mut value = 0;
    for (at, byte) in text.iter().enumerate() {
        let Some(next) = digit(base, *byte) else {
            let suffix = read_suffix(&text[at..])?;
            return Some((value, suffix));
        };
        value = (value * radix(base) + next as u64).min(4_294_967_296);
    }
    Some((value, Suffix::Plain))
}

fn starts_number(base: Base, text: &[u8]) -> bool
    ensures { result ≡ starts base text.now }
{
    match text.first() {
        Some(byte) => digit(base, *byte).is_some(),
        None => false,
    }
}

// The constant's digits without the prefix of a hexadecimal one.
fn digits(base: Base, text: &[u8]) -> &[u8]
    ensures { result.now ≡ digits_of base text.now }
{
    match base {
        Base::Octal | Base::Decimal => text,
        Base::Hexadecimal => text.get(2..).unwrap_or(&[]),
    }
}

fn type_row(base: Base, suffix: Suffix) -> &'static [IntType]
    ensures { result.now ≡ row_of base suffix }
{
    match suffix {
        Suffix::Plain => match base {
            Base::Decimal => &[IntType::Int, IntType::Long, IntType::ULong],
            _ => &[IntType::Int, IntType::UInt, IntType::Long, IntType::ULong],
        },
        Suffix::Unsigned => &[IntType::UInt, IntType::ULong],
        Suffix::Long => &[IntType::Long, IntType::ULong],
        Suffix::UnsignedLong => &[IntType::ULong],
    }
}

fn constant_type(base: Base, suffix: Suffix, value: u64) -> Option<IntType>
    requires { value ≤ 4294967296 }
    ensures { result ≡ type_of base suffix value }
{
    type_row(base, suffix)
        .iter()
        .copied()
        .find(|ty| value as i64 <= ty.greatest())
}

fn typed_constant(base: Base, suffix: Suffix, value: u64) -> Result<(IntType, u32), Code>
    requires { value ≤ 4294967296 }
    ensures { result ≡ typed base (value, suffix) }
{
    match constant_type(base, suffix, value) {
        Some(ty) => Ok((ty, value as u32)),
        None => Err(Code::NumberRange),
    }
}

// The value, capped, and the suffix of an integer constant.
fn integer(base: Base, digits: &[u8]) -> Option<(u64, Suffix)>
    ensures value { result ≡ capped (integer_of base digits.now) }
    ensures bound { IfSome result (λ c. c.0 ≤ 4294967296) }
{
    if starts_number(base, digits) {
        read_integer(base, digits)
    } else {
        None
    }
}

/// Type and value of a preprocessing number.
///
/// Refuses `NumberRange` for a constant above 4,294,967,295, `Float` for a floating constant, and `BadNumber` for what is
/// no constant.
pub fn read_number(text: &[u8]) -> Result<(IntType, u32), Code>
    ensures { result ≡ number_of text.now }
{
    let base = base_of_constant(text);
    match integer(base, digits(base, text)) {
        Some((value, suffix)) => typed_constant(base, suffix, value),
        None => Err(if is_float(text) {
            Code::Float
        } else {
            Code::BadNumber
        }),
    }
}
