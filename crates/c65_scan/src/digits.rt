// Digits of octal, decimal and hexadecimal numbers.
ghost use Rattle.std.specs.Prelude.{◌≡◌, ◌<◌, IfSome, slice_index_or};
ghost use Rattle.c65_scan.specs.Digits.{octal_digit as octal_of, decimal_digit as decimal_of, hexadecimal_digit as hexadecimal_of};

pub fn octal_digit(byte: u8) -> Option<u8>
    ensures value { result ≡ octal_of byte }
    ensures bound { IfSome result (λ d. d < 8) }
{
    if b'0' <= byte && byte <= b'7' {
        Some(byte - b'0')
    } else {
        None
    }
}

pub fn decimal_digit(byte: u8) -> Option<u8>
    ensures value { result ≡ decimal_of byte }
    ensures bound { IfSome result (λ d. d < 10) }
{
    if b'0' <= byte && byte <= b'9' {
        Some(byte - b'0')
    } else {
        None
    }
}

pub fn hexadecimal_digit(byte: u8) -> Option<u8>
    ensures value { result ≡ hexadecimal_of byte }
    ensures bound { IfSome result (λ d. d < 16) }
{
    if b'0' <= byte && byte <= b'9' {
        Some(byte - b'0')
    } else if b'A' <= byte && byte <= b'F' {
        Some(byte - b'A' + 10)
    } else if b'a' <= byte && byte <= b'f' {
        Some(byte - b'a' + 10)
    } else {
        None
    }
}

/// The byte at an index, or 0 past the end.
pub fn byte_or_zero(text: &[u8], at: usize) -> u8
    ensures { result ≡ slice_index_or text.now at 0 }
{
    match text.get(at) {
        Some(byte) => *byte,
        None => 0,
    }
}
