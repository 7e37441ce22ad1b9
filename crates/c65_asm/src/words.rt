// Numbers, symbols and sets of registers in assembly text.
ghost use Rattle.std.specs.Prelude.{◌≡◌, ◌+◌, ◌-◌, ◌*◌, option_map, codes, decimal, bytes_eq, length};
ghost use Rattle.std.specs.List.{list_all};
ghost use Rattle.c65_code.specs.Writable.{is_letter, is_letter_or_digit, is_external, is_between};
ghost use Rattle.c65_asm.specs.Words.{is_digit, with_digit, with_digits, number_in, hex_value, hex_byte, byte_in, is_numbered, is_symbol as is_symbol_in, cut_at, place_in, begins, without, joined, letters_in, set_in};
ghost use Rattle.c65_asm.specs.Lent.{parts, placed, rest_of};

use c65_code::{Part, RegSet};
use itoa::Buffer;

fn is_digit(byte: u8) -> bool
    ensures { result ≡ is_digit byte }
{
    byte >= 48 && byte <= 57
}

// The number with one digit more, where it is one of 32 bits.
fn with_digit(value: u32, byte: u8) -> Option<u32>
    ensures { result ≡ with_digit value byte }
{
    if !is_digit(byte) {
        return None;
    }
    let next = u64::from(value) * 10 + u64::from(byte - 48);
    if next < 4_294_967_296 {
        Some(next as u32)
    } else {
        None
    }
}

fn digits(text: &[u8]) -> Option<u32>
    ensures { result ≡ with_digits 0 text.now }
{
    let mut value = 0_u32;
    for byte in text {
        value = with_digit(value, *byte)?;
    }
    Some(value)
}

fn is_written(value: u32, text: &[u8]) -> bool
    ensures { result ≡ bytes_eq (decimal value) text.now }
{
    let mut buffer = Buffer::new();
    buffer.format(value).as_bytes() == text
}

/// A decimal number without leading zeros.
pub fn number(text: &[u8]) -> Option<u32>
    ensures { result ≡ number_in text.now }
{
    let value = digits(text)?;
    if is_written(value, text) {
        Some(value)
    } else {
        None
    }
}

fn hex_value(byte: u8) -> Option<u8>
    ensures { result ≡ hex_value byte }
{
    if is_digit(byte) {
        Some(byte - 48)
    } else if byte >= 65 && byte <= 70 {
        Some(byte - 55)
    } else {
        None
    }
}

fn hex_byte(high: u8, low: u8) -> Option<u8>
    ensures { result ≡ hex_byte high low }
{
    let high = hex_value(high)?;
    let low = hex_value(low)?;
    Some(high * 16 + low)
}

/// A byte, written `$HH`.
pub fn byte(text: &[u8]) -> Option<u8>
    ensures { result ≡ byte_in text.now }
{
    match text {
        [dollar, high, low] => {
            if *dollar == b'$' {
                hex_byte(*high, *low)
            } else {
                None
            }
        }
        _ => None,
    }
}

fn is_letter(byte: u8) -> bool
    ensures { result ≡ is_letter byte }
{
    byte >= 65 && byte <= 90 || byte >= 97 && byte <= 122 || byte == 95
}

fn is_letter_or_digit(byte: u8) -> bool
    ensures { result ≡ is_letter_or_digit byte }
{
    is_letter(byte) || is_digit(byte)
}

fn are_letters_or_digits(text: &[u8]) -> bool
    ensures { result ≡ list_all is_letter_or_digit text.now }
{
    for byte in text {
        if !is_letter_or_digit(*byte) {
            return false;
        }
    }
    true
}

fn is_external(text: &[u8]) -> bool
    ensures { result ≡ is_external text.now }
{
    match text {
        [underscore, first, rest @ ..] => {
            *underscore == b'_' && is_letter(*first) && are_letters_or_digits(rest)
        }
        _ => false,
    }
}

fn is_numbered(text: &[u8]) -> bool
    ensures { result ≡ is_numbered text.now }
{
    match text {
        [letter, rest @ ..] => (*letter == b's' || *letter == b'q') && number(rest).is_some(),
        [] => false,
    }
}

/// Whether a symbol is spelled so: `_NAME`, `sN` or `qN`.
pub fn is_symbol(text: &[u8]) -> bool
    ensures { result ≡ is_symbol_in text.now }
{
    is_external(text) || is_numbered(text)
}

/// The text before the first such byte, and the text behind it.
pub fn cut(text: &[u8], mark: u8) -> Option<(&[u8], &[u8])>
    ensures { option_map parts result ≡ cut_at mark text.now }
{
    for (index, byte) in text.iter().enumerate() {
        if *byte == mark {
            return Some((&text[..index], &text[index + 1..]));
        }
    }
    None
}

/// A symbol and an offset, written `SYM+NUM`.
pub fn place(text: &[u8]) -> Option<(&[u8], u16)>
    ensures { option_map placed result ≡ place_in text.now }
{
    let (symbol, offset) = cut(text, b'+')?;
    let offset = number(offset)?;
    if offset < 65_536 && is_symbol(symbol) {
        Some((symbol, offset as u16))
    } else {
        None
    }
}

fn begins(letter: u8, text: &[u8]) -> bool
    ensures { result ≡ begins letter text.now }
{
    match text {
        [byte, ..] => *byte == letter,
        [] => false,
    }
}

fn without(letter: u8, text: &[u8]) -> &[u8]
    ensures { result.now ≡ without letter text.now }
{
    match text {
        [byte, rest @ ..] => { if *byte == letter { rest } else { text } }
        [] => text,
    }
}

fn joined(is_in: bool, more: RegSet, set: RegSet) -> RegSet
    ensures { result ≡ joined is_in more set }
{
    if is_in { set.union(more) } else { set }
}

// The letters at the front, and the text behind them.
fn letters(text: &[u8]) -> (RegSet, &[u8])
    ensures { rest_of result ≡ letters_in text.now }
{
    let x = without(b'A', text);
    let y = without(b'X', x);
    let s = without(b'Y', y);
    let set = joined(begins(b'A', text), RegSet::of(&[Part::A]), RegSet::empty());
    let set = joined(begins(b'X', x), RegSet::of(&[Part::X]), set);
    let set = joined(begins(b'Y', y), RegSet::of(&[Part::Y]), set);
    let set = joined(begins(b'S', s), RegSet::zero_bytes(2, 4), set);
    (set, without(b'S', s))
}

/// A set of registers: letters of A, X, Y and S in this order, or a dash for none.
pub fn registers(text: &[u8]) -> Option<RegSet>
    ensures { result ≡ set_in text.now }
{
    if text == b"-".as_slice() {
        return Some(RegSet::empty());
    }
    let (set, rest) = letters(text);
    if !text.is_empty() && rest.is_empty() {
        Some(set)
    } else {
        None
    }
}
