// The class of which some bytes are a whole spelling (C90 6.1).
ghost use Rattle.std.specs.Prelude.{◌≡◌, false, codes};
ghost use Rattle.c65_lex.specs.Spellings;

use crate::classes::{
    continues, is_digit, is_letter, is_punct1, is_punct2, is_punct3, is_white, is_word,
};
use crate::token::PpKind;

fn are_words(bytes: &[u8]) -> bool
    ensures { result ≡ Spellings.are_all Spellings.is_word bytes.now }
{
    let mut rest = bytes;
    while let Some((byte, more)) = rest.split_first() {
        if !is_word(*byte) {
            return false;
        }
        rest = more;
    }
    true
}

fn is_name(bytes: &[u8]) -> bool
    ensures { result ≡ Spellings.is_name bytes.now }
{
    match bytes.split_first() {
        Some((first, more)) => is_letter(*first) && are_words(more),
        None => false,
    }
}

fn is_tail(first: u8, bytes: &[u8]) -> bool
    ensures { result ≡ Spellings.is_tail first bytes.now }
{
    let mut before = first;
    let mut rest = bytes;
    while let Some((byte, more)) = rest.split_first() {
        if !continues(before, *byte) {
            return false;
        }
        before = *byte;
        rest = more;
    }
    true
}

fn begins_digit(bytes: &[u8]) -> bool
    ensures { result ≡ Spellings.begins_digit bytes.now }
{
    match bytes.first() {
        Some(byte) => is_digit(*byte),
        None => false,
    }
}

fn is_number(bytes: &[u8]) -> bool
    ensures { result ≡ Spellings.is_number bytes.now }
{
    match bytes.split_first() {
        Some((first, more)) => {
            (is_digit(*first) || (*first == b'.' && begins_digit(more))) && is_tail(*first, more)
        }
        None => false,
    }
}

/// Whether the bytes behind an opening quote end with the closing one.
fn is_closed(quote: u8, bytes: &[u8]) -> bool
    ensures { result ≡ Spellings.is_closed quote false false bytes.now }
{
    let mut taken = false;
    let mut rest = bytes;
    while let Some((byte, more)) = rest.split_first() {
        if *byte == b'\n' {
            return false;
        }
        if !taken && *byte == quote {
            return more.is_empty();
        }
        taken = !taken && *byte == b'\\';
        rest = more;
    }
    false
}

fn is_quoted(quote: u8, bytes: &[u8]) -> bool
    ensures { result ≡ Spellings.is_quoted quote bytes.now }
{
    match bytes.split_first() {
        Some((first, more)) => *first == quote && is_closed(quote, more),
        None => false,
    }
}

fn is_literal(quote: u8, bytes: &[u8]) -> bool
    ensures { result ≡ Spellings.is_literal quote bytes.now }
{
    match bytes.split_first() {
        Some((first, more)) => is_quoted(quote, bytes)
            || (*first == b'L' && is_quoted(quote, more)),
        None => false,
    }
}

fn is_punct(bytes: &[u8]) -> bool
    ensures { result ≡ Spellings.is_punct bytes.now }
{
    match bytes {
        [first] => is_punct1(*first),
        [first, second] => is_punct2(*first, *second),
        [first, second, third] => is_punct3(*first, *second, *third),
        _ => false,
    }
}

fn is_other(bytes: &[u8]) -> bool
    ensures { result ≡ Spellings.is_other bytes.now }
{
    match bytes {
        [byte] => !(*byte == b'\n' || is_white(*byte) || is_word(*byte) || is_punct1(*byte)),
        _ => false,
    }
}

fn is_line_end(bytes: &[u8]) -> bool
    ensures { result ≡ Spellings.is_line_end bytes.now }
{
    match bytes {
        [byte] => *byte == b'\n',
        _ => false,
    }
}

/// The class of which the bytes are a whole spelling (C90 6.1), where no header name is meant; None where they are one
/// of none.
pub fn class_of(bytes: &[u8]) -> Option<PpKind>
    ensures { result ≡ Spellings.class_of false bytes.now }
{
    if is_line_end(bytes) {
        return Some(PpKind::LineEnd);
    }
    if is_literal(b'\'', bytes) {
        return Some(PpKind::Char);
    }
    if is_literal(b'"', bytes) {
        return Some(PpKind::Text);
    }
    if is_name(bytes) {
        return Some(PpKind::Name);
    }
    if is_number(bytes) {
        return Some(PpKind::Number);
    }
    if is_punct(bytes) {
        return Some(PpKind::Punct);
    }
    if is_other(bytes) {
        return Some(PpKind::Other);
    }
    None
}
