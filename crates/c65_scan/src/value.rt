// The class and value of one preprocessing token.
ghost use Rattle.std.specs.Prelude.{◌≡◌, IfOk};
ghost use Rattle.c65_scan.specs.declared.value.Value.TheVariants.{Whole};
ghost use Rattle.c65_scan.specs.Numbers.{number_of};
ghost use Rattle.c65_scan.specs.Words.{keyword_of, punct_of};
ghost use Rattle.c65_scan.specs.Chars.{chars_of, only_char as only_char_of};
ghost use Rattle.c65_scan.specs.Tokens.{word, number, char_value, text_value, punct_value, other_fault, value_of};

use crate::chars::{is_wide, read_chars};
use crate::digits::byte_or_zero;
use crate::number::read_number;
use crate::token::TokenKind;
use crate::words::{find_keyword, find_punct};
use c65_base::{Code, Name, Text as Bytes};
use c65_ints::IntType;
use c65_lex::PpKind;
use std::alloc::{AllocError, Global};

/// What a preprocessing token is by itself.
#[derive(Debug, Drop)]
pub enum Value {
    /// The end of a line, which is no token.
    Skip,
    Fault(Code),
    /// The bytes of a string literal, which adjacent ones join.
    Piece(Bytes),
    Whole(TokenKind),
}

fn word_value(name: Name, spelling: &[u8]) -> Value
    ensures { result ≡ Whole (word (keyword_of spelling.now) name) }
{
    match find_keyword(spelling) {
        Some(keyword) => Value::Whole(TokenKind::Keyword(keyword)),
        None => Value::Whole(TokenKind::Name(name)),
    }
}

fn number_value(spelling: &[u8]) -> Value
    ensures { result ≡ number (number_of spelling.now) }
{
    match read_number(spelling) {
        Ok((ty, value)) => Value::Whole(TokenKind::Number(ty, value)),
        Err(code) => Value::Fault(code),
    }
}

fn char_constant(alloc: Global, spelling: &[u8]) -> Result<Value, AllocError>
    ensures { IfOk result (λ v. v ≡ char_value (only_char_of (chars_of spelling.now))) }
{
    let Some(chars) = read_chars(alloc, spelling)? else {
        return Ok(Value::Fault(Code::BadEscape));
    };
    match chars.as_slice() {
        [value] => Ok(Value::Whole(TokenKind::Number(IntType::Int, *value as u32))),
        _ => Ok(Value::Fault(Code::CharConstant)),
    }
}

fn literal_piece(alloc: Global, spelling: &[u8]) -> Result<Value, AllocError>
    ensures { IfOk result (λ v. v ≡ text_value (chars_of spelling.now)) }
{
    match read_chars(alloc, spelling)? {
        Some(bytes) => Ok(Value::Piece(bytes)),
        None => Ok(Value::Fault(Code::BadEscape)),
    }
}

fn punctuator(spelling: &[u8]) -> Value
    ensures { result ≡ punct_value (punct_of spelling.now) }
{
    match find_punct(spelling) {
        Some(punct) => Value::Whole(TokenKind::Punct(punct)),
        None => Value::Fault(Code::StrayByte),
    }
}

fn fault_of_other(spelling: &[u8]) -> Code
    ensures { result ≡ other_fault spelling.now }
{
    let first = byte_or_zero(spelling, 0);
    if first == b'"' || first == b'\'' {
        Code::OpenLiteral
    } else {
        Code::StrayByte
    }
}

/// The class and value of a preprocessing token of this spelling.
pub fn read_value(
    alloc: Global,
    kind: PpKind,
    name: Name,
    spelling: &[u8],
) -> Result<Value, AllocError>
    ensures { IfOk result (λ v. v ≡ value_of kind name spelling.now) }
{
    match kind {
        PpKind::LineEnd => Ok(Value::Skip),
        PpKind::Name => Ok(word_value(name, spelling)),
        PpKind::Number => Ok(number_value(spelling)),
        PpKind::Char | PpKind::Text if is_wide(spelling) => Ok(Value::Fault(Code::Wide)),
        PpKind::Char => char_constant(alloc, spelling),
        PpKind::Text => literal_piece(alloc, spelling),
        PpKind::Punct => Ok(punctuator(spelling)),
        PpKind::Header => Ok(Value::Fault(Code::StrayByte)),
        PpKind::Other => Ok(Value::Fault(fault_of_other(spelling))),
    }
}
