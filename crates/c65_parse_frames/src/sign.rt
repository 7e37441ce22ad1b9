// What a token is to statements, declarations and units.
ghost use Rattle.std.specs.Prelude.{◌≡◌};
ghost use Rattle.c65_parse_frames.specs.Signs;

use c65_base::Name;
use c65_scan::{Keyword, Punct, Token, TokenKind};

#[derive(Clone, Copy)]
pub enum Sign {
    Name(Name),
    /// A keyword among declaration specifiers (C90 6.5).
    Specifier,
    /// What begins an expression and nothing else.
    Operand,
    OpenParen,
    CloseParen,
    OpenBrace,
    CloseBrace,
    Comma,
    Colon,
    Semicolon,
    Equal,
    Case,
    Default,
    If,
    Else,
    Switch,
    While,
    Do,
    For,
    Goto,
    Continue,
    Break,
    Return,
    End,
    Other,
}

/// A token that is needed at a place, or sought there.
#[derive(Clone, Copy)]
pub enum Mark {
    OpenParen,
    CloseParen,
    OpenBrace,
    CloseBrace,
    Comma,
    Colon,
    Semicolon,
    Equal,
    Else,
    While,
    End,
}

fn sign_of_keyword(keyword: Keyword) -> Sign
    ensures { result ≡ Signs.sign_of_keyword keyword }
{
    match keyword {
        Keyword::Auto => Sign::Specifier,
        Keyword::Char => Sign::Specifier,
        Keyword::Const => Sign::Specifier,
        Keyword::Double => Sign::Specifier,
        Keyword::Enum => Sign::Specifier,
        Keyword::Extern => Sign::Specifier,
        Keyword::Float => Sign::Specifier,
        Keyword::Int => Sign::Specifier,
        Keyword::Long => Sign::Specifier,
        Keyword::Register => Sign::Specifier,
        Keyword::Short => Sign::Specifier,
        Keyword::Signed => Sign::Specifier,
        Keyword::Static => Sign::Specifier,
        Keyword::Struct => Sign::Specifier,
        Keyword::Typedef => Sign::Specifier,
        Keyword::Union => Sign::Specifier,
        Keyword::Unsigned => Sign::Specifier,
        Keyword::Void => Sign::Specifier,
        Keyword::Volatile => Sign::Specifier,
        Keyword::Sizeof => Sign::Operand,
        Keyword::Case => Sign::Case,
        Keyword::Default => Sign::Default,
        Keyword::If => Sign::If,
        Keyword::Else => Sign::Else,
        Keyword::Switch => Sign::Switch,
        Keyword::While => Sign::While,
        Keyword::Do => Sign::Do,
        Keyword::For => Sign::For,
        Keyword::Goto => Sign::Goto,
        Keyword::Continue => Sign::Continue,
        Keyword::Break => Sign::Break,
        Keyword::Return => Sign::Return,
        Keyword::FastCall => Sign::Other,
        Keyword::CDecl => Sign::Other,
        Keyword::Asm => Sign::Other,
        Keyword::UnderscoredAsm => Sign::Other,
    }
}

fn sign_of_punct(punct: Punct) -> Sign
    ensures { result ≡ Signs.sign_of_punct punct }
{
    match punct {
        Punct::OpenParen => Sign::OpenParen,
        Punct::CloseParen => Sign::CloseParen,
        Punct::OpenBrace => Sign::OpenBrace,
        Punct::CloseBrace => Sign::CloseBrace,
        Punct::Comma => Sign::Comma,
        Punct::Colon => Sign::Colon,
        Punct::Semicolon => Sign::Semicolon,
        Punct::Equal => Sign::Equal,
        Punct::PlusPlus => Sign::Operand,
        Punct::MinusMinus => Sign::Operand,
        Punct::Ampersand => Sign::Operand,
        Punct::Star => Sign::Operand,
        Punct::Plus => Sign::Operand,
        Punct::Minus => Sign::Operand,
        Punct::Tilde => Sign::Operand,
        Punct::Exclamation => Sign::Operand,
        _ => Sign::Other,
    }
}

/// What a token is.
pub fn sign_of(token: &Token) -> Sign
    ensures { result ≡ Signs.sign_of token.now.kind }
{
    match &token.kind {
        TokenKind::Keyword(keyword) => sign_of_keyword(*keyword),
        TokenKind::Name(name) => Sign::Name(*name),
        TokenKind::Number(_, _) => Sign::Operand,
        TokenKind::Text(_) => Sign::Operand,
        TokenKind::Punct(punct) => sign_of_punct(*punct),
        TokenKind::End => Sign::End,
    }
}

/// Whether a token is the one that is sought.
pub fn is_mark(mark: Mark, sign: Sign) -> bool
    ensures { result ≡ Signs.is_mark mark sign }
{
    match mark {
        Mark::OpenParen => matches!(sign, Sign::OpenParen),
        Mark::CloseParen => matches!(sign, Sign::CloseParen),
        Mark::OpenBrace => matches!(sign, Sign::OpenBrace),
        Mark::CloseBrace => matches!(sign, Sign::CloseBrace),
        Mark::Comma => matches!(sign, Sign::Comma),
        Mark::Colon => matches!(sign, Sign::Colon),
        Mark::Semicolon => matches!(sign, Sign::Semicolon),
        Mark::Equal => matches!(sign, Sign::Equal),
        Mark::Else => matches!(sign, Sign::Else),
        Mark::While => matches!(sign, Sign::While),
        Mark::End => matches!(sign, Sign::End),
    }
}

/// Whether a token begins a declaration, where one may stand and a label too (C90 6.6.1, 6.6.2).
/// It is told whether the token is a type's name, and whether a colon follows it.
pub fn starts_declaration(sign: Sign, is_type: bool, colon_follows: bool) -> bool
    ensures { result ≡ Signs.starts_declaration sign is_type colon_follows }
{
    match sign {
        Sign::Specifier => true,
        Sign::Name(_) => is_type && !colon_follows,
        _ => false,
    }
}

/// Whether a token is a label where a statement stands: nothing else begins with a type's name there.
pub fn is_label(sign: Sign, is_type: bool, colon_follows: bool) -> bool
    ensures { result ≡ Signs.is_label sign is_type colon_follows }
{
    match sign {
        Sign::Name(_) => is_type || colon_follows,
        _ => false,
    }
}

/// How deep a statement is at least that begins with a token, and 0 where none does.
pub fn least_depth(sign: Sign, label: bool) -> usize
    ensures { result ≡ Signs.least_depth sign label }
{
    match sign {
        Sign::Name(_) => { if label { 2 } else { 1 } }
        Sign::Case | Sign::Default | Sign::If | Sign::Switch | Sign::While | Sign::Do | Sign::For =>
            2,
        Sign::Operand
        | Sign::OpenParen
        | Sign::OpenBrace
        | Sign::Semicolon
        | Sign::Goto
        | Sign::Continue
        | Sign::Break
        | Sign::Return => 1,
        _ => 0,
    }
}
