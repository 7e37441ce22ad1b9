// What signs begin, where a statement or the rest of a declaration stands (C90 6.5, 6.6).
ghost use Rattle.std.specs.Prelude.{◌≡◌};
ghost use Rattle.c65_decl.specs.Words;

use c65_base::Name;
use c65_parse_frames::Sign;

/// The word or the brace that begins a statement.
#[derive(Clone, Copy)]
pub enum Word {
    Case,
    Default,
    If,
    Switch,
    While,
    Do,
    For,
    Goto,
    Continue,
    Break,
    Return,
    OpenBrace,
}

pub fn word_of(sign: Sign) -> Option<Word>
    ensures { result ≡ Words.word_of sign }
{
    match sign {
        Sign::Case => Some(Word::Case),
        Sign::Default => Some(Word::Default),
        Sign::If => Some(Word::If),
        Sign::Switch => Some(Word::Switch),
        Sign::While => Some(Word::While),
        Sign::Do => Some(Word::Do),
        Sign::For => Some(Word::For),
        Sign::Goto => Some(Word::Goto),
        Sign::Continue => Some(Word::Continue),
        Sign::Break => Some(Word::Break),
        Sign::Return => Some(Word::Return),
        Sign::OpenBrace => Some(Word::OpenBrace),
        _ => None,
    }
}

pub fn name_of(sign: Sign) -> Option<Name>
    ensures { result ≡ Words.name_of sign }
{
    match sign {
        Sign::Name(name) => Some(name),
        _ => None,
    }
}

/// Whether a token is a keyword among specifiers.
pub fn is_specifier(sign: Sign) -> bool
    ensures { result ≡ Words.is_specifier sign }
{
    matches!(sign, Sign::Specifier)
}

/// Whether a token begins an expression statement, or is the empty one (C90 6.6.3).
pub fn is_evaluated(sign: Sign) -> bool
    ensures { result ≡ Words.is_evaluated sign }
{
    match sign {
        Sign::Name(_) => true,
        Sign::Operand => true,
        Sign::OpenParen => true,
        Sign::Semicolon => true,
        _ => false,
    }
}

/// Whether a declaration goes on with this behind a declarator.
pub fn goes_on(sign: Sign) -> bool
    ensures { result ≡ Words.goes_on sign }
{
    match sign {
        Sign::Comma => true,
        Sign::Equal => true,
        Sign::Semicolon => true,
        _ => false,
    }
}
