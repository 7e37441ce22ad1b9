// Which tokens directives look for, and their spellings.
ghost use Rattle.std.specs.Prelude.{◌≡◌};
ghost use Rattle.c65_lex.specs.Cells;
ghost use Rattle.c65_macro.specs.Definitions;
ghost use Rattle.c65_macro.specs.Table.{is_name_kind};
ghost use Rattle.c65_ppline.specs.Tokens;
ghost use Rattle.c65_scan.specs.Tokens.{spelling_in};

use c65_base::{Name, Names};
use c65_lex::{PpKind, PpToken};

/// The spelling of a name; nothing for one that the table did not give.
pub fn spelling_of<'a>(names: &'a Names, name: Name) -> &'a [u8]
    ensures { result.now ≡ spelling_in names.now name }
{
    match names.spelling(name) {
        Some(spelling) => spelling,
        None => &[],
    }
}

/// Whether a spelling begins with a byte.
pub fn begins_with(byte: u8, spelling: &[u8]) -> bool
    ensures { result ≡ Cells.begins_with byte spelling.now }
{
    match spelling.split_first() {
        Some((first, _)) => *first == byte,
        None => false,
    }
}

/// Whether a token is the punctuator of this spelling.
pub fn is_mark(names: &Names, token: &PpToken, spelling: &[u8]) -> bool
    ensures { result ≡ Tokens.is_mark names.now spelling.now token.now }
{
    match token.kind {
        PpKind::Punct => spelling_of(names, token.spelling) == spelling,
        _ => false,
    }
}

/// Whether a token is a name.
pub fn is_name(token: &PpToken) -> bool
    ensures { result ≡ is_name_kind token.now.kind }
{
    match token.kind {
        PpKind::Name => true,
        _ => false,
    }
}

/// Whether a token is the name of this spelling.
pub fn is_word(names: &Names, token: &PpToken, spelling: &[u8]) -> bool
    ensures { result ≡ Tokens.is_word names.now spelling.now token.now }
{
    is_name(token) && spelling_of(names, token.spelling) == spelling
}

/// Whether no token is left.
pub fn is_nothing(tokens: &[PpToken]) -> bool
    ensures { result ≡ Definitions.is_nothing tokens.now }
{
    match tokens.split_first() {
        Some(_) => false,
        None => true,
    }
}

/// The tokens behind the first.
pub fn behind_first(tokens: &[PpToken]) -> &[PpToken]
    ensures { result.now ≡ Tokens.behind_first tokens.now }
{
    match tokens.split_first() {
        Some((_, rest)) => rest,
        None => &[],
    }
}
