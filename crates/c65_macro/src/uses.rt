// What the use of a function-like macro consists of (C90 6.8.3).
ghost use Rattle.std.specs.Prelude.{◌≡◌, false};
ghost use Rattle.c65_macro.specs.Uses;

use crate::definition::{is_mark, is_parameter};
use crate::fill::begins_paste;
use crate::item::Words;
use crate::marked::{Argument, is_line_end};
use c65_base::Name;
use c65_lex::PpToken;

/// What a token is within a use.
#[derive(Clone, Copy, Debug, PartialEq, Eq)]
pub enum Role {
    Opening,
    Closing,
    Comma,
    LineEnd,
    Other,
}

pub fn role_of(words: Words, token: &PpToken) -> Role
    ensures { result ≡ Uses.role words token.now }
{
    if is_line_end(token) {
        Role::LineEnd
    } else if is_mark(words.opening, token) {
        Role::Opening
    } else if is_mark(words.closing, token) {
        Role::Closing
    } else if is_mark(words.comma, token) {
        Role::Comma
    } else {
        Role::Other
    }
}

/// Whether these arguments are as many as the parameters: without parameters one empty argument stands in the
/// parentheses.
pub fn is_fit(params: &[Name], arguments: &[Argument]) -> bool
    ensures { result ≡ Uses.is_fit params.now arguments.now }
{
    if params.is_empty() {
        match arguments.split_first() {
            Some((only, others)) => only.as_slice().is_empty() && others.is_empty(),
            None => false,
        }
    } else {
        params.len() == arguments.len()
    }
}

/// Whether a parameter stands in a body at a place that is beside no # and no ##.
pub fn is_replaced(words: Words, param: Name, body: &[PpToken]) -> bool
    ensures { result ≡ Uses.is_replaced words param false body.now }
{
    let mut is_beside = false;
    let mut rest = body;
    while let Some((token, more)) = rest.split_first() {
        if !is_beside && is_parameter(&[param], token) && !begins_paste(words, more) {
            return true;
        }
        is_beside = is_mark(words.hash, token) || is_mark(words.paste, token);
        rest = more;
    }
    false
}
