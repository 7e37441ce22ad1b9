// Whether a definition has the right form, and whether two are the same (C90 6.8.3).
ghost use Rattle.std.specs.Prelude.{◌≡◌, Some, option_map};
ghost use Rattle.c65_base.specs.Answers.{at};
ghost use Rattle.c65_macro.specs.Table.{is_mark, is_name_kind, is_punct_kind};
ghost use Rattle.c65_macro.specs.Definitions;

use crate::item::{Macro, Params, Words};
use c65_base::{Code, Name, Pos};
use c65_lex::{PpKind, PpToken};

/// Whether a token is this punctuator.
pub fn is_mark(mark: Name, token: &PpToken) -> bool
    ensures { result ≡ is_mark mark token.now }
{
    match token.kind {
        PpKind::Punct => token.spelling == mark,
        _ => false,
    }
}

/// Whether a token is the name of a parameter.
pub fn is_parameter(params: &[Name], token: &PpToken) -> bool
    ensures { result ≡ Definitions.is_parameter params.now token.now }
{
    match token.kind {
        PpKind::Name => params.contains(&token.spelling),
        _ => false,
    }
}

fn begins_parameter(params: &[Name], rest: &[PpToken]) -> bool
    ensures { result ≡ Definitions.begins_parameter params.now rest.now }
{
    match rest.first() {
        Some(first) => is_parameter(params, first),
        None => false,
    }
}

/// Whether a token is a # of a function-like macro that stands before no parameter.
fn is_bad_hash(words: Words, params: &Option<Params>, token: &PpToken, rest: &[PpToken]) -> bool
    ensures { result ≡ Definitions.is_bad_hash words params.now token.now rest.now }
{
    match params {
        None => false,
        Some(params) => is_mark(words.hash, token) && !begins_parameter(params.as_slice(), rest),
    }
}

/// The first fault of a body, but for a ## at its front.
fn fault_in(words: Words, params: &Option<Params>, body: &[PpToken]) -> Option<(Code, Pos)>
    ensures { option_map (λ f. at f.0 f.1) result ≡ Definitions.fault_in words params.now body.now }
{
    let mut rest = body;
    while let Some((token, more)) = rest.split_first() {
        if is_mark(words.paste, token) && more.is_empty() {
            return Some((Code::BadPaste, token.pos));
        }
        if is_bad_hash(words, params, token, more) {
            return Some((Code::BadStringize, token.pos));
        }
        rest = more;
    }
    None
}

/// The first fault of a body (C90 6.8.3.2 and 6.8.3.3).
pub fn body_fault(words: Words, params: &Option<Params>, body: &[PpToken]) -> Option<(Code, Pos)>
    ensures { option_map (λ f. at f.0 f.1) result ≡ Definitions.body_fault words params.now body.now }
{
    let (first, _) = body.split_first()?;
    if is_mark(words.paste, first) {
        return Some((Code::BadPaste, first.pos));
    }
    fault_in(words, params, body)
}

fn same_params(a: &Option<Params>, b: &Option<Params>) -> bool
    ensures { result ≡ Definitions.same_params a.now b.now }
{
    match (a, b) {
        (None, None) => true,
        (Some(a), Some(b)) => a.as_slice() == b.as_slice(),
        _ => false,
    }
}

fn same_rest(a: &[PpToken], b: &[PpToken]) -> bool
    ensures { result ≡ Definitions.same_rest a.now b.now }
{
    let mut left = a;
    let mut right = b;
    while let Some((token, more)) = left.split_first() {
        let Some((other, others)) = right.split_first() else {
            return false;
        };
        if token.spelling != other.spelling || token.space != other.space {
            return false;
        }
        left = more;
        right = others;
    }
    right.is_empty()
}

fn same_body(a: &[PpToken], b: &[PpToken]) -> bool
    ensures { result ≡ Definitions.same_body a.now b.now }
{
    let Some((token, more)) = a.split_first() else {
        return b.is_empty();
    };
    let Some((other, others)) = b.split_first() else {
        return false;
    };
    token.spelling == other.spelling && same_rest(more, others)
}

/// Whether two definitions are the same: parameters, tokens, and white space between tokens.
pub fn same_macro(a: &Macro, b: &Macro) -> bool
    ensures { result ≡ Definitions.same_macro a.now b.now }
{
    same_params(&a.params, &b.params) && same_body(a.body.as_slice(), b.body.as_slice())
}
