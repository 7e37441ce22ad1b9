// The tokens of an expansion.
ghost use Rattle.std.specs.Prelude.{◌≡◌, ◌+◌, IfOk, false};
ghost use Rattle.c65_macro.specs.Table.{is_line_end};
ghost use Rattle.c65_macro.specs.Items.{weight};

use crate::sets::Hide;
use c65_lex::{PpKind, PpToken};
use std::alloc::AllocError;
use std::marker::Model;

/// A token with the macros that may no longer replace it, and whether a replacement has put it before the rest of
/// the list.
#[derive(Clone, Copy, Debug, PartialEq, Eq)]
pub struct Marked {
    pub token: PpToken,
    pub hide: Hide,
    pub put: bool,
}

/// An argument's tokens, which contracts see as a list.
#[derive(Drop)]
pub struct Argument {
    tokens: Vec<Marked>,
}

impl Model for Argument {
    ghost use Rattle.std.specs.Prelude.{List};
    ghost use Rattle.c65_macro.specs.declared.marked.Marked.{Marked};

    ghost Value = { List Marked };

    ghost view = { λ a. a.tokens.items };
}

impl Argument {
    pub fn from_vec(tokens: Vec<Marked>) -> Argument
        ensures { result ≡ tokens.items }
    {
        Argument { tokens }
    }

    pub fn as_slice(&self) -> &[Marked]
        ensures { result.now ≡ self.now }
    {
        &self.tokens
    }
}

/// Whether a line ends with this token.
pub fn is_line_end(token: &PpToken) -> bool
    ensures { result ≡ is_line_end token.now }
{
    match token.kind {
        PpKind::LineEnd => true,
        _ => false,
    }
}

/// How much a token counts: line ends do not.
pub fn weight(token: &PpToken) -> u64
    ensures { result ≡ weight token.now }
{
    if is_line_end(token) { 0 } else { 1 }
}

/// The sum of two counts of tokens. Memory has no room for more tokens than a `u64` counts.
pub fn plus(count: u64, more: u64) -> Result<u64, AllocError>
    ensures { IfOk result (λ sum. sum ≡ count + more) }
{
    match count.checked_add(more) {
        Some(sum) => Ok(sum),
        None => Err(AllocError),
    }
}

impl Marked {
    /// A token of the list itself.
    pub fn of(token: PpToken) -> Marked
        ensures { result ≡ record { token = token; hide = record { 0 = 0 }; put = false } }
    {
        Marked {
            token,
            hide: Hide::EMPTY,
            put: false,
        }
    }
}
