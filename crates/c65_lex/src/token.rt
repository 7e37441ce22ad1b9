// Preprocessing tokens, and the unit that a file's preprocessing gives.
ghost use Rattle.std.specs.Prelude.{◌≡◌, List};

use c65_base::{Name, Pos, Text};
use std::marker::Model;

/// The classes of preprocessing tokens (C90 6.1), and the end of a line.
#[derive(Clone, Copy, Debug, PartialEq, Eq)]
pub enum PpKind {
    Name,
    Number,
    Char,
    Text,
    Punct,
    Header,
    Other,
    LineEnd,
}

/// A preprocessing token: its class, its spelling, where it begins, and whether white space or a
/// comment stood before it.
#[derive(Clone, Copy, Debug, PartialEq, Eq)]
pub struct PpToken {
    pub kind: PpKind,
    pub spelling: Name,
    pub pos: Pos,
    pub space: bool,
}

/// Preprocessing tokens in order, which contracts see as a list.
#[derive(Debug, Drop)]
pub struct PpTokens {
    tokens: Vec<PpToken>,
}

impl Model for PpTokens {
    ghost use Rattle.std.specs.Prelude.{List};
    ghost use Rattle.c65_lex.specs.declared.token.PpToken.{PpToken};

    ghost Value = { List PpToken };

    ghost view = { λ t. t.tokens.items };
}

impl PpTokens {
    /// Takes over the tokens of a `Vec`.
    pub fn from_vec(tokens: Vec<PpToken>) -> PpTokens
        ensures { result ≡ tokens.items }
    {
        PpTokens { tokens }
    }

    pub fn as_slice(&self) -> &[PpToken]
        ensures { result.now ≡ self.now }
    {
        &self.tokens
    }

    pub fn into_vec(self) -> Vec<PpToken>
        ensures { result.items ≡ self }
    {
        let PpTokens { tokens } = self;
        tokens
    }
}

/// Paths of files by number, which contracts see as a list.
#[derive(Debug, Drop)]
pub struct Paths {
    paths: Vec<Text>,
}

impl Model for Paths {
    ghost use Rattle.std.specs.Prelude.{List, ℕ};

    ghost Value = { List (List ℕ) };

    ghost view = { λ p. p.paths.items };
}

impl Paths {
    /// Takes over the paths of a `Vec`.
    pub fn from_vec(paths: Vec<Text>) -> Paths
        ensures { result ≡ paths.items }
    {
        Paths { paths }
    }

    pub fn as_slice(&self) -> &[Text]
        ensures { result.now ≡ self.now }
    {
        &self.paths
    }

    pub fn into_vec(self) -> Vec<Text>
        ensures { result.items ≡ self }
    {
        let Paths { paths } = self;
        paths
    }
}

/// The preprocessing tokens of a whole unit, and the opened files by number.
#[derive(Debug, Drop)]
pub struct PpUnit {
    pub tokens: PpTokens,
    pub files: Paths,
}
