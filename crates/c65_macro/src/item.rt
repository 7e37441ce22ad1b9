// A macro, and the names that macros look at.
ghost use Rattle.std.specs.Prelude.{◌≡◌, List};

use c65_base::Name;
use c65_lex::PpTokens;
use std::marker::Model;

/// The parameters of a macro in order, which contracts see as a list.
#[derive(Debug, Drop)]
pub struct Params {
    names: Vec<Name>,
}

impl Model for Params {
    ghost use Rattle.std.specs.Prelude.{List};
    ghost use Rattle.c65_base.specs.declared.names.Name.{Name};

    ghost Value = { List Name };

    ghost view = { λ p. p.names.items };
}

impl Params {
    /// Takes over the names of a `Vec`.
    pub fn from_vec(names: Vec<Name>) -> Params
        ensures { result ≡ names.items }
    {
        Params { names }
    }

    pub fn as_slice(&self) -> &[Name]
        ensures { result.now ≡ self.now }
    {
        &self.names
    }

    pub fn into_vec(self) -> Vec<Name>
        ensures { result.items ≡ self }
    {
        let Params { names } = self;
        names
    }
}

/// A macro (C90 6.8.3): its name, the parameters of a function-like macro, and the replacement list
/// without the white space around it.
#[derive(Debug, Drop)]
pub struct Macro {
    pub name: Name,
    pub params: Option<Params>,
    pub body: PpTokens,
}

/// The names of the spellings that definitions and expansions look at.
#[derive(Clone, Copy, Debug, PartialEq, Eq)]
pub struct Words {
    /// `#`
    pub hash: Name,
    /// `##`
    pub paste: Name,
    /// `(`
    pub opening: Name,
    /// `)`
    pub closing: Name,
    /// `,`
    pub comma: Name,
    /// `__LINE__`
    pub line: Name,
    /// `__FILE__`
    pub file: Name,
    /// `defined`
    pub defined: Name,
}
