// Whether the symbols of a code are spelled as a text spells them, each by itself (docs/MACHINE.md, "Symbols").
ghost use Rattle.std.specs.Prelude.{◌≡◌, ◌↔◌, [], All, IfOk, IsTrue, map};
ghost use Rattle.c65_asm.specs.Words.{begins};
ghost use Rattle.c65_asm_fit.specs.Fit.{IsSpelled, spelling_of};
ghost use Rattle.c65_asm_fit.specs.Once.{comes_once, has_spelling};

use c65_asm::is_symbol;
use c65_code::Symbol;
use indexmap::IndexSet;
use std::alloc::{AllocError, Global};

fn begins_with(letter: u8, text: &[u8]) -> bool
    ensures { result ≡ begins letter text.now }
{
    match text {
        [byte, ..] => *byte == letter,
        [] => false,
    }
}

/// Whether a symbol is marked as a literal exactly where its spelling begins as one's.
fn is_marked(symbol: &Symbol) -> bool
    ensures { IsTrue result ↔ (begins 113 symbol.now.spelling ≡ symbol.now.literal) }
{
    begins_with(b'q', symbol.spelling.as_slice()) == symbol.literal
}

#[tactic(auto, using(crate::proofs::Spelled::spelled_then, crate::proofs::Spelled::spelled_else))]
fn is_spelled(symbol: &Symbol) -> bool
    ensures { IsTrue result ↔ IsSpelled symbol.now }
{
    is_symbol(symbol.spelling.as_slice()) && is_marked(symbol)
}

pub fn are_spelled(symbols: &[Symbol]) -> bool
    ensures { IsTrue result ↔ All IsSpelled symbols.now }
{
    symbols.iter().all(|symbol| is_spelled(symbol))
}

/// Whether no spelling comes twice.
pub fn have_own_spelling(alloc: Global, symbols: &[Symbol]) -> Result<bool, AllocError>
    ensures { IfOk result (λ so. so ≡ comes_once has_spelling [] (map spelling_of symbols.now)) }
{
    let mut seen = IndexSet::new(alloc);
    for symbol in symbols {
        let spelling = Vec::from_slice(alloc, symbol.spelling.as_slice())?;
        let (_, is_new) = seen.insert_full(spelling)?;
        if !is_new {
            return Ok(false);
        }
    }
    Ok(true)
}
