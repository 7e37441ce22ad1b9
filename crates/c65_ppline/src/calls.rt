// Calls of the crates below, with the refusals that preprocessing has.
ghost use Rattle.std.specs.Prelude.{◌≡◌, IfErr, IfOk};
ghost use Rattle.c65_base.specs.declared.refusal.Refusal.TheVariants.{OutOfMemory};
ghost use Rattle.c65_base.specs.Answers.{Gives};
ghost use Rattle.c65_macro.specs.Answered;
ghost use Rattle.c65_macro.specs.Definitions;
ghost use Rattle.c65_macro.specs.Expand;
ghost use Rattle.c65_macro.specs.Items.{learn};
ghost use Rattle.c65_ppline.specs.Causes.{Stops};
ghost use Rattle.c65_ppline.specs.Lexing;
ghost use Rattle.c65_ppline.specs.Lexing.{IsLexed, lexing};

use crate::line::Cut;
use c65_base::{Name, Names, Pos, Refusal, Size};
use c65_lex::{Lexer, PpToken};
use c65_macro::{Macro, Macros};

/// The name of a spelling.
pub fn intern(names: &mut Names, spelling: &[u8]) -> Result<Name, Refusal>
    ensures stops { IfErr result Stops }
    ensures exact { Answered.Gives (λ n. n) result names.new (learn names.old spelling.now) }
{
    names.intern(spelling)
}

/// What comes next in a text.
#[derive(Drop)]
pub enum Lexed {
    Token(PpToken),
    End,
    Cut(Cut),
}

/// What a quantity above its limit cuts off.
fn cut_by_size(limit: Size) -> Cut
    ensures { result ≡ Lexing.cut_by_size limit }
{
    match limit {
        Size::Line => Cut::LongLine,
        _ => Cut::Names,
    }
}

/// What a refusal of the lexer says of the text.
fn lexed_refusal(refusal: Refusal) -> Result<Lexed, Refusal>
    ensures { result ≡ Lexing.lexed_refusal refusal }
{
    match refusal {
        Refusal::At { pos, .. } => Ok(Lexed::Cut(Cut::OpenComment(pos))),
        Refusal::TooLarge { limit, .. } => Ok(Lexed::Cut(cut_by_size(limit))),
        _ => Err(Refusal::OutOfMemory),
    }
}

/// The next token of a text. Only want of memory is an error.
pub fn next_token(lexer: &mut Lexer, names: &mut Names, header: bool) -> Result<Lexed, Refusal>
    ensures refused { IfErr result (λ e. e ≡ OutOfMemory) }
    ensures exact { IfOk result (λ l. IsLexed header lexer.old names.old (lexing l lexer.new names.new)) }
{
    match lexer.next(names, header) {
        Ok(Some(token)) => Ok(Lexed::Token(token)),
        Ok(None) => Ok(Lexed::End),
        Err(refusal) => lexed_refusal(refusal),
    }
}

/// The expansion of a list of tokens.
pub fn expand(macros: &Macros, list: &[PpToken], names: &mut Names) -> Result<Vec<PpToken>, Refusal>
    ensures refused { IfErr result Stops }
    ensures expands { IfOk result (λ out. Expand.Expands macros.now names.old list.now out.items names.new) }
    ensures faults { IfErr result (λ e. Expand.Refuses e macros.now names.old list.now) }
{
    macros.expand(list, names)
}

/// Defines a macro whose name stands at a place.
pub fn define(macros: &mut Macros, item: Macro, pos: Pos) -> Result<(), Refusal>
    ensures refused { IfErr result Stops }
    ensures defined { Gives (λ _. macros.new) result (Definitions.define macros.old item pos) }
{
    macros.define(item, pos)
}
