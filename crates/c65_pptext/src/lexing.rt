// Taking tokens of the bytes that were given.
ghost use Rattle.std.specs.Prelude.{◌≡◌, OnErr, IfErr, IfOk};
ghost use Rattle.c65_base.specs.declared.refusal.Refusal.TheVariants.{OutOfMemory};
ghost use Rattle.c65_ppline.specs.Lexing;
ghost use Rattle.c65_pptext.specs.Reading.{IsTaken};

use c65_base::{Names, Refusal, Size};
use c65_pieces::{Lexed as Given, PieceLexer};
use c65_ppline::{Cut, Lexed};

/// What a quantity above its limit cuts off.
fn cut_by_size(limit: Size) -> Cut
    ensures { result ≡ Lexing.cut_by_size limit }
{
    match limit {
        Size::Line => Cut::LongLine,
        _ => Cut::Names,
    }
}

/// What a refusal of the lexer says of the text.
fn lexed_refusal(refusal: Refusal) -> Result<Lexed, Refusal>
    ensures { result ≡ Lexing.lexed_refusal refusal }
{
    match refusal {
        Refusal::At { pos, .. } => Ok(Lexed::Cut(Cut::OpenComment(pos))),
        Refusal::TooLarge { limit, .. } => Ok(Lexed::Cut(cut_by_size(limit))),
        _ => Err(Refusal::OutOfMemory),
    }
}

/// The next token; none where more bytes are wanted. Only want of memory is an error.
pub fn next_token(
    lexer: &mut PieceLexer,
    names: &mut Names,
    header: bool,
) -> Result<Option<Lexed>, Refusal>
    ensures refused { IfErr result (λ e. e ≡ OutOfMemory) }
    ensures edge { lexer.new.edge ≡ lexer.old.edge }
    ensures file { lexer.new.file ≡ lexer.old.file }
    ensures kept { OnErr result (lexer.new ≡ lexer.old) }
    ensures exact { IfOk result (λ l. IsTaken header lexer.old names.old l lexer.new names.new) }
{
    match lexer.next(names, header) {
        Ok(Given::Token(token)) => Ok(Some(Lexed::Token(token))),
        Ok(Given::End) => Ok(Some(Lexed::End)),
        Ok(Given::More) => Ok(None),
        Err(refusal) => match lexed_refusal(refusal) {
            Ok(lexed) => Ok(Some(lexed)),
            Err(refusal) => Err(refusal),
        },
    }
}
