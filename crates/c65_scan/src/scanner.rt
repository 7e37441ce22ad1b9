// The tokens of a whole unit.
ghost use Rattle.std.specs.Prelude.{◌≡◌, ◌++◌, ◌∷◌, [], None, IfOk, OnOk};
ghost use Rattle.c65_base.specs.Answers.{Gives};
ghost use Rattle.c65_scan.specs.Tokens.{literal, spelling_in, tokens_of};
ghost use Rattle.c65_scan.specs.Steps.{flushed, waits, with_token, after, ended};

use crate::token::{Token, TokenKind, Tokens};
use crate::value::{Value, read_value};
use c65_base::{Name, Names, Pos, Refusal, Size, Text as Bytes};
use c65_lex::PpUnit;
use std::alloc::{AllocError, Global};

// A string literal that the next one would join.
#[derive(Debug, Drop)]
struct Waiting {
    bytes: Bytes,
    pos: Pos,
}

// The tokens so far, the literal after them, and the place of the last of all.
#[derive(Debug, Drop)]
struct Scanned {
    tokens: Tokens,
    waiting: Option<Waiting>,
    last: Pos,
}

fn append(bytes: Bytes, more: Bytes) -> Result<Bytes, AllocError>
    ensures { IfOk result (λ b. b ≡ bytes ++ more) }
{
    let mut bytes = bytes.into_vec();
    bytes.extend_from_slice(more.as_slice())?;
    Ok(Bytes::from_vec(bytes))
}

fn join(waiting: Option<Waiting>, bytes: Bytes, pos: Pos) -> Result<Waiting, AllocError>
    ensures { IfOk result (λ w. w ≡ literal waiting bytes pos) }
{
    match waiting {
        None => Ok(Waiting { bytes, pos }),
        Some(first) => Ok(Waiting {
            bytes: append(first.bytes, bytes)?,
            pos: first.pos,
        }),
    }
}

impl Scanned {
    fn flush(&mut self) -> Result<(), AllocError>
        ensures { OnOk result (self.new ≡ record self.old { tokens = flushed self.old; waiting = None }) }
    {
        if let Some(first) = self.waiting.take() {
            self.tokens.push(Token {
                kind: TokenKind::Text(first.bytes),
                pos: first.pos,
            })?;
        }
        Ok(())
    }

    fn put_token(&mut self, kind: TokenKind, pos: Pos) -> Result<(), AllocError>
        ensures { OnOk result (self.new ≡ with_token self.old kind pos) }
    {
        self.flush()?;
        self.tokens.push(Token { kind, pos })?;
        self.last = pos;
        Ok(())
    }

    fn put_piece(&mut self, bytes: Bytes, pos: Pos) -> Result<(), Refusal>
        ensures { Gives (λ _. self.new) result (waits self.old (literal self.old.waiting bytes pos)) }
    {
        let waiting = join(self.waiting.take(), bytes, pos)?;
        if waiting.bytes.len() as u64 > Size::Literal.number() {
            return Err(Refusal::TooLarge {
                limit: Size::Literal,
                value: Size::Literal.number() + 1,
            });
        }
        self.last = waiting.pos;
        self.waiting = Some(waiting);
        Ok(())
    }

    fn put(&mut self, value: Value, pos: Pos) -> Result<(), Refusal>
        ensures { Gives (λ _. self.new) result (after self.old value pos) }
    {
        match value {
            Value::Skip => Ok(()),
            Value::Fault(code) => Err(Refusal::At { code, pos }),
            Value::Piece(bytes) => self.put_piece(bytes, pos),
            Value::Whole(kind) => Ok(self.put_token(kind, pos)?),
        }
    }

    fn finish(self) -> Result<Tokens, AllocError>
        ensures { IfOk result (λ tokens. tokens ≡ ended self) }
    {
        let mut scanned = self;
        let last = scanned.last;
        scanned.put_token(TokenKind::End, last)?;
        Ok(scanned.tokens)
    }
}

fn spelling_or_none(names: &Names, name: Name) -> &[u8]
    ensures { result.now ≡ spelling_in names.now name }
{
    match names.spelling(name) {
        Some(spelling) => spelling,
        None => &[],
    }
}

/// The tokens of a unit whose spellings these names gave, and one `End` after them, at the place of the token before it, or
/// at line 1 of the first file.
///
/// Refuses the first fault in order, at its token: `StrayByte`, `OpenLiteral`, `BadNumber`, `NumberRange`, `BadEscape`,
/// `CharConstant`, `Wide` and `Float`, and `TooLarge` of `Literal` for a joined string of more than 4,095 bytes.
pub fn scan(alloc: Global, unit: &PpUnit, names: &Names) -> Result<Tokens, Refusal>
    ensures { Gives (λ tokens. tokens) result (tokens_of names.now unit.now.tokens) }
{
    let mut scanned = Scanned {
        tokens: Tokens::from_vec(Vec::new(alloc)),
        waiting: None,
        last: Pos { file: 0, line: 1 },
    };
    for token in unit.tokens.as_slice() {
        let spelling = spelling_or_none(names, token.spelling);
        let value = read_value(alloc, token.kind, token.spelling, spelling)?;
        scanned.put(value, token.pos)?;
    }
    Ok(scanned.finish()?)
}
