// The lexer over pieces: a text's preprocessing tokens, one after another.
ghost use Rattle.std.specs.Prelude.{◌≡◌, ◌≤◌, length, IfOk, IfErr};
ghost use Rattle.c65_base.specs.declared.refusal.Refusal.TheVariants.{TooLarge};
ghost use Rattle.c65_base.specs.declared.refusal.Size.TheVariants.{Line};
ghost use Rattle.c65_base.specs.Names.{RefusesName};
ghost use Rattle.c65_pieces.specs.Given.{AreSorted};
ghost use Rattle.c65_pieces.specs.Pieces.{IsExtended};
ghost use Rattle.c65_pieces.specs.Answers.{IsNamed, stop_of};

use crate::scan::{Scanned, Spelled, scan};
use crate::text::{Edge, Pending, Text, add, close};
use c65_base::{Code, Names, Pos, Refusal, Size};
use c65_lex::PpToken;
use std::alloc::{AllocError, Global};
use std::marker::Model;

/// A token; that the whole lines that were given have no further one, and more bytes are wanted; or
/// the end of a text that was finished.
#[derive(Drop)]
pub enum Lexed {
    Token(PpToken),
    More,
    End,
}

/// What is left of a text that is given in pieces. It is seen as the number of its file, the line of
/// a comment that goes on, the cells that are known, and where the text goes on behind them. It holds
/// at most 40,960 bytes of text.
#[derive(Drop)]
pub struct PieceLexer {
    file: u64,
    text: Text,
    at: usize,
    comment: Option<u32>,
    finished: bool,
    alloc: Global,
}

impl Model for PieceLexer {
    ghost use Rattle.c65_pieces.specs.Pieces.{Pieces, seen, IsHeld};

    ghost Value = { Pieces };

    ghost view = { λ l. seen l.file l.comment l.text l.at l.finished };

    ghost invariant = { λ l. IsHeld l.text l.at l.finished };
}

/// The text from a place on, and a piece behind it.
fn extended(alloc: Global, text: &Text, at: usize, piece: &[u8]) -> Result<Text, AllocError>
    requires sorted { AreSorted text.now.settled.items text.now.ready text.now.long text.now.edge.column }
    requires place { at ≤ text.now.ready }
    requires few { length text.now.settled.items ≤ 40960 }
    requires short { length piece.now ≤ 4096 }
    ensures { IfOk result (λ new. IsExtended text.now at piece.now new) }
{
    let rest = &text.settled[at..];
    let mut settled = Vec::with_capacity(alloc, rest.len() + piece.len() + 3)?;
    settled.extend_from_slice(rest)?;
    let mut new = Text {
        settled,
        ready: text.ready - at,
        long: text.long,
        edge: text.edge,
    };
    add(&mut new, piece);
    Ok(new)
}

/// What a lexer does where its whole lines have no further token.
#[derive(Clone, Copy)]
pub enum Stop {
    Over,
    Long,
    Wanting,
}

fn stopped(finished: bool, long: bool) -> Stop
    ensures { result ≡ stop_of finished long }
{
    if long {
        Stop::Long
    } else if finished {
        Stop::Over
    } else {
        Stop::Wanting
    }
}

fn too_long() -> Refusal
    ensures { result ≡ TooLarge Line 32768 }
{
    Refusal::TooLarge {
        limit: Size::Line,
        value: Size::Line.number() + 1,
    }
}

/// A token with the name of its spelling.
fn named(file: u64, spelled: &Spelled, names: &mut Names) -> Result<PpToken, Refusal>
    ensures named { IfOk result (λ t. IsNamed file names.old spelled.now.kind spelled.now.spelling spelled.now.line spelled.now.space t names.new) }
    ensures refused { IfErr result (λ e. (RefusesName names.old spelled.now.spelling e) × (names.new ≡ names.old)) }
{
    let name = names.intern(spelled.spelling.as_slice())?;
    Ok(PpToken {
        kind: spelled.kind,
        spelling: name,
        pos: Pos {
            file,
            line: spelled.line,
        },
        space: spelled.space,
    })
}

impl PieceLexer {
    ghost use Rattle.std.specs.Prelude.{◌↔◌, [], OnOk, OnErr, Ok, None};
    ghost use Rattle.c65_base.specs.declared.refusal.Refusal.TheVariants.{OutOfMemory};
    ghost use Rattle.c65_lex.specs.Next.{Next, IsNext, ended};
    ghost use Rattle.c65_pieces.specs.Pieces.{nothing_given, TakesPiece, KnowsMore, IsFinished, ahead_of, lines_of};
    ghost use Rattle.c65_pieces.specs.Lines.{IsNextByLines};
    ghost use Rattle.c65_pieces.specs.Answers.{IsAnswered, Answers, HasNone, MayGoOn, IsKept};
    ghost use Rattle.c65_pieces.specs.declared.lexer.Lexed.TheVariants.{More, End};

    /// The text of a file, of which nothing was given. It takes no memory.
    pub fn open(alloc: Global, file: u64) -> PieceLexer
        ensures new { result ≡ nothing_given file }
        ensures room { TakesPiece result }
    {
        let edge = Edge {
            line: 1,
            column: 0,
            pending: Pending::Nothing,
        };
        PieceLexer {
            file,
            text: Text {
                settled: Vec::new(alloc),
                ready: 0,
                long: false,
                edge,
            },
            at: 0,
            comment: None,
            finished: false,
            alloc,
        }
    }

    /// Gives the next piece, of at most 4,096 bytes. It wants a lexer that is new or has just
    /// answered `More`, and was not finished. Only want of memory is an error, and changes nothing.
    pub fn give(&mut self, piece: &[u8]) -> Result<(), Refusal>
        requires short { length piece.now ≤ 4096 }
        requires room { TakesPiece self.old }
        ensures ok { OnOk result (KnowsMore self.old piece.now self.new) }
        ensures err { OnErr result (self.new ≡ self.old) }
        ensures refused { IfErr result (λ e. e ≡ OutOfMemory) }
    {
        self.text = extended(self.alloc, &self.text, self.at, piece)?;
        self.at = 0;
        Ok(())
    }

    /// Says that no more bytes follow. It takes no memory.
    pub fn finish(&mut self)
        ensures { IsFinished self.old self.new }
    {
        if !self.finished {
            close(&mut self.text);
            self.finished = true;
        }
    }

    /// The next token; `More` where the whole lines that were given have no further one; `End` at
    /// the end of a text that was finished. `header` allows a header name. Refuses a comment without
    /// its end once the text was finished, a line of more than 32,767 bytes as soon as it has them and
    /// before any of its tokens, and the 65,536th spelling, and stays then where it was.
    pub fn next(&mut self, names: &mut Names, header: bool) -> Result<Lexed, Refusal>
        ensures some { IsAnswered header self.old names.old result self.new names.new }

        // Only one thing comes next, so this is the answer to it and to nothing else.
        ensures only { (next : Next) → IsNext header (lines_of self.old) next
            → Answers header self.old names.old next result self.new names.new }
        ensures more { (result ≡ Ok More) ↔ (HasNone header self.old × MayGoOn self.old) }
        ensures end { (result ≡ Ok End) ↔ ((self.old.edge ≡ None) × IsNextByLines header (ahead_of self.old []) ended) }
        ensures whole { (result ≡ Ok End) → IsNext header (ahead_of self.old []) ended }
        ensures kept { OnErr result (IsKept self.old names.old self.new names.new) }
        ensures room { (result ≡ Ok More) → TakesPiece self.new }
    {
        self.answer(names, header)
    }

    fn answer(&mut self, names: &mut Names, header: bool) -> Result<Lexed, Refusal>
        ensures { IsAnswered header self.old names.old result self.new names.new }
    {
        let lines = &self.text.settled[..self.text.ready];
        match scan(self.alloc, lines, self.at, self.comment, header)? {
            Scanned::Ended => match stopped(self.finished, self.text.long) {
                Stop::Over => Ok(Lexed::End),
                Stop::Long => Err(too_long()),
                Stop::Wanting => Ok(Lexed::More),
            },
            Scanned::Unclosed(line) => match stopped(self.finished, self.text.long) {
                Stop::Over => Err(Refusal::At {
                    code: Code::OpenComment,
                    pos: Pos {
                        file: self.file,
                        line,
                    },
                }),
                Stop::Long => Err(too_long()),
                Stop::Wanting => {
                    self.at = self.text.ready;
                    self.comment = Some(line);
                    Ok(Lexed::More)
                }
            },
            Scanned::TooLong => Err(too_long()),
            Scanned::Token(spelled) => {
                let token = named(self.file, &spelled, names)?;
                self.at = spelled.rest.min(self.text.ready);
                self.comment = None;
                Ok(Lexed::Token(token))
            }
        }
    }
}
