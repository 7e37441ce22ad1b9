// The lexer: a text's preprocessing tokens, one after another.
ghost use Rattle.std.specs.Prelude.{◌≡◌};

use crate::place::{Place, read};
use crate::scan::{Scanned, Spelled, scan};
use crate::token::PpToken;
use c65_base::{Code, Names, Pos, Refusal, Size};
use std::alloc::Global;
use std::marker::Model;

/// What is left of a text. It is seen as the number of its file and the cells ahead.
#[derive(Drop)]
pub struct Lexer {
    text: Vec<u8>,
    place: Place,
    file: u64,
    alloc: Global,
}

impl Model for Lexer {
    ghost use Rattle.c65_lex.specs.Cells.{ahead};
    ghost use Rattle.c65_lex.specs.Unread.{Unread};

    ghost Value = { Unread };

    ghost view = { λ l. record { file = l.file; cells = ahead l.text.items l.place } };
}

impl Lexer {
    ghost use Rattle.std.specs.Prelude.{◌↔◌, [], IsTrue, OnErr};
    ghost use Rattle.c65_lex.specs.Unread.{unread, IsAnswered, Answers, IsKept};
    ghost use Rattle.c65_lex.specs.Next.{Next, IsNext, ended};

    /// The text of a file, from its first byte on. It takes no memory.
    pub fn new(alloc: Global, text: Vec<u8>, file: u64) -> Lexer
        ensures { result ≡ unread file text.items }
    {
        let place = Place {
            at: 0,
            line: 1,
            column: 0,
        };
        Lexer {
            text,
            place,
            file,
            alloc,
        }
    }

    /// Whether the text is at its end. It takes no memory.
    pub fn is_at_end(&self) -> bool
        ensures { IsTrue result ↔ (self.now.cells ≡ []) }
    {
        read(&self.text, self.place).is_none()
    }

    /// The next token; None at the end of the text. `header` allows a header name. Refuses a comment
    /// without its end, a line of more than 32,767 bytes, and the 65,536th spelling, and stays then
    /// where it was.
    pub fn next(&mut self, names: &mut Names, header: bool) -> Result<Option<PpToken>, Refusal>
        ensures some { IsAnswered header self.old names.old result self.new names.new }

        // Only one thing comes next, so this is the answer to it and to nothing else.
        ensures only { (next : Next) → IsNext header self.old.cells next
            → Answers self.old names.old next result self.new names.new }
        ensures end { (result ≡ Ok None) ↔ IsNext header self.old.cells ended }
        ensures kept { OnErr result (IsKept self.old names.old self.new names.new) }
    {
        self.answer(names, header)
    }

    fn answer(&mut self, names: &mut Names, header: bool) -> Result<Option<PpToken>, Refusal>
        ensures { IsAnswered header self.old names.old result self.new names.new }
    {
        match scan(self.alloc, &self.text, self.place, header)? {
            Scanned::Ended => Ok(None),
            Scanned::Unclosed(line) => Err(Refusal::At {
                code: Code::OpenComment,
                pos: Pos {
                    file: self.file,
                    line,
                },
            }),
            Scanned::TooLong => Err(Refusal::TooLarge {
                limit: Size::Line,
                value: Size::Line.number() + 1,
            }),
            Scanned::Token(spelled) => {
                let Spelled {
                    kind,
                    spelling,
                    line,
                    space,
                    rest,
                } = spelled;
                match names.intern(spelling.as_slice()) {
                    Ok(name) => {
                        self.place = rest;
                        let pos = Pos {
                            file: self.file,
                            line,
                        };
                        Ok(Some(PpToken {
                            kind,
                            spelling: name,
                            pos,
                            space,
                        }))
                    }
                    Err(refusal) => Err(refusal),
                }
            }
        }
    }
}
