use crate::lex::{listed, write_token};
use c65_base::{Code, Names, Refusal, Size};
use c65_lex::{PpKind, PpToken};
use c65_pieces::{Lexed, PieceLexer};
use std::alloc::Global;
use std::test::Fail;

/// The program that counts lines, words and bytes.
const COUNTER: &[u8] = b"#include <stdio.h>
static void num(unsigned n){if(n>9)num(n/10);putchar('0'+n%10);}
int main(void){
int c;unsigned l=0,w=0,b=0;char in=0;
while((c=getchar())!=EOF){
++b;if(c=='\\n')++l;
if(c==' '||c=='\\n'||c=='\\t')in=0;
else if(!in){in=1;++w;}
}
num(l);putchar(' ');num(w);putchar(' ');num(b);putchar('\\n');
return 0;
}
";

/// What comes next where a piece is given as soon as the lexer wants it; an empty one finishes the
/// text.
#[derive(Drop)]
enum Step {
    Token(PpToken),
    Gave,
    End,
}

fn advance(lexer: &mut PieceLexer, names: &mut Names, piece: &[u8]) -> Result<Step, Refusal> {
    match lexer.next(names, false)? {
        Lexed::Token(token) => Ok(Step::Token(token)),
        Lexed::End => Ok(Step::End),
        Lexed::More => {
            if piece.is_empty() {
                lexer.finish();
            } else if piece.len() <= 4_096 {
                lexer.give(piece)?;
            }
            Ok(Step::Gave)
        }
    }
}

/// Whether the lexer wanted this piece.
fn takes_piece(lexer: &mut PieceLexer, names: &mut Names, piece: &[u8]) -> Result<bool, Refusal> {
    Ok(matches!(advance(lexer, names, piece)?, Step::Gave))
}

/// The tokens of a text that is given in pieces of so many bytes, of at most 9,999 answers.
fn listed_in_pieces(alloc: Global, text: &[u8], size: usize) -> Result<Vec<u8>, Refusal> {
    let mut names = Names::new(alloc);
    let mut lexer = PieceLexer::open(alloc, 7);
    let mut list = Vec::new(alloc);
    let mut left = text;
    for _ in 0..10_000 {
        let (piece, rest) = left.split_at(size.min(left.len()));
        match advance(&mut lexer, &mut names, piece)? {
            Step::Token(token) => write_token(&mut list, &names, token)?,
            Step::End => break,
            Step::Gave => left = rest,
        }
    }
    Ok(list)
}

/// Whether a text has the same tokens in pieces of each of these sizes as in one.
fn is_same_in_pieces(alloc: Global, text: &[u8]) -> Result<bool, Refusal> {
    let whole = listed(alloc, text, false)?;
    for size in [1, 2, 3, 7, 4_096] {
        if listed_in_pieces(alloc, text, size)? != whole {
            return Ok(false);
        }
    }
    Ok(true)
}

#[test]
fn the_counter_has_the_same_tokens_in_pieces(rt: HostRuntime) -> Result<(), Fail> {
    assert!(rt; listed(rt.alloc(), COUNTER, false)?.len() > 900);
    assert!(rt; is_same_in_pieces(rt.alloc(), COUNTER)?);
    Ok(())
}

#[test]
fn pieces_cut_tokens_line_ends_and_comments(rt: HostRuntime) -> Result<(), Fail> {
    let rows: [&[u8]; 16] = [
        b"",
        b"a",
        b"x+++++y\n",
        b">>=<<=->##>>#...",
        b"a\\\nb 1\\\n2 +\\\n+ '\\\nx' \"s\\\nt\" /\\\n* c *\\\n/z",
        b"a\r\nb\\\r\nc\r\n",
        b"a\rb\r\r\n\\\r\r\n\\",
        b"\\\\\n\\\\\\\r\n\n\\\r",
        b"/* a\nb */c/**/",
        b"a /* b\n\n * /\n*\\\n/ c // d\ne",
        b"/*/ */a/ *b\n/***\n**/",
        b"\"a\n\"b\" 'c\n'd'",
        b"\n\n\x0b\x0c\t \n",
        b"# define x \\\n  y // z \\\n  w\nv",
        b"a/**//**/b /* c */ /* d\n */ e",
        b"\xff \"\xff\"/*\xff*/\\",
    ];
    for text in rows {
        assert!(rt; is_same_in_pieces(rt.alloc(), text)?);
    }
    Ok(())
}

/// Whether the next token is of this class, on this line.
fn takes(lexer: &mut PieceLexer, names: &mut Names, kind: PpKind, line: u32) -> bool {
    match lexer.next(names, false) {
        Ok(Lexed::Token(token)) => token.kind == kind && token.pos.line == line,
        _ => false,
    }
}

#[test]
fn a_line_is_read_once_its_line_feed_was_given(rt: HostRuntime) -> Result<(), Fail> {
    let mut names = Names::new(rt.alloc());
    let mut lexer = PieceLexer::open(rt.alloc(), 7);
    assert!(rt; takes_piece(&mut lexer, &mut names, b"a\r")?);
    assert!(rt; takes_piece(&mut lexer, &mut names, b"\nb\\")?);
    assert!(rt; takes(&mut lexer, &mut names, PpKind::Name, 1));
    assert!(rt; takes(&mut lexer, &mut names, PpKind::LineEnd, 1));
    assert!(rt; takes_piece(&mut lexer, &mut names, b"\n")?);
    assert!(rt; takes_piece(&mut lexer, &mut names, b"")?);
    assert!(rt; takes(&mut lexer, &mut names, PpKind::Name, 2));
    assert!(rt; takes(&mut lexer, &mut names, PpKind::LineEnd, 3));
    for _ in 0..2 {
        assert!(rt; matches!(lexer.next(&mut names, false), Ok(Lexed::End)));
    }
    Ok(())
}

/// Whether the next token is refused for a comment that is open since this line of the file 7.
fn is_open(lexer: &mut PieceLexer, names: &mut Names, line: u32) -> bool {
    match lexer.next(names, false) {
        Err(Refusal::At { code, pos }) => {
            code == Code::OpenComment && pos.file == 7 && pos.line == line
        }
        _ => false,
    }
}

#[test]
fn a_comment_is_open_once_the_text_was_finished(rt: HostRuntime) -> Result<(), Fail> {
    let mut names = Names::new(rt.alloc());
    let mut lexer = PieceLexer::open(rt.alloc(), 7);
    assert!(rt; takes_piece(&mut lexer, &mut names, b"\n/* a\n")?);
    assert!(rt; takes(&mut lexer, &mut names, PpKind::LineEnd, 1));
    for _ in 0..40_000 {
        assert!(rt; takes_piece(&mut lexer, &mut names, b"b\n")?);
    }
    assert!(rt; takes_piece(&mut lexer, &mut names, b"")?);
    assert!(rt; is_open(&mut lexer, &mut names, 2));
    assert!(rt; is_open(&mut lexer, &mut names, 2));
    Ok(())
}

/// Whether the next token is refused for a line of 32,768 bytes.
fn is_long(lexer: &mut PieceLexer, names: &mut Names) -> bool {
    match lexer.next(names, false) {
        Err(Refusal::TooLarge { limit, value }) => limit == Size::Line && value == 32_768,
        _ => false,
    }
}

/// A lexer to which 32,767 of these bytes were given, and these behind them.
fn given(
    alloc: Global,
    names: &mut Names,
    byte: u8,
    last: &[u8],
) -> Result<Option<PieceLexer>, Refusal> {
    let mut lexer = PieceLexer::open(alloc, 0);
    for _ in 0..7 {
        if !takes_piece(&mut lexer, names, &[byte; 4_096])? {
            return Ok(None);
        }
    }
    if !takes_piece(&mut lexer, names, &[byte; 4_095])? || !takes_piece(&mut lexer, names, last)? {
        return Ok(None);
    }
    Ok(Some(lexer))
}

/// Whether 32,768 of these bytes are too long a line.
fn refuses_one_more(alloc: Global, byte: u8) -> Result<bool, Refusal> {
    let mut names = Names::new(alloc);
    let Some(mut lexer) = given(alloc, &mut names, byte, &[byte])? else {
        return Ok(false);
    };
    Ok(is_long(&mut lexer, &mut names) && is_long(&mut lexer, &mut names))
}

/// Whether a line may have 32,767 of these bytes, where a carriage return and a line feed end it.
fn takes_a_whole_line(alloc: Global, byte: u8) -> Result<bool, Refusal> {
    let mut names = Names::new(alloc);
    let Some(mut lexer) = given(alloc, &mut names, byte, b"\r")? else {
        return Ok(false);
    };
    if !takes_piece(&mut lexer, &mut names, b"\n")? {
        return Ok(false);
    }
    Ok(matches!(lexer.next(&mut names, false), Ok(Lexed::Token(_))))
}

#[test]
fn a_line_is_too_long_as_soon_as_it_is(rt: HostRuntime) -> Result<(), Fail> {
    for byte in [b' ', b'a'] {
        assert!(rt; refuses_one_more(rt.alloc(), byte)?);
        assert!(rt; takes_a_whole_line(rt.alloc(), byte)?);
    }
    Ok(())
}
