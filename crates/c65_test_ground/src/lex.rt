use c65_base::{Code, Names, Refusal, Size};
use c65_lex::{Lexer, PpKind, PpToken, class_of};
use std::alloc::Global;
use std::test::Fail;

fn letter(kind: PpKind) -> u8 {
    match kind {
        PpKind::Name => b'N',
        PpKind::Number => b'D',
        PpKind::Char => b'C',
        PpKind::Text => b'T',
        PpKind::Punct => b'P',
        PpKind::Header => b'H',
        PpKind::Other => b'O',
        PpKind::LineEnd => b'E',
    }
}

/// A token in a list: a space where white space stands before it, its class, its line and its
/// spelling.
pub fn write_token(list: &mut Vec<u8>, names: &Names, token: PpToken) -> Result<(), Refusal> {
    if token.space {
        list.push(b' ')?;
    }
    list.push(letter(token.kind))?;
    list.push(b'0' + (token.pos.line % 10) as u8)?;
    list.push(b':')?;
    if let Some(spelling) = names.spelling(token.spelling) {
        list.extend_from_slice(spelling)?;
    }
    list.push(b'|')?;
    Ok(())
}

/// The tokens of a text, of at most 999.
pub fn listed(alloc: Global, text: &[u8], header: bool) -> Result<Vec<u8>, Refusal> {
    let mut names = Names::new(alloc);
    let mut lexer = Lexer::new(alloc, Vec::from_slice(alloc, text)?, 7);
    let mut list = Vec::new(alloc);
    for _ in 0..1_000 {
        let Some(token) = lexer.next(&mut names, header)? else {
            break;
        };
        write_token(&mut list, &names, token)?;
    }
    Ok(list)
}

/// Whether the tokens of a text are these.
fn lists(alloc: Global, text: &[u8], header: bool, want: &[u8]) -> Result<bool, Refusal> {
    Ok(listed(alloc, text, header)?.as_slice() == want)
}

#[test]
fn lists_tokens(rt: HostRuntime) -> Result<(), Fail> {
    let rows: [(&[u8], &[u8]); 20] = [
        (b"x+++y", b"N1:x|P1:++|P1:+|N1:y|E1:\n|"),
        (b"x+++++y\n", b"N1:x|P1:++|P1:++|P1:+|N1:y|E1:\n|"),
        (
            b"1Ex 0xe+1 0x1f+1",
            b"D1:1Ex| D1:0xe+1| D1:0x1f|P1:+|D1:1|E1:\n|",
        ),
        (b".5 ... ..", b"D1:.5| P1:...| P1:.|P1:.|E1:\n|"),
        (
            b">>=<<=->##>>#",
            b"P1:>>=|P1:<<=|P1:->|P1:##|P1:>>|P1:#|E1:\n|",
        ),
        (
            b"a\\\nb 1\\\n2 +\\\n+ '\\\nx' \"s\\\nt\" /\\\n* c *\\\n/z",
            b"N1:ab| D2:12| P3:++| C4:'x'| T5:\"st\"| N8:z|E8:\n|",
        ),
        (b"a/* */b\n", b"N1:a| N1:b|E1:\n|"),
        (b"a // b\nc", b"N1:a| E1:\n|N2:c|E2:\n|"),
        (b"/* a\nb */c/**/", b" N2:c| E2:\n|"),
        (b"/*/ */a/ *b", b" N1:a|P1:/| P1:*|N1:b|E1:\n|"),
        (b"a\r\nb\\\r\nc\r\n", b"N1:a|E1:\n|N2:bc|E3:\n|"),
        (b"a\rb", b"N1:a|O1:\r|N1:b|E1:\n|"),
        (b"@ \\ 'a", b"O1:@| O1:\\| O1:'|N1:a|E1:\n|"),
        (
            b"L'a' L\"b\" L 'x' L'",
            b"C1:L'a'| T1:L\"b\"| N1:L| C1:'x'| N1:L|O1:'|E1:\n|",
        ),
        (b"'\\'' \"\\\"\" ''", b"C1:'\\''| T1:\"\\\"\"| C1:''|E1:\n|"),
        (b"\"a\n\"b\"", b"O1:\"|N1:a|E1:\n|T2:\"b\"|E2:\n|"),
        (b"\xff \"\xff\"/*\xff*/", b"O1:\xff| T1:\"\xff\"| E1:\n|"),
        (b"<a>", b"P1:<|N1:a|P1:>|E1:\n|"),
        (b"", b""),
        (b"\n\x0b\x0c\t \n", b"E1:\n| E2:\n|"),
    ];
    for (text, want) in rows {
        assert!(rt; lists(rt.alloc(), text, false, want)?);
    }
    Ok(())
}

#[test]
fn lists_header_names(rt: HostRuntime) -> Result<(), Fail> {
    let rows: [(&[u8], &[u8]); 4] = [
        (b"<a/b.h> x", b"H1:<a/b.h>| N1:x|E1:\n|"),
        (b"\"c\\\"d", b"H1:\"c\\\"|N1:d|E1:\n|"),
        (b"<x \"y", b"P1:<|N1:x| O1:\"|N1:y|E1:\n|"),
        (b"<> \"\" L\"a\"", b"P1:<|P1:>| T1:\"\"| T1:L\"a\"|E1:\n|"),
    ];
    for (text, want) in rows {
        assert!(rt; lists(rt.alloc(), text, true, want)?);
    }
    Ok(())
}

/// Whether the next token is refused for an open comment on this line of the file 7.
fn is_open(lexer: &mut Lexer, names: &mut Names, line: u32) -> bool {
    match lexer.next(names, false) {
        Err(Refusal::At { code, pos }) => {
            code == Code::OpenComment && pos.file == 7 && pos.line == line
        }
        _ => false,
    }
}

/// Whether each of two calls behind the tokens before the comment refuses the text so.
fn stays_open(alloc: Global, text: &[u8], before: u32, line: u32) -> Result<bool, Refusal> {
    let mut names = Names::new(alloc);
    let mut lexer = Lexer::new(alloc, Vec::from_slice(alloc, text)?, 7);
    for _ in 0..before {
        lexer.next(&mut names, false)?;
    }
    Ok(is_open(&mut lexer, &mut names, line) && is_open(&mut lexer, &mut names, line))
}

#[test]
fn refuses_an_open_comment_where_it_begins(rt: HostRuntime) -> Result<(), Fail> {
    let rows: [(&[u8], u32, u32); 3] = [
        (b"/* a", 0, 1),
        (b"\n  /* b\n\n", 1, 2),
        (b"\\\n/*/", 0, 2),
    ];
    for (text, before, line) in rows {
        assert!(rt; stays_open(rt.alloc(), text, before, line)?);
    }
    Ok(())
}

/// Whether the first token of a line of so many of these bytes is there, or the line is too long.
fn fits(alloc: Global, byte: u8, count: usize) -> Result<Option<bool>, Refusal> {
    let mut names = Names::new(alloc);
    let mut lexer = Lexer::new(alloc, vec![in alloc; byte; count]?, 0);
    Ok(match lexer.next(&mut names, false) {
        Ok(_) => Some(true),
        Err(Refusal::TooLarge { limit, value }) if limit == Size::Line && value == 32_768 => {
            Some(false)
        }
        Err(_) => None,
    })
}

#[test]
fn refuses_a_long_line(rt: HostRuntime) -> Result<(), Fail> {
    for byte in [b' ', b'a'] {
        assert!(rt; fits(rt.alloc(), byte, 32_767)? == Some(true));
        assert!(rt; fits(rt.alloc(), byte, 32_768)? == Some(false));
    }
    Ok(())
}

#[test]
fn lexes_many_lines(rt: HostRuntime) -> Result<(), Fail> {
    let alloc = rt.alloc();
    let mut text = Vec::new(alloc);
    for _ in 0..2_000 {
        text.extend_from_slice(b"int x/**/=1+y;\n")?;
    }
    let mut names = Names::new(alloc);
    let mut lexer = Lexer::new(alloc, text, 0);
    let mut count = 0u64;
    for before in 0..20_000u64 {
        if lexer.next(&mut names, false)?.is_none() {
            count = before;
            break;
        }
    }
    assert!(rt; count == 16_000);
    Ok(())
}

fn class_letter(text: &[u8]) -> u8 {
    class_of(text).map_or(b'-', letter)
}

#[test]
fn classes_of_whole_spellings(rt: HostRuntime) -> Result<(), Fail> {
    let rows: [(&[u8], u8); 12] = [
        (b"ab1", b'N'),
        (b".5e+1", b'D'),
        (b"L'\\''", b'C'),
        (b"\"a\"", b'T'),
        (b">>=", b'P'),
        (b"@", b'O'),
        (b"\n", b'E'),
        (b"", b'-'),
        (b"a b", b'-'),
        (b"+-", b'-'),
        (b"'a", b'-'),
        (b"<a>", b'-'),
    ];
    for (text, want) in rows {
        assert!(rt; class_letter(text) == want);
    }
    Ok(())
}
