// Tokens as C90 writes them, with types and values by its tables.
use IntType::{Int, Long, UInt, ULong};
use c65_base::{Code, Names, Pos, Refusal, Size};
use c65_ints::IntType;
use c65_lex::{Paths, PpKind, PpToken, PpTokens, PpUnit};
use c65_scan::{Keyword, Punct, Token, TokenKind, Tokens, scan};
use std::alloc::Global;

// The tokens of a unit of these, each on a line of its own.
fn scanned(alloc: Global, pieces: &[(PpKind, &[u8])]) -> Result<Tokens, Refusal> {
    let mut names = Names::new(alloc);
    let mut tokens = Vec::new(alloc);
    let mut line = 0;
    for (kind, spelling) in pieces {
        line = line % 1000 + 1;
        let spelling = names.intern(spelling)?;
        tokens.push(PpToken {
            kind: *kind,
            spelling,
            pos: Pos { file: 0, line },
            space: false,
        })?;
    }
    let unit = PpUnit {
        tokens: PpTokens::from_vec(tokens),
        files: Paths::from_vec(Vec::new(alloc)),
    };
    scan(alloc, &unit, &names)
}

fn constant_of(tokens: &Tokens) -> Option<(IntType, u32)> {
    match &tokens.as_slice().first()?.kind {
        TokenKind::Number(ty, value) => Some((*ty, *value)),
        _ => None,
    }
}

fn text_of(token: &Token) -> Option<&[u8]> {
    match &token.kind {
        TokenKind::Text(bytes) => Some(bytes.as_slice()),
        _ => None,
    }
}

// Which of these constants is not read as its row says.
fn wrong_constant(
    alloc: Global,
    kind: PpKind,
    rows: &[(&[u8], IntType, u32)],
) -> Result<Option<usize>, Refusal> {
    for (at, (spelling, ty, value)) in rows.iter().enumerate() {
        let tokens = scanned(alloc, &[(kind, *spelling)])?;
        if constant_of(&tokens) != Some((*ty, *value)) {
            return Ok(Some(at));
        }
    }
    Ok(None)
}

#[test]
fn integers_have_the_first_type_of_their_row(rt: HostRuntime) -> Result<(), Refusal> {
    let rows: [(&[u8], IntType, u32); 27] = [
        (b"0", Int, 0),
        (b"32767", Int, 32_767),
        (b"32768", Long, 32_768),
        (b"2147483647", Long, 2_147_483_647),
        (b"2147483648", ULong, 2_147_483_648),
        (b"4294967295", ULong, 4_294_967_295),
        (b"077777", Int, 32_767),
        (b"0100000", UInt, 32_768),
        (b"0177777", UInt, 65_535),
        (b"0200000", Long, 65_536),
        (b"017777777777", Long, 2_147_483_647),
        (b"020000000000", ULong, 2_147_483_648),
        (b"037777777777", ULong, 4_294_967_295),
        (b"0x7fff", Int, 32_767),
        (b"0x8000", UInt, 32_768),
        (b"0XFFFF", UInt, 65_535),
        (b"0x10000", Long, 65_536),
        (b"0x7FFFffff", Long, 2_147_483_647),
        (b"0x80000000", ULong, 2_147_483_648),
        (b"0xffffffff", ULong, 4_294_967_295),
        (b"65535u", UInt, 65_535),
        (b"65536U", ULong, 65_536),
        (b"2147483647L", Long, 2_147_483_647),
        (b"2147483648l", ULong, 2_147_483_648),
        (b"1ul", ULong, 1),
        (b"1Lu", ULong, 1),
        (b"0x1UL", ULong, 1),
    ];
    assert!(rt; wrong_constant(rt.alloc(), PpKind::Number, &rows)?.is_none());
    Ok(())
}

#[test]
fn characters_have_the_values_of_their_escapes(rt: HostRuntime) -> Result<(), Refusal> {
    let rows: [(&[u8], IntType, u32); 20] = [
        (b"'a'", Int, 97),
        (b"'\"'", Int, 34),
        (b"'\\''", Int, 39),
        (b"'\\\"'", Int, 34),
        (b"'\\?'", Int, 63),
        (b"'\\\\'", Int, 92),
        (b"'\\a'", Int, 7),
        (b"'\\b'", Int, 8),
        (b"'\\f'", Int, 12),
        (b"'\\n'", Int, 10),
        (b"'\\r'", Int, 13),
        (b"'\\t'", Int, 9),
        (b"'\\v'", Int, 11),
        (b"'\\0'", Int, 0),
        (b"'\\101'", Int, 65),
        (b"'\\377'", Int, 255),
        (b"'\\x4'", Int, 4),
        (b"'\\xfF'", Int, 255),
        (b"'\\x0041'", Int, 65),
        (b"'\xff'", Int, 255),
    ];
    assert!(rt; wrong_constant(rt.alloc(), PpKind::Char, &rows)?.is_none());
    Ok(())
}

// The fault of a token on the third line before another fault, and its line.
fn fault_of(alloc: Global, kind: PpKind, spelling: &[u8]) -> Option<(Code, u32)> {
    let pieces: [(PpKind, &[u8]); 4] = [
        (PpKind::Name, b"x"),
        (PpKind::LineEnd, b""),
        (kind, spelling),
        (PpKind::Number, b"08"),
    ];
    match scanned(alloc, &pieces) {
        Err(Refusal::At { code, pos }) => Some((code, pos.line)),
        _ => None,
    }
}

#[test]
fn faults_come_at_their_token(rt: HostRuntime) {
    let rows: [(PpKind, &[u8], Code); 33] = [
        (PpKind::Number, b"4294967296", Code::NumberRange),
        (PpKind::Number, b"040000000000", Code::NumberRange),
        (PpKind::Number, b"0x100000000", Code::NumberRange),
        (PpKind::Number, b"18446744073709551617u", Code::NumberRange),
        (PpKind::Number, b"08", Code::BadNumber),
        (PpKind::Number, b"0x", Code::BadNumber),
        (PpKind::Number, b"0xu", Code::BadNumber),
        (PpKind::Number, b"0x1.5", Code::BadNumber),
        (PpKind::Number, b"1f", Code::BadNumber),
        (PpKind::Number, b"1uu", Code::BadNumber),
        (PpKind::Number, b"1ll", Code::BadNumber),
        (PpKind::Number, b"1ulu", Code::BadNumber),
        (PpKind::Number, b"1e", Code::BadNumber),
        (PpKind::Number, b"1.5.5", Code::BadNumber),
        (PpKind::Number, b"1.5", Code::Float),
        (PpKind::Number, b"1e5", Code::Float),
        (PpKind::Number, b".5f", Code::Float),
        (PpKind::Number, b"1.", Code::Float),
        (PpKind::Number, b"08.5", Code::Float),
        (PpKind::Number, b"1E+5L", Code::Float),
        (PpKind::Char, b"'ab'", Code::CharConstant),
        (PpKind::Char, b"''", Code::CharConstant),
        (PpKind::Char, b"L'a'", Code::Wide),
        (PpKind::Text, b"L\"a\"", Code::Wide),
        (PpKind::Char, b"'\\q'", Code::BadEscape),
        (PpKind::Char, b"'\\x'", Code::BadEscape),
        (PpKind::Char, b"'\\400'", Code::BadEscape),
        (PpKind::Text, b"\"\\x100\"", Code::BadEscape),
        (PpKind::Text, b"\"\\8\"", Code::BadEscape),
        (PpKind::Other, b"@", Code::StrayByte),
        (PpKind::Other, b"'", Code::OpenLiteral),
        (PpKind::Other, b"\"", Code::OpenLiteral),
        (PpKind::Header, b"<a.h>", Code::StrayByte),
    ];
    for (kind, spelling, want) in rows {
        assert!(rt; fault_of(rt.alloc(), kind, spelling) == Some((want, 3)));
    }
}

fn is_end(token: &Token, line: u32) -> bool {
    matches!(token.kind, TokenKind::End) && token.pos == Pos { file: 0, line }
}

// Whether these are a literal of three pieces, a punctuator, an empty literal, a keyword and the end.
fn are_joined(tokens: &[Token]) -> bool {
    let [text, punct, empty, keyword, end] = tokens else {
        return false;
    };
    text_of(text) == Some(b"aAA2\n".as_slice())
        && text.pos.line == 1
        && matches!(punct.kind, TokenKind::Punct(Punct::ShiftRightEqual))
        && text_of(empty) == Some(b"".as_slice())
        && matches!(keyword.kind, TokenKind::Keyword(Keyword::While))
        && is_end(end, 7)
}

#[test]
fn adjacent_literals_are_joined(rt: HostRuntime) -> Result<(), Refusal> {
    let pieces: [(PpKind, &[u8]); 7] = [
        (PpKind::Text, b"\"a\""),
        (PpKind::LineEnd, b""),
        (PpKind::Text, b"\"\\x41\""),
        (PpKind::Text, b"\"\\1012\\n\""),
        (PpKind::Punct, b">>="),
        (PpKind::Text, b"\"\""),
        (PpKind::Name, b"while"),
    ];
    assert!(rt; are_joined(scanned(rt.alloc(), &pieces)?.as_slice()));
    Ok(())
}

#[test]
fn an_empty_unit_ends_on_line_1(rt: HostRuntime) -> Result<(), Refusal> {
    let tokens = scanned(rt.alloc(), &[])?;
    assert!(rt; matches!(tokens.as_slice(), [end] if is_end(end, 1)));
    Ok(())
}

#[test]
fn a_literal_has_at_most_4095_bytes(rt: HostRuntime) -> Result<(), Refusal> {
    let mut long = [b'x'; 4_093];
    long[0] = b'"';
    long[4_092] = b'"';
    let most: [(PpKind, &[u8]); 3] = [
        (PpKind::Text, &long),
        (PpKind::Text, b"\"abcd\""),
        (PpKind::Number, b"1"),
    ];
    assert!(rt; scanned(rt.alloc(), &most)?.as_slice().len() == 3);
    let more: [(PpKind, &[u8]); 3] = [
        (PpKind::Text, &long),
        (PpKind::Text, b"\"abcde\""),
        (PpKind::Number, b"08"),
    ];
    assert!(rt;
        matches!(
            scanned(rt.alloc(), &more),
            Err(Refusal::TooLarge {
                limit: Size::Literal,
                value: 4_096
            })
        )
    );
    Ok(())
}
