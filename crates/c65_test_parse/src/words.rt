// Lines of tokens by their words.
use c65_base::{Name, Pos};
use c65_ints::IntType;
use c65_scan::{Keyword, Punct, Token, TokenKind};
use std::alloc::{AllocError, Global};

fn keyword_of(word: &str) -> Option<Keyword> {
    Some(match word {
        "asm" => Keyword::Asm,
        "break" => Keyword::Break,
        "case" => Keyword::Case,
        "__cdecl__" => Keyword::CDecl,
        "char" => Keyword::Char,
        "const" => Keyword::Const,
        "continue" => Keyword::Continue,
        "default" => Keyword::Default,
        "do" => Keyword::Do,
        "else" => Keyword::Else,
        "enum" => Keyword::Enum,
        "for" => Keyword::For,
        "goto" => Keyword::Goto,
        "if" => Keyword::If,
        "int" => Keyword::Int,
        "long" => Keyword::Long,
        "register" => Keyword::Register,
        "return" => Keyword::Return,
        "sizeof" => Keyword::Sizeof,
        "static" => Keyword::Static,
        "struct" => Keyword::Struct,
        "switch" => Keyword::Switch,
        "typedef" => Keyword::Typedef,
        "union" => Keyword::Union,
        "void" => Keyword::Void,
        "while" => Keyword::While,
        _ => return None,
    })
}

fn punct_of(word: &str) -> Option<Punct> {
    Some(match word {
        "(" => Punct::OpenParen,
        ")" => Punct::CloseParen,
        "[" => Punct::OpenBracket,
        "]" => Punct::CloseBracket,
        "{" => Punct::OpenBrace,
        "}" => Punct::CloseBrace,
        "*" => Punct::Star,
        "-" => Punct::Minus,
        "--" => Punct::MinusMinus,
        "++" => Punct::PlusPlus,
        "=" => Punct::Equal,
        "+=" => Punct::PlusEqual,
        "," => Punct::Comma,
        ";" => Punct::Semicolon,
        ":" => Punct::Colon,
        "?" => Punct::Question,
        "..." => Punct::Ellipsis,
        "." => Punct::Dot,
        "->" => Punct::Arrow,
        "&&" => Punct::AndAnd,
        "||" => Punct::OrOr,
        "<" => Punct::Less,
        ">" => Punct::Greater,
        "!" => Punct::Exclamation,
        _ => return None,
    })
}

pub const TYPE: Name = Name(b'T' as u32);

/// A keyword, a punctuator, the constant 1, or a name of one letter, known by its byte.
#[derive(Clone, Copy)]
enum Word {
    Keyword(Keyword),
    Punct(Punct),
    One,
    Letter(u8),
}

fn word_of(text: &str) -> Word {
    if let Some(punct) = punct_of(text) {
        return Word::Punct(punct);
    }
    if let Some(keyword) = keyword_of(text) {
        return Word::Keyword(keyword);
    }
    match text.as_bytes() {
        [b'1'] => Word::One,
        [letter, ..] => Word::Letter(*letter),
        [] => Word::Letter(b' '),
    }
}

fn words(alloc: Global, text: &str) -> Result<Vec<Word>, AllocError> {
    let mut words = Vec::new(alloc);
    for word in text.split_whitespace() {
        words.push(word_of(word))?;
    }
    Ok(words)
}

fn kind_of(word: Word) -> TokenKind {
    match word {
        Word::Keyword(keyword) => TokenKind::Keyword(keyword),
        Word::Punct(punct) => TokenKind::Punct(punct),
        Word::One => TokenKind::Number(IntType::Int, 1),
        Word::Letter(letter) => TokenKind::Name(Name(letter as u32)),
    }
}

fn push(tokens: &mut Vec<Token>, kind: TokenKind) -> Result<(), AllocError> {
    let line = match u32::try_from(tokens.len()) {
        Ok(count) => count.saturating_add(1),
        Err(_) => u32::MAX,
    };
    tokens.push(Token {
        kind,
        pos: Pos { file: 0, line },
    })?;
    Ok(())
}

fn push_words(tokens: &mut Vec<Token>, words: &[Word]) -> Result<(), AllocError> {
    for word in words {
        push(tokens, kind_of(*word))?;
    }
    Ok(())
}

fn push_times(tokens: &mut Vec<Token>, words: &[Word], times: u32) -> Result<(), AllocError> {
    for _ in 0..times {
        push_words(tokens, words)?;
    }
    Ok(())
}

/// The words of a line, each a token on a line of its own from 1, and the end.
pub fn tokens(alloc: Global, text: &str) -> Result<Vec<Token>, AllocError> {
    let mut tokens = Vec::new(alloc);
    push_words(&mut tokens, &words(alloc, text)?)?;
    push(&mut tokens, TokenKind::End)?;
    Ok(tokens)
}

/// What nests, so many levels deep: `BEFORE | OPEN | MIDDLE | CLOSE | BEHIND`.
pub fn nested(alloc: Global, text: &str, times: u32) -> Result<Vec<Token>, AllocError> {
    let mut tokens = Vec::new(alloc);
    for (place, part) in text.split('|').enumerate() {
        let count = if place == 1 || place == 3 { times } else { 1 };
        push_times(&mut tokens, &words(alloc, part)?, count)?;
    }
    push(&mut tokens, TokenKind::End)?;
    Ok(tokens)
}
