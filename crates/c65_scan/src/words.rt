// Keywords and punctuators by their spelling.
ghost use Rattle.std.specs.Prelude.{◌≡◌, ◌∷◌, [], find, bytes_eq};
ghost use Rattle.c65_scan.specs.Words.{keyword_spelling, all_keywords, keyword_of, punct_spelling, all_puncts, punct_of};

use crate::token::{Keyword, Punct};

const KEYWORDS: [Keyword; 36] = [
    Keyword::Auto,
    Keyword::Break,
    Keyword::Case,
    Keyword::Char,
    Keyword::Const,
    Keyword::Continue,
    Keyword::Default,
    Keyword::Do,
    Keyword::Double,
    Keyword::Else,
    Keyword::Enum,
    Keyword::Extern,
    Keyword::Float,
    Keyword::For,
    Keyword::Goto,
    Keyword::If,
    Keyword::Int,
    Keyword::Long,
    Keyword::Register,
    Keyword::Return,
    Keyword::Short,
    Keyword::Signed,
    Keyword::Sizeof,
    Keyword::Static,
    Keyword::Struct,
    Keyword::Switch,
    Keyword::Typedef,
    Keyword::Union,
    Keyword::Unsigned,
    Keyword::Void,
    Keyword::Volatile,
    Keyword::While,
    Keyword::FastCall,
    Keyword::CDecl,
    Keyword::Asm,
    Keyword::UnderscoredAsm,
];

const PUNCTS: [Punct; 48] = [
    Punct::OpenBracket,
    Punct::CloseBracket,
    Punct::OpenParen,
    Punct::CloseParen,
    Punct::OpenBrace,
    Punct::CloseBrace,
    Punct::Comma,
    Punct::Colon,
    Punct::Semicolon,
    Punct::Ellipsis,
    Punct::Question,
    Punct::Dot,
    Punct::Arrow,
    Punct::PlusPlus,
    Punct::MinusMinus,
    Punct::Ampersand,
    Punct::Star,
    Punct::Plus,
    Punct::Minus,
    Punct::Tilde,
    Punct::Exclamation,
    Punct::Slash,
    Punct::Percent,
    Punct::ShiftLeft,
    Punct::ShiftRight,
    Punct::Less,
    Punct::Greater,
    Punct::LessEqual,
    Punct::GreaterEqual,
    Punct::EqualEqual,
    Punct::NotEqual,
    Punct::Caret,
    Punct::Bar,
    Punct::AndAnd,
    Punct::OrOr,
    Punct::Equal,
    Punct::StarEqual,
    Punct::SlashEqual,
    Punct::PercentEqual,
    Punct::PlusEqual,
    Punct::MinusEqual,
    Punct::ShiftLeftEqual,
    Punct::ShiftRightEqual,
    Punct::AmpersandEqual,
    Punct::CaretEqual,
    Punct::BarEqual,
    Punct::Hash,
    Punct::HashHash,
];

impl Keyword {
    /// The keyword's spelling.
    pub fn spelling(self) -> &'static [u8]
        ensures { result.now ≡ keyword_spelling self }
    {
        match self {
            Keyword::Auto => b"auto",
            Keyword::Break => b"break",
            Keyword::Case => b"case",
            Keyword::Char => b"char",
            Keyword::Const => b"const",
            Keyword::Continue => b"continue",
            Keyword::Default => b"default",
            Keyword::Do => b"do",
            Keyword::Double => b"double",
            Keyword::Else => b"else",
            Keyword::Enum => b"enum",
            Keyword::Extern => b"extern",
            Keyword::Float => b"float",
            Keyword::For => b"for",
            Keyword::Goto => b"goto",
            Keyword::If => b"if",
            Keyword::Int => b"int",
            Keyword::Long => b"long",
            Keyword::Register => b"register",
            Keyword::Return => b"return",
            Keyword::Short => b"short",
            Keyword::Signed => b"signed",
            Keyword::Sizeof => b"sizeof",
            Keyword::Static => b"static",
            Keyword::Struct => b"struct",
            Keyword::Switch => b"switch",
            Keyword::Typedef => b"typedef",
            Keyword::Union => b"union",
            Keyword::Unsigned => b"unsigned",
            Keyword::Void => b"void",
            Keyword::Volatile => b"volatile",
            Keyword::While => b"while",
            Keyword::FastCall => b"__fastcall__",
            Keyword::CDecl => b"__cdecl__",
            Keyword::Asm => b"asm",
            Keyword::UnderscoredAsm => b"__asm__",
        }
    }
}

impl Punct {
    /// The punctuator's spelling.
    pub fn spelling(self) -> &'static [u8]
        ensures { result.now ≡ punct_spelling self }
    {
        match self {
            Punct::OpenBracket => b"[",
            Punct::CloseBracket => b"]",
            Punct::OpenParen => b"(",
            Punct::CloseParen => b")",
            Punct::OpenBrace => b"{",
            Punct::CloseBrace => b"}",
            Punct::Comma => b",",
            Punct::Colon => b":",
            Punct::Semicolon => b";",
            Punct::Ellipsis => b"...",
            Punct::Question => b"?",
            Punct::Dot => b".",
            Punct::Arrow => b"->",
            Punct::PlusPlus => b"++",
            Punct::MinusMinus => b"--",
            Punct::Ampersand => b"&",
            Punct::Star => b"*",
            Punct::Plus => b"+",
            Punct::Minus => b"-",
            Punct::Tilde => b"~",
            Punct::Exclamation => b"!",
            Punct::Slash => b"/",
            Punct::Percent => b"%",
            Punct::ShiftLeft => b"<<",
            Punct::ShiftRight => b">>",
            Punct::Less => b"<",
            Punct::Greater => b">",
            Punct::LessEqual => b"<=",
            Punct::GreaterEqual => b">=",
            Punct::EqualEqual => b"==",
            Punct::NotEqual => b"!=",
            Punct::Caret => b"^",
            Punct::Bar => b"|",
            Punct::AndAnd => b"&&",
            Punct::OrOr => b"||",
            Punct::Equal => b"=",
            Punct::StarEqual => b"*=",
            Punct::SlashEqual => b"/=",
            Punct::PercentEqual => b"%=",
            Punct::PlusEqual => b"+=",
            Punct::MinusEqual => b"-=",
            Punct::ShiftLeftEqual => b"<<=",
            Punct::ShiftRightEqual => b">>=",
            Punct::AmpersandEqual => b"&=",
            Punct::CaretEqual => b"^=",
            Punct::BarEqual => b"|=",
            Punct::Hash => b"#",
            Punct::HashHash => b"##",
        }
    }
}

fn keyword_among(keywords: &[Keyword], spelling: &[u8]) -> Option<Keyword>
    ensures { result ≡ find (λ k. bytes_eq (keyword_spelling k) spelling.now) keywords.now }
{
    for keyword in keywords {
        if keyword.spelling() == spelling {
            return Some(*keyword);
        }
    }
    None
}

fn punct_among(puncts: &[Punct], spelling: &[u8]) -> Option<Punct>
    ensures { result ≡ find (λ p. bytes_eq (punct_spelling p) spelling.now) puncts.now }
{
    for punct in puncts {
        if punct.spelling() == spelling {
            return Some(*punct);
        }
    }
    None
}

/// The keyword that has this spelling.
pub fn find_keyword(spelling: &[u8]) -> Option<Keyword>
    ensures { result ≡ keyword_of spelling.now }
{
    keyword_among(&KEYWORDS, spelling)
}

/// The punctuator that has this spelling.
pub fn find_punct(spelling: &[u8]) -> Option<Punct>
    ensures { result ≡ punct_of spelling.now }
{
    punct_among(&PUNCTS, spelling)
}
