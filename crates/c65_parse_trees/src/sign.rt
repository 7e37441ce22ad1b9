// What a token may do to a parser.
ghost use Rattle.std.specs.Prelude.{◌≡◌};
ghost use Rattle.c65_tree.specs.Trees;
ghost use Rattle.c65_tree.specs.View.{specifier_of};
ghost use Rattle.c65_parse_trees.specs.Signs.{word_of, is_type_word, sign_of_keyword, sign_of_punct, sign_of, left_of, rank_of, infix_of, prefix_of, begins_type, begins_specifiers};
ghost use Rattle.c65_parse_names.specs.Scopes.{is_type_in};
ghost use Rattle.c65_parse_names.specs.Blocks.{scope_of};

use crate::operator::{Infix, Prefix, binary_level};
use c65_base::{BinaryOp, Name, Pos, StepKind, UnaryOp};
use c65_parse_names::Scope;
use c65_scan::{Keyword, Punct, Token, TokenKind};
use c65_tree::{Specifier, SpecifierKind, Storage};

/// A type specifier or qualifier of one keyword (C90 6.5.2, 6.5.3).
#[derive(Clone, Copy)]
pub enum Word {
    Const,
    Volatile,
    Void,
    Char,
    Short,
    Int,
    Long,
    Float,
    Double,
    Signed,
    Unsigned,
}

/// The words that a tag follows (C90 6.5.2.1, 6.5.2.2).
#[derive(Clone, Copy)]
pub enum TagWord {
    Struct,
    Union,
    Enum,
}

/// What a token is to a parser.
#[derive(Clone, Copy)]
pub enum Sign {
    /// A name, and whether it is a type's.
    Name(Name, bool),
    /// A constant or a string literal.
    Literal,
    Word(Word),
    Storage(Storage),
    Tag(TagWord),
    /// `__fastcall__`, or where the flag says so `__cdecl__`.
    Calling(bool),
    Sizeof,
    Open,
    Close,
    OpenBracket,
    CloseBracket,
    OpenBrace,
    CloseBrace,
    Comma,
    Colon,
    Semicolon,
    Ellipsis,
    Question,
    /// `.`, or where the flag says so `->`.
    Member(bool),
    /// `++`, or where the flag says so `--`.
    Step(bool),
    Star,
    /// An operator that stands only before its operand.
    Unary(UnaryOp),
    /// An operator that stands before or between its operands.
    Either(UnaryOp, BinaryOp),
    /// An operator that stands only between its operands.
    Infix(Infix),
    /// No part of an expression, a type or a declarator.
    Other,
}

impl Word {
    pub fn is_type(self) -> bool
        ensures { result ≡ is_type_word self }
    {
        !matches!(self, Word::Const | Word::Volatile)
    }

    pub fn specifier(self, pos: Pos) -> Specifier
        ensures { specifier_of result ≡ Trees.word pos (word_of self) }
    {
        let kind = match self {
            Word::Const => SpecifierKind::Const,
            Word::Volatile => SpecifierKind::Volatile,
            Word::Void => SpecifierKind::Void,
            Word::Char => SpecifierKind::Char,
            Word::Short => SpecifierKind::Short,
            Word::Int => SpecifierKind::Int,
            Word::Long => SpecifierKind::Long,
            Word::Float => SpecifierKind::Float,
            Word::Double => SpecifierKind::Double,
            Word::Signed => SpecifierKind::Signed,
            Word::Unsigned => SpecifierKind::Unsigned,
        };
        Specifier { pos, kind }
    }
}

fn keyword_sign(keyword: Keyword) -> Sign
    ensures { result ≡ sign_of_keyword keyword }
{
    match keyword {
        Keyword::Auto => Sign::Storage(Storage::Auto),
        Keyword::Char => Sign::Word(Word::Char),
        Keyword::Const => Sign::Word(Word::Const),
        Keyword::Double => Sign::Word(Word::Double),
        Keyword::Enum => Sign::Tag(TagWord::Enum),
        Keyword::Extern => Sign::Storage(Storage::Extern),
        Keyword::Float => Sign::Word(Word::Float),
        Keyword::Int => Sign::Word(Word::Int),
        Keyword::Long => Sign::Word(Word::Long),
        Keyword::Register => Sign::Storage(Storage::Register),
        Keyword::Short => Sign::Word(Word::Short),
        Keyword::Signed => Sign::Word(Word::Signed),
        Keyword::Sizeof => Sign::Sizeof,
        Keyword::Static => Sign::Storage(Storage::Static),
        Keyword::Struct => Sign::Tag(TagWord::Struct),
        Keyword::Typedef => Sign::Storage(Storage::Typedef),
        Keyword::Union => Sign::Tag(TagWord::Union),
        Keyword::Unsigned => Sign::Word(Word::Unsigned),
        Keyword::Void => Sign::Word(Word::Void),
        Keyword::Volatile => Sign::Word(Word::Volatile),
        Keyword::FastCall => Sign::Calling(false),
        Keyword::CDecl => Sign::Calling(true),
        _ => Sign::Other,
    }
}

fn punct_sign(punct: Punct) -> Sign
    ensures { result ≡ sign_of_punct punct }
{
    match punct {
        Punct::OpenBracket => Sign::OpenBracket,
        Punct::CloseBracket => Sign::CloseBracket,
        Punct::OpenParen => Sign::Open,
        Punct::CloseParen => Sign::Close,
        Punct::OpenBrace => Sign::OpenBrace,
        Punct::CloseBrace => Sign::CloseBrace,
        Punct::Comma => Sign::Comma,
        Punct::Colon => Sign::Colon,
        Punct::Semicolon => Sign::Semicolon,
        Punct::Ellipsis => Sign::Ellipsis,
        Punct::Question => Sign::Question,
        Punct::Dot => Sign::Member(false),
        Punct::Arrow => Sign::Member(true),
        Punct::PlusPlus => Sign::Step(false),
        Punct::MinusMinus => Sign::Step(true),
        Punct::Ampersand => Sign::Either(UnaryOp::Address, BinaryOp::BitAnd),
        Punct::Star => Sign::Star,
        Punct::Plus => Sign::Either(UnaryOp::Plus, BinaryOp::Add),
        Punct::Minus => Sign::Either(UnaryOp::Neg, BinaryOp::Sub),
        Punct::Tilde => Sign::Unary(UnaryOp::BitNot),
        Punct::Exclamation => Sign::Unary(UnaryOp::Not),
        Punct::Slash => Sign::Infix(Infix::Binary(BinaryOp::Div)),
        Punct::Percent => Sign::Infix(Infix::Binary(BinaryOp::Rem)),
        Punct::ShiftLeft => Sign::Infix(Infix::Binary(BinaryOp::Shl)),
        Punct::ShiftRight => Sign::Infix(Infix::Binary(BinaryOp::Shr)),
        Punct::Less => Sign::Infix(Infix::Binary(BinaryOp::Lt)),
        Punct::Greater => Sign::Infix(Infix::Binary(BinaryOp::Gt)),
        Punct::LessEqual => Sign::Infix(Infix::Binary(BinaryOp::Le)),
        Punct::GreaterEqual => Sign::Infix(Infix::Binary(BinaryOp::Ge)),
        Punct::EqualEqual => Sign::Infix(Infix::Binary(BinaryOp::Eq)),
        Punct::NotEqual => Sign::Infix(Infix::Binary(BinaryOp::Ne)),
        Punct::Caret => Sign::Infix(Infix::Binary(BinaryOp::BitXor)),
        Punct::Bar => Sign::Infix(Infix::Binary(BinaryOp::BitOr)),
        Punct::AndAnd => Sign::Infix(Infix::And),
        Punct::OrOr => Sign::Infix(Infix::Or),
        Punct::Equal => Sign::Infix(Infix::Assign(None)),
        Punct::StarEqual => Sign::Infix(Infix::Assign(Some(BinaryOp::Mul))),
        Punct::SlashEqual => Sign::Infix(Infix::Assign(Some(BinaryOp::Div))),
        Punct::PercentEqual => Sign::Infix(Infix::Assign(Some(BinaryOp::Rem))),
        Punct::PlusEqual => Sign::Infix(Infix::Assign(Some(BinaryOp::Add))),
        Punct::MinusEqual => Sign::Infix(Infix::Assign(Some(BinaryOp::Sub))),
        Punct::ShiftLeftEqual => Sign::Infix(Infix::Assign(Some(BinaryOp::Shl))),
        Punct::ShiftRightEqual => Sign::Infix(Infix::Assign(Some(BinaryOp::Shr))),
        Punct::AmpersandEqual => Sign::Infix(Infix::Assign(Some(BinaryOp::BitAnd))),
        Punct::CaretEqual => Sign::Infix(Infix::Assign(Some(BinaryOp::BitXor))),
        Punct::BarEqual => Sign::Infix(Infix::Assign(Some(BinaryOp::BitOr))),
        Punct::Hash | Punct::HashHash => Sign::Other,
    }
}

impl Sign {
    /// What a token is, where these names are types.
    pub fn of(scope: &Scope, token: &Token) -> Sign
        ensures { result ≡ sign_of (is_type_in (scope_of scope.now)) token.now }
    {
        match &token.kind {
            TokenKind::Keyword(keyword) => keyword_sign(*keyword),
            TokenKind::Name(name) => Sign::Name(*name, scope.is_type(*name)),
            TokenKind::Number(_, _) | TokenKind::Text(_) => Sign::Literal,
            TokenKind::Punct(punct) => punct_sign(*punct),
            TokenKind::End => Sign::Other,
        }
    }

    /// The least level of an expression that this token goes on with, and 16 where it goes on with none.
    pub fn left(self) -> u32
        ensures { result ≡ left_of self }
    {
        match self {
            Sign::Open | Sign::OpenBracket | Sign::Member(_) | Sign::Step(_) => 15,
            Sign::Star => 12,
            Sign::Either(_, op) => binary_level(op),
            Sign::Infix(op) => op.left(),
            Sign::Question => 3,
            Sign::Comma => 0,
            _ => 16,
        }
    }

    /// The level of the expression that this token goes on to, and 0 where it goes on to none.
    pub fn rank(self) -> u32
        ensures { result ≡ rank_of self }
    {
        match self {
            Sign::Open | Sign::OpenBracket | Sign::Member(_) | Sign::Step(_) => 15,
            Sign::Star => 12,
            Sign::Either(_, op) => binary_level(op),
            Sign::Infix(op) => op.level(),
            Sign::Question => 2,
            _ => 0,
        }
    }

    /// The operator between operands that this token is.
    pub fn between(self) -> Option<Infix>
        ensures { result ≡ infix_of self }
    {
        match self {
            Sign::Star => Some(Infix::Binary(BinaryOp::Mul)),
            Sign::Either(_, op) => Some(Infix::Binary(op)),
            Sign::Infix(op) => Some(op),
            Sign::Comma => Some(Infix::Comma),
            _ => None,
        }
    }

    /// The operator before an operand that this token is, but for `sizeof`.
    pub fn before(self) -> Option<Prefix>
        ensures { result ≡ prefix_of self }
    {
        match self {
            Sign::Star => Some(Prefix::Unary(UnaryOp::Deref)),
            Sign::Unary(op) | Sign::Either(op, _) => Some(Prefix::Unary(op)),
            Sign::Step(false) => Some(Prefix::Step(StepKind::PreInc)),
            Sign::Step(true) => Some(Prefix::Step(StepKind::PreDec)),
            _ => None,
        }
    }

    /// Whether a type name may begin with this token.
    pub fn begins_type(self) -> bool
        ensures { result ≡ begins_type self }
    {
        matches!(self, Sign::Word(_) | Sign::Tag(_) | Sign::Name(_, true))
    }

    /// Whether specifiers may begin with this token.
    pub fn begins_specifiers(self) -> bool
        ensures { result ≡ begins_specifiers self }
    {
        self.begins_type() || matches!(self, Sign::Storage(_))
    }
}
